//! Connections with what is delivered of them, and when they end.
ghost use Rattle.std.specs.Prelude.{◌≡◌, ◌≤◌, map, length, IfOk};
ghost use Rattle.pcap_records.specs.Instants.{greatest};
ghost use Rattle.closed_loop.specs.Times.{time_at, instant_in};
ghost use Rattle.closed_loop.specs.Openings.{cut_time, end_time, last_time};

use crate::forerunners::Forerunners;
use crate::packets::Packet;
use crate::scripts::{Hearing, Script};
use crate::times::{earlier, instant_in, time_at};
use std::alloc::{AllocError, Global};
use std::marker::Model;

/// A connection: its script, the connections that it opens after, and what is delivered of it.
#[derive(Drop)]
pub(crate) struct Session<'s> {
    pub(crate) script: &'s Script,
    pub(crate) forerunners: Forerunners,
    pub(crate) hearing: &'s Hearing,
}

impl<'s> Model for Session<'s> {
    ghost use Rattle.closed_loop.specs.Openings.{SessionView};

    ghost Value = { SessionView };

    ghost view = { λ s. record { script = s.script.now; forerunners = s.forerunners; hearing = s.hearing.now } };
}

/// The connections of these scripts, forerunners and hearings.
pub(crate) fn sessions_of<'s>(
    alloc: Global,
    scripts: &'s [Script],
    forerunners: &[Forerunners],
    hearings: &'s [Hearing],
) -> Result<Vec<Session<'s>>, AllocError>
    requires forerunners { length forerunners.now ≡ length scripts.now }
    requires hearings { length hearings.now ≡ length scripts.now }
    ensures scripts { IfOk result (λ sessions. map (λ x. x.script) sessions.items ≡ scripts.now) }
    ensures forerunners { IfOk result (λ sessions. map (λ x. x.forerunners) sessions.items ≡ forerunners.now) }
    ensures hearings { IfOk result (λ sessions. map (λ x. x.hearing) sessions.items ≡ hearings.now) }
{
    let mut sessions = Vec::with_capacity(alloc, scripts.len())?;
    for i in 0..scripts.len() {
        sessions.push(Session {
            script: &scripts[i],
            forerunners: forerunners[i],
            hearing: &hearings[i],
        })?;
    }
    Ok(sessions)
}

fn opening_time(times: &[Option<u64>], x: &Session<'_>) -> Option<u64>
    ensures { result ≡ time_at times.now x.now.script.opening }
{
    let script = x.script;
    time_at(times, u64::from(script.opening))
}

/// When a close or a reset came, or a disabled proxy refused it.
pub(crate) fn cut_time(times: &[Option<u64>], x: &Session<'_>) -> Option<u64>
    ensures { result ≡ cut_time times.now x.now }
{
    let hearing = x.hearing;
    if hearing.refused {
        opening_time(times, x)
    } else {
        hearing.closed
    }
}

/// When its client knows that it has ended.
pub(crate) fn end_time(times: &[Option<u64>], x: &Session<'_>) -> Option<u64>
    ensures { result ≡ end_time times.now x.now }
{
    let script = x.script;
    let hearing = x.hearing;
    let told = if hearing.refused {
        opening_time(times, x)
    } else {
        hearing.told
    };
    let own = match script.farewell {
        Some(number) => time_at(times, u64::from(number)),
        None => None,
    };
    earlier(own, told)
}

fn last_sent(times: &[Option<u64>], packets: &[Packet]) -> u64
    ensures { result ≡ greatest (map (λ p. instant_in times.now p.number) packets.now) }
{
    let mut last = 0;
    for packet in packets {
        last = instant_in(times, u64::from(packet.number)).max(last);
    }
    last
}

/// The last time at which it sends, or the cut that comes after it.
pub(crate) fn last_time(times: &[Option<u64>], x: &Session<'_>) -> u64
    ensures { result ≡ last_time times.now x.now }
{
    let script = x.script;
    let sent = last_sent(times, &script.packets);
    let opened = opening_time(times, x).unwrap_or(0);
    opened.max(sent).max(cut_time(times, x).unwrap_or(0))
}
