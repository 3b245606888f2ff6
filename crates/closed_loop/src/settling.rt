//! When packets are sent, and whether times are settled.
ghost use Rattle.std.specs.Prelude.{◌≡◌, ◌⊎◌, ℕ, true, map, length, Some, slice_get, IfOk};
ghost use Rattle.std.specs.List.{AllByRecursion, list_any};
ghost use Rattle.closed_loop.specs.Times.{time_at};
ghost use Rattle.closed_loop.specs.Openings.{cut_time};
ghost use Rattle.closed_loop.specs.Settled.{next_time, limit_of, is_of_script, IsSettledPacket, IsSettledSession, IsSettled};

use crate::openings::{Opening, are_opened, ends_of};
use crate::packets::Packet;
use crate::scripts::Script;
use crate::sessions::{Session, cut_time};
use crate::times::time_at;
use std::alloc::{AllocError, Global};

/// When a packet is sent, if what it waits for comes at `heard`. A sum that does not fit is past every limit.
#[tactic(auto, unfolding(crate::specs::Settled::next_time))]
pub(crate) fn next_time(
    times: &[Option<u64>],
    heard: Option<u64>,
    limit: u64,
    packet: &Packet,
) -> Option<u64>
    ensures { result ≡ next_time times.now heard limit packet.now }
{
    let own = time_at(times, u64::from(packet.own))?;
    let reset = time_at(times, u64::from(packet.reset))?;
    let ready = own.max(reset).max(heard?);
    let sent = ready.checked_add(packet.pause)?;
    let apart = own.checked_add(u64::from(packet.is_apart))?;
    let time = sent.max(apart);
    if time <= limit { Some(time) } else { None }
}

/// The limit of a packet's time: a cut, if it is one that a cut keeps from being sent.
pub(crate) fn limit_of(limit: u64, cut: Option<u64>, opening: u32, packet: &Packet) -> u64
    ensures { result ≡ limit_of limit cut opening packet.now }
{
    let is_answer = !packet.from_client && packet.own == opening;
    if packet.reset == opening && !is_answer {
        limit.min(cut.unwrap_or(limit))
    } else {
        limit
    }
}

fn is_settled_packet(
    times: &[Option<u64>],
    limit: u64,
    cut: Option<u64>,
    x: &Session<'_>,
    packet: &Packet,
) -> bool
    requires { cut ≡ cut_time times.now x.now }
    ensures { result ≡ true → IsSettledPacket times.now limit x.now packet.now }
{
    let script = x.script;
    let hearing = x.hearing;
    let coming = if packet.from_client {
        &hearing.down
    } else {
        &hearing.up
    };
    let limit = limit_of(limit, cut, script.opening, packet);
    let due = next_time(times, coming.arrival(packet.heard), limit, packet);
    due == time_at(times, u64::from(packet.number))
}

// Whether each packet of a connection is sent when it is to be sent.
fn is_settled_session(times: &[Option<u64>], limit: u64, x: &Session<'_>) -> bool
    ensures { result ≡ true → IsSettledSession times.now limit x.now }
{
    let script = x.script;
    let cut = cut_time(times, x);
    for packet in &script.packets {
        if !is_settled_packet(times, limit, cut, x, packet) {
            return false;
        }
    }
    true
}

fn are_settled(times: &[Option<u64>], limit: u64, sessions: &[Session<'_>]) -> bool
    ensures { result ≡ true → AllByRecursion (IsSettledSession times.now limit) sessions.now }
{
    for x in sessions {
        if !is_settled_session(times, limit, x) {
            return false;
        }
    }
    true
}

// Marks the records of a connection.
fn mark_script(taken: &mut Vec<bool>, script: &Script)
    ensures len { length taken.new.items ≡ length taken.old.items }
    ensures marked { (i : ℕ) → slice_get taken.new.items i ≡ Some true
        → (slice_get taken.old.items i ≡ Some true) ⊎ (is_of_script i script.now ≡ true) }
{
    mark(taken, script.opening);
    for packet in &script.packets {
        mark(taken, packet.number);
    }
}

fn mark(taken: &mut Vec<bool>, number: u32)
    ensures len { length taken.new.items ≡ length taken.old.items }
    ensures marked { (i : ℕ) → slice_get taken.new.items i ≡ Some true
        → (slice_get taken.old.items i ≡ Some true) ⊎ (i ≡ number) }
{
    if let Some(it) = taken.get_mut(number as usize) {
        *it = true;
    }
}

/// Which of `count` records are of a connection.
pub(crate) fn taken_records(
    alloc: Global,
    count: usize,
    scripts: &[Script],
) -> Result<Vec<bool>, AllocError>
    ensures len { IfOk result (λ taken. length taken.items ≡ count) }
    ensures marked { IfOk result (λ taken. (i : ℕ) → slice_get taken.items i ≡ Some true → list_any (is_of_script i) scripts.now ≡ true) }
{
    let mut taken = vec![in alloc; false; count]?;
    for script in scripts {
        mark_script(&mut taken, script);
    }
    Ok(taken)
}

// Whether records of no connection keep their times.
fn alone_stay(recorded: &[Option<u64>], times: &[Option<u64>], taken: &[bool]) -> bool
    requires times { length times.now ≡ length recorded.now }
    requires taken { length taken.now ≡ length recorded.now }
    ensures { result ≡ true → (i : ℕ) → (slice_get taken.now i ≡ Some true) ⊎ (time_at times.now i ≡ time_at recorded.now i) }
{
    for i in 0..recorded.len() {
        if !taken[i] && times[i] != recorded[i] {
            return false;
        }
    }
    true
}

/// Whether times are settled by what is delivered.
pub(crate) fn is_settled(
    alloc: Global,
    opening: &Opening<'_>,
    times: &[Option<u64>],
    taken: &[bool],
    sessions: &[Session<'_>],
) -> Result<bool, AllocError>
    requires len { length taken.now ≡ length opening.now.recorded.now }
    requires taken { (i : ℕ) → slice_get taken.now i ≡ Some true → list_any (is_of_script i) (map (λ x. x.script) sessions.now) ≡ true }
    ensures { IfOk result (λ settled. settled ≡ true
        → IsSettled opening.now.recorded.now times.now opening.now.in_turn opening.now.limit sessions.now) }
{
    if times.len() != opening.recorded.len() || !alone_stay(opening.recorded, times, taken) {
        return Ok(false);
    }
    let ends = ends_of(alloc, times, sessions)?;
    let opened = are_opened(opening, times, &ends, sessions);
    Ok(opened && are_settled(times, opening.limit, sessions))
}
