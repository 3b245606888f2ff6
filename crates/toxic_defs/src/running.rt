//! Toxics on a line: one, and those of a direction in turn.
ghost use Rattle.std.specs.Prelude.{◌≡◌, ◌≤◌, length, IfOk, IsTrue};
ghost use Rattle.reassembly.specs.LineLaws.{IsLine};
ghost use Rattle.toxic_defs.specs.Toxics.{effect, run, chain, fits, IsInRange, AreInRange};
ghost use Rattle.toxic_defs.specs.Limits.{most_toxics};
ghost use Rattle.toxic_defs.specs.RandomWords.{word_of};
ghost use Rattle.toxic_defs.specs.EndRule.{ended};

use crate::bandwidth::run_bandwidth;
use crate::kinds::Kind;
use crate::latency::run_latency;
use crate::limit_data::run_limit_data;
use crate::reset_peer::run_reset_peer;
use crate::slicer::run_slicer;
use crate::slow_close::run_slow_close;
use crate::timeout::run_timeout;
use crate::toxic::{Toxic, applies};
use crate::words::Key;
use pcap_records::Moment;
use reassembly::Line;
use std::alloc::{AllocError, Global};

/// What the toxics of a direction make of a line, each of what the one before gave. Toxic `t` draws the words of the key with that number.
/// `opened` is when the connection was opened; `direction` is 0 for up, 1 for down.
pub fn chain<'a>(
    alloc: Global,
    toxics: &[Toxic],
    line: Line<'a>,
    opened: Moment,
    seed: u64,
    scenario: u32,
    connection: u32,
    direction: u8,
) -> Result<Line<'a>, AllocError>
    requires few { length toxics.now ≤ most_toxics }
    requires line { IsLine line.line }
    ensures line { IfOk result (λ l. l.line ≡ chain line.entry.ticks toxics.now opened seed scenario connection direction line.entry.line) }
    ensures is_line { IfOk result (λ l. IsLine l.line) }
    ensures ticks { IfOk result (λ l. l.ticks ≡ line.entry.ticks) }
    ensures ranges { IfOk result (λ l. AreInRange toxics.now) }
{
    let mut line = line;
    for (t, toxic) in toxics.iter().enumerate() {
        let key = Key {
            seed,
            s: scenario,
            c: connection,
            d: direction,
            t: t as u8,
        };
        line = run(alloc, toxic, line, opened, key)?;
    }
    Ok(line)
}

/// What a toxic makes of a line. A toxic that does not apply leaves it as it is.
pub fn run<'a>(
    alloc: Global,
    toxic: &Toxic,
    line: Line<'a>,
    opened: Moment,
    key: Key,
) -> Result<Line<'a>, AllocError>
    requires { IsLine line.line }
    ensures line { IfOk result (λ l. l.line ≡ run line.entry.ticks toxic.now key opened line.entry.line) }
    ensures is_line { IfOk result (λ l. IsLine l.line) }
    ensures ticks { IfOk result (λ l. l.ticks ≡ line.entry.ticks) }
    ensures range { IsInRange toxic.now }
{
    let kind = toxic.kind();
    if applies(toxic, key) {
        Ok(effect(alloc, kind, line, opened, key)?)
    } else {
        Ok(line)
    }
}

fn effect<'a>(
    alloc: Global,
    kind: Kind,
    line: Line<'a>,
    opened: Moment,
    key: Key,
) -> Result<Line<'a>, AllocError>
    requires range { IsTrue (fits kind) }
    requires line { IsLine line.line }
    ensures line { IfOk result (λ l. l.line
        ≡ ended (effect line.entry.ticks (word_of key) opened kind line.entry.line)) }
    ensures ticks { IfOk result (λ l. l.ticks ≡ line.entry.ticks) }
{
    let unit = line.unit();
    match kind {
        Kind::Latency { latency, jitter } => Ok(run_latency(line, key, latency, jitter)),
        Kind::Bandwidth { rate } => run_bandwidth(alloc, line, rate),
        Kind::SlowClose { delay } => Ok(run_slow_close(line, unit.milliseconds(delay))),
        Kind::Timeout { timeout } => {
            Ok(run_timeout(
                line,
                timeout,
                opened.later(unit.milliseconds(timeout), unit),
            ))
        }
        Kind::ResetPeer { timeout } => {
            Ok(run_reset_peer(line, opened.later(unit.milliseconds(timeout), unit)))
        }
        Kind::Slicer {
            average_size,
            size_variation,
            delay,
        } => run_slicer(alloc, line, key, average_size, size_variation, delay),
        Kind::LimitData { bytes } => Ok(run_limit_data(line, bytes)),
    }
}
