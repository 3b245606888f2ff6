//! A limited bandwidth: chunks in slices that leave when the wire has taken their last byte.
ghost use Rattle.std.specs.Prelude.{◌≡◌, ◌≤◌, ◌<◌, ◌+◌, ◌^◌, [], length, IfOk};
ghost use Rattle.pcap_records.specs.Instants.{horizon, instant, millisecond, ticks_of};
ghost use Rattle.reassembly.specs.LineLaws.{IsLine};
ghost use Rattle.reassembly.specs.LineView.{bytes_of_parts};
ghost use Rattle.toxic_defs.specs.Bandwidth.{bandwidth_leaves, ceiling, charged, rated_line, settled, settled_parts};
ghost use Rattle.toxic_defs.specs.DelayedBytes.{moved};
ghost use Rattle.toxic_defs.specs.EndRule.{ended};
ghost use Rattle.toxic_defs.specs.Limits.{greatest_rate};
ghost use Rattle.toxic_defs.specs.Slices.{AreFilled};

use crate::end_rule::finished;
use crate::slices::{Sizes, slice_parts};
use pcap_records::{Moment, Unit};
use reassembly::{Line, LinePart};
use std::alloc::{AllocError, Global};

/// The milliseconds that a slice takes.
const SLICE: u64 = 100;

/// Chunks leave in slices of what passes in 100 milliseconds. A KB has 1000 bytes, so that `rate` is also in bytes a millisecond.
pub(crate) fn run_bandwidth<'a>(
    alloc: Global,
    line: Line<'a>,
    rate: u64,
) -> Result<Line<'a>, AllocError>
    requires some { 0 < rate }
    requires rate { rate ≤ greatest_rate }
    requires line { IsLine line.line }
    ensures line { IfOk result (λ l. l.line ≡ ended (rated_line line.entry.ticks rate line.entry.line)) }
    ensures ticks { IfOk result (λ l. l.ticks ≡ line.entry.ticks) }
{
    let unit = line.unit();
    let end = line.end();
    let parts = line.into_parts();
    let sizes = Sizes::same((SLICE * rate) as usize);
    let mut slices = slice_parts(alloc, &parts, sizes)?;
    pass_chunks(&mut slices, unit, rate);
    Ok(finished(unit, slices, &end))
}

fn pass_chunks(parts: &mut [LinePart<'_>], unit: Unit, rate: u64)
    requires some { 0 < rate }
    requires rate { rate ≤ greatest_rate }
    requires filled { AreFilled parts.old }
    requires short { length (bytes_of_parts parts.old) < 2 ^ 32 }
    ensures { bytes_of_parts parts.new
        ≡ settled (moved (bandwidth_leaves (horizon (ticks_of unit)) (millisecond (ticks_of unit)) rate)
        (bytes_of_parts parts.old)) }
{
    charge_parts(parts, unit, rate);
    settle_chunks(parts);
}

// Moves each part to when its last byte has passed. Work is counted in units of 1/rate tick, so that nothing is rounded on the way.
fn charge_parts(parts: &mut [LinePart<'_>], unit: Unit, rate: u64)
    requires some { 0 < rate }
    requires rate { rate ≤ greatest_rate }
    requires filled { AreFilled parts.old }
    requires short { length (bytes_of_parts parts.old) < 2 ^ 32 }
    ensures { parts.new
        ≡ charged (bandwidth_leaves (horizon (ticks_of unit)) (millisecond (ticks_of unit)) rate) [] parts.old }
{
    let rate = u128::from(rate);
    let mut busy = 0;
    for part in parts.iter_mut() {
        let own = rate * u128::from(part.at.count());
        busy = own.max(busy) + u128::from(unit.milliseconds(part.bytes.len() as u64));
        part.at = done_at(busy, rate, unit);
    }
}

// The first instant at which `busy` units of 1/rate tick are done.
fn done_at(busy: u128, rate: u128, unit: Unit) -> Moment
    requires some { 0 < rate }
    requires fits { busy + rate < 2 ^ 128 }
    ensures { result ≡ instant (ticks_of unit) (ceiling busy rate) }
{
    let ticks = (busy + (rate - 1)) / rate;
    Moment::of(ticks.min(u128::from(unit.horizon())) as u64, unit)
}

fn settle_chunks(parts: &mut [LinePart<'_>])
    ensures { parts.new ≡ settled_parts parts.old }
{
    let mut count = parts.len();
    let mut next = None;
    'parts: while count > 0 {
        count -= 1;
        let part = &mut parts[count];
        part.at = next.unwrap_or(part.at);
        next = if part.starts { None } else { Some(part.at) };
    }
}
