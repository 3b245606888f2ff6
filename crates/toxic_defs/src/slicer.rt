//! The slicer: chunks in slices that leave one after another.
ghost use Rattle.std.specs.Prelude.{◌≡◌, ◌≤◌, ◌<◌, IfOk};
ghost use Rattle.pcap_records.specs.Instants.{horizon, ticks_of};
ghost use Rattle.reassembly.specs.LineView.{bytes_of_parts};
ghost use Rattle.toxic_defs.specs.RandomWords.{word_of};
ghost use Rattle.toxic_defs.specs.DelayedBytes.{moved};
ghost use Rattle.toxic_defs.specs.EndRule.{ended};
ghost use Rattle.toxic_defs.specs.Limits.{greatest_attribute};
ghost use Rattle.toxic_defs.specs.Slicer.{paced_line, slicer_leaves};
ghost use Rattle.toxic_defs.specs.Slices.{AreFilled};

use crate::end_rule::finished;
use crate::slices::{Sizes, slice_parts};
use crate::words::Key;
use pcap_records::{Moment, Unit};
use reassembly::{Line, LinePart};
use std::alloc::{AllocError, Global};

/// Each chunk becomes slices of `average_size` bytes, plus or minus a drawn number up to `size_variation`, `delay` microseconds apart.
pub(crate) fn run_slicer<'a>(
    alloc: Global,
    line: Line<'a>,
    key: Key,
    average_size: u64,
    size_variation: u64,
    delay: u64,
) -> Result<Line<'a>, AllocError>
    requires variation { size_variation < average_size }
    requires average { average_size ≤ greatest_attribute }
    requires delay { delay ≤ greatest_attribute }
    ensures line { IfOk result (λ l. l.line
        ≡ ended (paced_line line.entry.ticks (word_of key) average_size size_variation delay line.entry.line)) }
    ensures ticks { IfOk result (λ l. l.ticks ≡ line.entry.ticks) }
{
    let unit = line.unit();
    let end = line.end();
    let parts = line.into_parts();
    let sizes = Sizes::drawn(key, average_size, size_variation);
    let mut slices = slice_parts(alloc, &parts, sizes)?;
    pace_chunks(&mut slices, unit, unit.microseconds(delay));
    Ok(finished(unit, slices, &end))
}

// Moves the chunks in place: each leaves `gap` after the one before, or at its own instant if that is later.
fn pace_chunks(parts: &mut [LinePart<'_>], unit: Unit, gap: u64)
    requires { AreFilled parts.old }
    ensures { bytes_of_parts parts.new ≡ moved (slicer_leaves (horizon (ticks_of unit)) gap) (bytes_of_parts parts.old) }
{
    let mut last = Moment::first();
    let mut next = Moment::first();
    for part in parts.iter_mut() {
        if part.starts {
            last = next.greater(part.at.later(0, unit));
            next = last.later(gap, unit);
        }
        part.at = last;
    }
}
