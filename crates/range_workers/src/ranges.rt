//! The ranges that the records of a capture are cut into.
ghost use Rattle.std.specs.Prelude.{◌≤◌, IfOk};
ghost use Rattle.range_workers.specs.Ranges.{AreRanges};

use pcap_records::{Capture, Moment};
use std::alloc::{AllocError, Global};

/// The records from `from` to below `to`, and the greatest stamp before them.
#[derive(Clone, Copy, Debug)]
pub(crate) struct Range {
    pub(crate) from: usize,
    pub(crate) to: usize,
    pub(crate) carry: Moment,
}

/// Ranges of `cut` records, the last with what is left, or one without records if the capture has none. The stamps before the last range
/// are read once, those in it never.
pub(crate) fn ranges_of(
    alloc: Global,
    capture: &Capture<'_>,
    cut: usize,
) -> Result<Vec<Range>, AllocError>
    requires { 1 ≤ cut }
    ensures { IfOk result (λ ranges. AreRanges capture.now cut 0 ranges.items) }
{
    let count = capture.records().len();
    let mut ranges = Vec::with_capacity(alloc, count / cut + 1)?;
    let mut from = 0;
    let mut carry = Moment::first();
    'cuts: loop {
        let to = from + cut.min(count - from);
        ranges.push(Range { from, to, carry })?;
        if to == count {
            return Ok(ranges);
        }
        carry = carry.greater(capture.peak(from, to));
        from = to;
    }
}
