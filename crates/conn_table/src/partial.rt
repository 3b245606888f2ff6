//! The part of a table that a range of records gives.
use crate::class_counts::Counts;
use crate::entries::Entry;
use frame_headers::{Class, classify};
use pcap_records::{Capture, Moment};
use std::alloc::{AllocError, Global};
use std::marker::Model;

/// What is known of a range of records: its segments, and the number of its packets of each class. [`Partial::join`] joins adjacent ones.
#[derive(Drop)]
pub struct Partial {
    pub(crate) from: usize,
    pub(crate) to: usize,
    pub(crate) counts: Counts,
    /// The segments of each range of which it was joined, range after range.
    pub(crate) ranges: Vec<Vec<Entry>>,
}

impl Model for Partial {
    ghost use Rattle.conn_table.specs.Partials.{PartialView};

    ghost Value = { PartialView };

    ghost use Rattle.std.specs.Prelude.{map};
    ghost use Rattle.conn_table.specs.Entries.{IsPartial, all_of, kept_by};

    ghost view = { λ p. record { from = p.from; to = p.to; counts = p.counts; segments = map kept_by (all_of p.ranges.items) } };

    ghost invariant = { λ p. IsPartial p.from p.to p.counts (all_of p.ranges.items) };
}

impl Partial {
    ghost use Rattle.std.specs.Prelude.{◌≡◌, ◌≤◌, length, IfOk};
    ghost use Rattle.conn_table.specs.Partials.{partial_in, joined_partial};

    /// The partial of the records from `from` to below `to`. `carry` is the greatest stamp before `from`, or the least instant if there is none.
    pub fn of_range(
        alloc: Global,
        capture: &Capture<'_>,
        from: usize,
        to: usize,
        carry: Moment,
    ) -> Result<Partial, AllocError>
        requires ordered { from ≤ to }
        requires within { to ≤ length capture.now.records }
        ensures exact { IfOk result (λ partial. partial ≡ partial_in capture.now from to carry) }
        ensures from { IfOk result (λ partial. partial.from ≡ from) }
        ensures to { IfOk result (λ partial. partial.to ≡ to) }
    {
        let records = capture.records();
        let mut counts = Counts::none();
        let mut entries = Vec::with_capacity(alloc, to - from)?;
        let mut at = carry;
        for index in from..to {
            let record = records[index];
            let class = classify(capture.packet(index));
            at = at.greater(record.stamp);
            counts.add(&class);
            if let Class::Segment(segment) = class {
                entries.push(Entry::of_segment(index as u32, at, record.start, &segment))?;
            }
        }
        Ok(Partial {
            from,
            to,
            counts,
            ranges: vec![in alloc; entries]?,
        })
    }

    /// The partial of two adjacent ranges of a capture. No segment is copied: the time grows only with the number of ranges of the right one.
    pub fn join(left: Partial, right: Partial) -> Result<Partial, AllocError>
        requires { left.to ≡ right.from }
        ensures exact { IfOk result (λ partial. partial ≡ joined_partial left right) }
        ensures from { IfOk result (λ partial. partial.from ≡ left.from) }
        ensures to { IfOk result (λ partial. partial.to ≡ right.to) }
    {
        let Partial {
            from,
            to: _,
            counts,
            mut ranges,
        } = left;
        let Partial {
            from: _,
            to,
            counts: more,
            ranges: mut next,
        } = right;
        ranges.append(&mut next)?;
        Ok(Partial {
            from,
            to,
            counts: counts.plus(more),
            ranges,
        })
    }
}
