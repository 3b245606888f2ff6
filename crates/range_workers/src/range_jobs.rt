//! The work whose jobs are ranges of records: the partial of each.
ghost use Rattle.range_workers.specs.Ranges.{AreWithin};

use crate::ranges::Range;
use conn_table::Partial;
use job_matrix::Work;
use pcap_records::Capture;
use std::alloc::{AllocError, Global};

/// The ranges of a capture's records. Job j is the range at place j.
#[derive(Drop)]
pub(crate) struct RangeJobs<'w, 'a> {
    pub(crate) alloc: Global,
    pub(crate) capture: &'w Capture<'a>,
    pub(crate) ranges: &'w [Range],
    ghost within: { AreWithin capture.now ranges.now },
}

impl<'w, 'a> Work for RangeJobs<'w, 'a> {
    type Out = Partial;

    ghost use Rattle.std.specs.Prelude.{◌≡◌, ◌<◌, length, get_or, IfOk};
    ghost use Rattle.range_workers.specs.Ranges.{partials_of};

    ghost values = { λ w. partials_of w.capture.now w.ranges.now };

    fn value(&self, job: u64) -> Result<Partial, AllocError> {
        let range = self.ranges[job as usize];
        Partial::of_range(self.alloc, self.capture, range.from, range.to, range.carry)
    }
}
