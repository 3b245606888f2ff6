//! How the connections of a row are cut into ranges.
ghost use Rattle.std.specs.Prelude.{◌≡◌, ◌≤◌, ◌<◌, ◌+◌, ◌*◌, length, take, drop};

use crate::recordings::Recording;
use job_matrix::Plan;

// The most ranges for each worker.
const RANGES_EACH: usize = 8;

/// `all` connections in `count` ranges that follow one another: each has `size` of them, the last has what is left.
#[derive(Clone, Copy, Debug)]
pub(crate) struct RowRanges {
    all: usize,
    pub(crate) size: usize,
    pub(crate) count: u64,
    ghost whole: { all ≤ count * size },
    ghost needed: { count * size < all + size },
}

impl RowRanges {
    /// Ranges of at most `most` connections: as few as possible for one worker, else at most eight for each worker if `most` allows it.
    pub(crate) fn of(all: usize, most: usize, plan: Plan) -> RowRanges
        requires { 1 ≤ most }
        ensures { result.all ≡ all }
    {
        if plan.workers() == 1 {
            return RowRanges::of_size(all, most);
        }
        RowRanges::of_size(all, even_size(all, plan).min(most))
    }

    fn of_size(all: usize, size: usize) -> RowRanges
        requires { 1 ≤ size }
        ensures { result.all ≡ all }
    {
        let count = all.div_ceil(size) as u64;
        RowRanges { all, size, count }
    }

    /// The number of connections before a range.
    pub(crate) fn first(&self, range: u64) -> usize
        requires { range < self.now.count }
        ensures first { result ≡ range * self.now.size }
        ensures within { result ≤ self.now.all }
    {
        range as usize * self.size
    }

    pub(crate) fn range<'w, 'v, 'a>(
        &self,
        recordings: &'w [Recording<'v, 'a>],
        range: u64,
    ) -> &'w [Recording<'v, 'a>]
        requires all { length recordings.now ≡ self.now.all }
        requires below { range < self.now.count }
        ensures { result.now ≡ take self.now.size (drop (range * self.now.size) recordings.now) }
    {
        let rest = &recordings[self.first(range)..];
        &rest[..self.size.min(rest.len())]
    }
}

// A size of ranges that makes at most eight for each worker.
fn even_size(all: usize, plan: Plan) -> usize
    ensures { 1 ≤ result }
{
    all / (RANGES_EACH * plan.workers() as usize) + 1
}
