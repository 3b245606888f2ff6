//! What the connections of a capture contribute to one scenario, in shares.
ghost use Rattle.std.specs.Prelude.{IfOk};
ghost use Rattle.conn_workers.specs.RowShares.{HoldRow};

use crate::crews::Workers;
use crate::jobs::ShareJobs;
use crate::recordings::Recordings;
use job_matrix::{Phase, Plan, Through, work_all, work_alone};
use lists::Values;
use report::ReportText;
use scenarios::Scenario;
use segment_writer::SortedRow;
use std::alloc::{AllocError, Global};
use std::thread::Threads;

/// What some connections, one after another, contribute to one scenario. It borrows what is recorded of them.
#[derive(Drop)]
pub struct RowShare<'w, 'a> {
    /// The segments that are written of them, in order of key.
    pub segments: SortedRow<'w, 'a>,
    /// Their lines of the report, each with its line feed.
    pub lines: ReportText,
}

/// Shares in order of the connections' numbers. The plan decides how many there are, but not what they hold together.
pub type RowShares<'w, 'a> = Values<RowShare<'w, 'a>>;

/// What each connection contributes to the scenario with this number. Workers make it in phase `Jobs`, with one job for each range of
/// connections.
pub fn deliver_row<'w, 'a, R: Threads + Sync>(
    crew: &Workers<'_, R>,
    alloc: Global,
    recordings: &'w Recordings<'_, 'a>,
    number: u32,
    scenario: &Scenario,
    seed: u64,
) -> Result<RowShares<'w, 'a>, AllocError>
    ensures { IfOk result (HoldRow seed (number, scenario.now) recordings.now) }
{
    let jobs = ShareJobs::of(alloc, recordings, number, scenario, seed, crew.plan);
    let count = jobs.ranges.count;
    let workers = crew.plan.workers() as u64;
    work_all(crew.rt, alloc, count, workers, Phase::Jobs, &Through, &jobs)
}

/// The same as [`deliver_row`], made by this thread in one share, or in none if there are no connections.
pub fn deliver_row_alone<'w, 'a>(
    alloc: Global,
    recordings: &'w Recordings<'_, 'a>,
    number: u32,
    scenario: &Scenario,
    seed: u64,
) -> Result<RowShares<'w, 'a>, AllocError>
    ensures { IfOk result (HoldRow seed (number, scenario.now) recordings.now) }
{
    let one = Plan::new(1, 1).unwrap();
    let jobs = ShareJobs::of(alloc, recordings, number, scenario, seed, one);
    work_alone(alloc, jobs.ranges.count, Phase::Jobs, &Through, &jobs)
}
