//! The connection table of a capture.
ghost use Rattle.std.specs.Prelude.{◌≡◌, length, IfOk};
ghost use Rattle.conn_table.specs.Tables.{table_in};

use crate::joining::join_all;
use crate::range_jobs::RangeJobs;
use crate::ranges::ranges_of;
use conn_table::laws::{joins_agree, tables_agree};
use conn_table::{Partial, Table, finish};
use job_matrix::{Gate, Phase, Plan, work_all};
use pcap_records::{Capture, Moment};
use std::alloc::{AllocError, Global};
use std::thread::Threads;

/// The connection table of all records of a capture. In phase `Ranges` workers make the partials of ranges, which are joined in order.
/// The answer does not depend on the plan or the gate.
pub fn table<R: Threads + Sync, G: Gate>(
    rt: &R,
    alloc: Global,
    capture: &Capture<'_>,
    plan: Plan,
    gate: &G,
) -> Result<Table, AllocError>
    ensures { IfOk result (λ t. t ≡ table_in capture.now 0 (length capture.now.records) 0) }
{
    joins_agree();
    tables_agree();
    let ranges = ranges_of(alloc, capture, plan.cut() as usize)?;
    let jobs = RangeJobs {
        alloc,
        capture,
        ranges: &ranges,
    };
    let count = ranges.len() as u64;
    let workers = u64::from(plan.workers());
    let partials = work_all(rt, alloc, count, workers, Phase::Ranges, gate, &jobs)?;
    finish(alloc, join_all(partials.into_vec())?)
}

/// The connection table of all records of a capture, as [`table`] gives it, made by this thread from one range.
pub fn table_alone(alloc: Global, capture: &Capture<'_>) -> Result<Table, AllocError>
    ensures { IfOk result (λ t. t ≡ table_in capture.now 0 (length capture.now.records) 0) }
{
    tables_agree();
    let count = capture.records().len();
    let whole = Partial::of_range(alloc, capture, 0, count, Moment::first())?;
    finish(alloc, whole)
}
