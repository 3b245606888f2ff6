//! What each connection of a capture contributes to each scenario.
ghost use Rattle.std.specs.Prelude.{◌≡◌, ◌≤◌, length, IfOk};
ghost use Rattle.pcap_records.specs.CaptureView.{contents_of};
ghost use Rattle.conn_table.specs.SeenCapture.{seen_capture};
ghost use Rattle.conn_workers.specs.Recordings.{scenario_limit, connections_of, deliveries, whole_table};

use crate::jobs::ContributionJobs;
use crate::recordings::record;
use conn_table::Table;
use conn_table::laws::indexed_connections_agree;
use job_matrix::{Gate, Phase, Plan, work_all};
use lists::Values;
use pcap_records::Capture;
use report::ReportText;
use scenarios::Scenario;
use segment_writer::SegList;
use std::alloc::{AllocError, Global};
use std::thread::Threads;

/// What one connection contributes to one scenario.
#[derive(Drop)]
pub struct Delivery {
    pub scenario: u32,
    pub conn: u32,
    /// The segments that are written of it, in order of key.
    pub segments: SegList,
    /// Its line of the report, with the line feed.
    pub line: ReportText,
}

/// A row for each scenario, with a delivery for each connection.
pub type Deliveries = Values<Delivery>;

/// What each connection contributes to each scenario: of C connections, that of connection c to scenario s at place s * C + c. Workers make
/// the recorded lines in phase `Lines`, then the deliveries in phase `Jobs`. The answer is the same for every plan and gate.
pub fn deliver<R: Threads + Sync, G: Gate>(
    rt: &R,
    alloc: Global,
    capture: &Capture<'_>,
    table: &Table,
    scenarios: &[Scenario],
    seed: u64,
    plan: Plan,
    gate: &G,
) -> Result<Deliveries, AllocError>
    requires table { table.now ≡ whole_table capture.now }
    requires few { length scenarios.now ≤ scenario_limit }
    ensures { IfOk result (λ v.
        v ≡ deliveries capture.now.ticks seed (connections_of (seen_capture (contents_of capture.now))) scenarios.now) }
{
    indexed_connections_agree();
    let recordings = record(rt, alloc, capture, table, plan, gate)?;
    let jobs = ContributionJobs {
        alloc,
        recordings: recordings.as_slice(),
        scenarios,
        seed,
    };
    let count = jobs.recordings.len() as u64;
    // each connection begins at a record of its own
    prove!(count <= capture.records().len() as u64);
    let all = scenarios.len() as u64 * count;
    let workers = plan.workers() as u64;
    work_all(rt, alloc, all, workers, Phase::Jobs, gate, &jobs)
}
