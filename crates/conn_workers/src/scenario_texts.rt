//! The lines of connections in the reports of scenarios. What is recorded of a connection is dropped once its lines are made, so that each
//! worker holds only what is recorded of one range.
ghost use Rattle.std.specs.Prelude.{◌≡◌, ◌≤◌, IfOk, length};
ghost use Rattle.conn_workers.specs.Recordings.{whole_table, scenario_limit, recordings_of};
ghost use Rattle.conn_workers.specs.RowShares.{HoldLines, share_of};

use crate::crews::Workers;
use crate::jobs::TextJobs;
use crate::recordings::Recording;
use crate::summaries::{SeenConn, seen_conns};
use crate::under_scenario::UnderScenario;
use conn_table::Table;
use job_matrix::{Gate, Phase, Plan, Through, work_all, work_alone};
use lists::Values;
use pcap_records::Capture;
use report::ReportText;
use scenarios::Scenario;
use std::alloc::{AllocError, Global};
use std::thread::Threads;

/// The lines of some connections in the reports of scenarios, and what summaries show of these connections.
#[derive(Drop)]
pub struct ShareTexts {
    /// A text for each scenario.
    pub texts: Values<ReportText>,
    /// What summaries show of these connections, in order of number.
    pub connections: Values<SeenConn>,
}

/// The share of connections with these recordings.
pub(crate) fn share_of(
    alloc: Global,
    recordings: &[Recording<'_, '_>],
    scenarios: &[Scenario],
    seed: u64,
) -> Result<ShareTexts, AllocError>
    requires { length scenarios.now ≤ scenario_limit }
    ensures { IfOk result (λ v. v ≡ share_of seed scenarios.now recordings.now) }
{
    let mut texts = Vec::with_capacity(alloc, scenarios.len())?;
    for number in 0..scenarios.len() {
        let under = UnderScenario::of(alloc, number as u32, &scenarios[number], seed);
        let text = under.text(recordings)?;
        texts.push(text)?;
    }
    let connections = seen_conns(alloc, recordings)?;
    Ok(ShareTexts {
        texts: Values::of(texts),
        connections,
    })
}

/// The lines of all connections in the reports of scenarios. Each share has the lines of some connections, as a text for each scenario.
/// Workers make them in phase `Jobs`, with one job for each range of connections. The texts of a scenario hold the same together for every
/// plan and gate.
pub fn report_texts<R: Threads + Sync, G: Gate>(
    crew: &Workers<'_, R>,
    alloc: Global,
    capture: &Capture<'_>,
    table: &Table,
    scenarios: &[Scenario],
    seed: u64,
    gate: &G,
) -> Result<Values<ShareTexts>, AllocError>
    requires table { table.now ≡ whole_table capture.now }
    requires few { length scenarios.now ≤ scenario_limit }
    ensures { IfOk result (HoldLines seed scenarios.now (recordings_of capture.now)) }
{
    let jobs = TextJobs::of(alloc, capture, table, scenarios, seed, crew.plan);
    let count = jobs.ranges.count;
    let workers = crew.plan.workers() as u64;
    work_all(crew.rt, alloc, count, workers, Phase::Jobs, gate, &jobs)
}

/// The same as [`report_texts`], made by this thread.
pub fn report_texts_alone(
    alloc: Global,
    capture: &Capture<'_>,
    table: &Table,
    scenarios: &[Scenario],
    seed: u64,
) -> Result<Values<ShareTexts>, AllocError>
    requires table { table.now ≡ whole_table capture.now }
    requires few { length scenarios.now ≤ scenario_limit }
    ensures { IfOk result (HoldLines seed scenarios.now (recordings_of capture.now)) }
{
    let one = Plan::new(1, 1).unwrap();
    let jobs = TextJobs::of(alloc, capture, table, scenarios, seed, one);
    work_alone(alloc, jobs.ranges.count, Phase::Jobs, &Through, &jobs)
}
