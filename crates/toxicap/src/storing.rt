//! Outputs that are stored as they are made, a few scenarios after another.
ghost use Rattle.std.specs.Prelude.{◌≡◌, ◌+◌, ◌-◌, ◌^◌, ◌<◌, ◌≤◌, IfErr, IfOk, List, Ok, OnOk, Result, length};
ghost use Rattle.toxicap.specs.{Agrees, seen_capture, run_summary, contents_of, RunFault, Output, CommitsIn, failed_stores, Leaves, outcome_of_storing};
ghost use Rattle.toxicap.specs.{run_refusal, files_from, stored_before, answer_of, outputs_of_capture, outputs_of_sources, scenario_limit, Step, without_value};
ghost use Rattle.toxicap.specs.{summary_of_bytes, StoresFiles};

mod drafting;

use crate::crews::{Crew, Workers};
use crate::reading::{Inputs, read_rehearsed};
use crate::reports::report_heads;
use crate::sources::Sources;
use conn_workers::{RunSummary, run_summary, seen_conns};
use disks::Disk;
use drafting::drafts_from;
use pcap_records::Capture;
use run_files::{Folder, RunFault, StoreFault, store_draft};
use scenarios::Scenario;
use std::alloc::Global;
use std::thread::Threads;

/// Rehearses as `rehearse` does and puts the files of their outputs into a folder, in order. They are those that `store_all`
/// puts of what `rehearse` answers. The folder is held once the capture is read, if there is a scenario. At one time at most one scenario
/// for each worker has its rows in memory, and at most two for each worker have drafts. It returns the summary of the run.
///
/// # Errors
/// Those of `rehearse`, and [`RunFault::ShelfFailed`] if the folder cannot be held, or at the first file that cannot be committed to it, or
/// that does not stand there when all are committed.
pub(crate) fn store_rehearsal<R: Threads + Sync, D: Disk + Sync>(
    crew: &Workers<'_, R>,
    alloc: Global,
    inputs: &Inputs<'_>,
    folder: &Folder<'_>,
    disk: &mut D,
) -> Result<RunSummary, RunFault>
where
    D::Draft: Send,
    requires { D.faults disk.old < 2 ^ 64 - 1 }
    ensures leaves { Leaves folder.now (D.standing disk.old) (D.standing disk.new) }
    ensures swept { OnOk result (0 < length inputs.now.scenarios → D.is_swept disk.new folder.now.path folder.now.read) }
    ensures stored { Step (λ (made : Result (List Output) RunFault). Agrees run_refusal (λ outputs. outputs) made
        (answer_of inputs.now)) (without_value result) (D.history disk.new ≡ D.history disk.old)
        (λ outputs. StoresFiles (without_value result) (files_from 0 outputs) (CommitsIn folder.now.path (D.history disk.old) (D.history disk.new))) }
    ensures faults { D.faults disk.new ≡ D.faults disk.old + failed_stores folder.now.path (without_value result) }
    ensures summary { IfOk result (λ summary. summary_of_bytes inputs.now.capture inputs.now.scenarios ≡ Ok summary) }
{
    let scenarios = inputs.scenarios.as_slice();
    let capture = read_rehearsed(alloc, inputs.capture.bytes(), scenarios)?;
    hold_for(alloc, scenarios, folder, disk)?;
    store_outputs(crew, alloc, capture, scenarios, inputs.seed, folder, disk)
}

// Without a scenario the folder is not looked at.
fn hold_for<D: Disk>(
    alloc: Global,
    scenarios: &[Scenario],
    folder: &Folder<'_>,
    disk: &mut D,
) -> Result<(), StoreFault>
    requires { D.faults disk.old < 2 ^ 64 - 1 }
    ensures as_before { D.history disk.new ≡ D.history disk.old }
    ensures stands { D.standing disk.new ≡ D.standing disk.old }
    ensures faults { D.faults disk.new ≡ D.faults disk.old + failed_stores folder.now.path (outcome_of_storing result) }
    ensures swept { OnOk result (0 < length scenarios.now → D.is_swept disk.new folder.now.path folder.now.read) }
    ensures refused { IfErr result (λ fault. (stored_before fault ≡ 0) × (0 < length scenarios.now)) }
{
    if scenarios.is_empty() {
        return Ok(());
    }
    folder.hold(alloc, disk)
}

// The capture's records are dropped before the first output is made.
#[tactic(auto, using(crate::proofs::StoringEnds::none_stored))]
fn store_outputs<R: Threads + Sync, D: Disk + Sync>(
    crew: &Workers<'_, R>,
    alloc: Global,
    capture: Capture<'_>,
    scenarios: &[Scenario],
    seed: u64,
    folder: &Folder<'_>,
    disk: &mut D,
) -> Result<RunSummary, RunFault>
where
    D::Draft: Send,
    requires few { length scenarios.now ≤ scenario_limit }
    requires faults { D.faults disk.old < 2 ^ 64 - 1 }
    ensures leaves { Leaves folder.now (D.standing disk.old) (D.standing disk.new) }
    ensures swept { D.is_swept disk.old folder.now.path folder.now.read → OnOk result (D.is_swept disk.new folder.now.path folder.now.read) }
    ensures stored { StoresFiles (without_value result) (files_from 0 (outputs_of_capture capture.entry scenarios.now seed))
        (CommitsIn folder.now.path (D.history disk.old) (D.history disk.new)) }
    ensures faults { D.faults disk.new ≡ D.faults disk.old + failed_stores folder.now.path (without_value result) }
    ensures summary { IfOk result (λ summary. summary ≡ run_summary (seen_capture (contents_of capture.entry)) scenarios.now) }
{
    let table = crew.table(alloc, &capture)?;
    let heads = report_heads(alloc, &capture, &table, scenarios.len())?;
    let recordings = crew.record(alloc, &capture, &table)?;
    let connections = seen_conns(alloc, recordings.as_slice())?;
    let summary = run_summary(alloc, &capture, &table, connections, scenarios)?;
    let sources = Sources::of(alloc, capture, &heads, &recordings, scenarios, seed);
    store_each(crew, &sources, folder, disk)?;
    Ok(summary)
}

fn store_each<R: Threads + Sync, D: Disk + Sync>(
    crew: &Workers<'_, R>,
    sources: &Sources<'_, '_, '_>,
    folder: &Folder<'_>,
    disk: &mut D,
) -> Result<(), RunFault>
where
    D::Draft: Send,
    requires { D.faults disk.old < 2 ^ 64 - 1 }
    ensures leaves { Leaves folder.now (D.standing disk.old) (D.standing disk.new) }
    ensures swept { D.is_swept disk.old folder.now.path folder.now.read → OnOk result (D.is_swept disk.new folder.now.path folder.now.read) }
    ensures stored { StoresFiles result (files_from 0 (outputs_of_sources sources.now))
        (CommitsIn folder.now.path (D.history disk.old) (D.history disk.new)) }
    ensures faults { D.faults disk.new ≡ D.faults disk.old + failed_stores folder.now.path result }
{
    let mut number = 0;
    while number < sources.scenarios.len() {
        let drafts = drafts_from(crew, sources, number, folder, disk)?;
        for draft in drafts {
            store_draft(sources.alloc, number, draft.into_drafts(), folder, disk)?;
            number += 1;
        }
    }
    folder.see_committed(disk, 2 * sources.scenarios.len() as u64)?;
    Ok(())
}
