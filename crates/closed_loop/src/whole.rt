//! The closed loop of a capture.
ghost use Rattle.std.specs.Prelude.{◌≡◌, ◌<◌, ◌≤◌, List, length, map, slice_get, IfOk, IfErr, IsOk, Ok, Some};
ghost use Rattle.std.specs.List.{range_with_len};
ghost use Rattle.scenarios.specs.declared.proxies.Proxy.{Proxy};
ghost use Rattle.lists.specs.Agreement.{Agrees};
ghost use Rattle.pcap_records.specs.CaptureView.{CaptureView};
ghost use Rattle.conn_workers.specs.Recordings.{whole_table, recordings_of};
ghost use Rattle.run_files.specs.RunFault.{run_refusal};
ghost use Rattle.toxicap.specs.Rehearsal.{answer};
ghost use Rattle.closed_loop.specs.Scripts.{scripts_of};
ghost use Rattle.closed_loop.specs.Recordings.{IsReadAs, IsSource};
ghost use Rattle.closed_loop.specs.Studies.{IsScripted};
ghost use Rattle.closed_loop.specs.Settled.{IsClosedLoop};
ghost use Rattle.closed_loop.specs.Faults.{IsFaultOf};

use crate::fault::{LoopFault, RoundFault};
use crate::forerunners::forerunners_of;
use crate::manners::Manners;
use crate::openings::Opening;
use crate::packets::Making;
use crate::rehearsing::{Toxics, read_again, recorded_of};
use crate::rounds::{Settled, Study, find_settled};
use crate::scripts::{Script, script_of};
use crate::settling::taken_records;
use crate::stamping::{Source, capture_at, raw_of, recorded_times};
use conn_table::{Conn, Table};
use pcap_records::{Capture, Values, read_capture};
use range_workers::table_alone;
use run_files::{Outputs, RunFault, Text};
use scenarios::Scenario;
use std::alloc::{AllocError, Global};
use toxicap::{Inputs, rehearse_alone, reports_alone};

/// A closed loop.
#[derive(Drop)]
pub struct Loop {
    /// When each record of the capture is sent, in ticks of its unit; none if it is never sent.
    pub times: Vec<Option<u64>>,
    /// The capture with these times.
    pub recording: Vec<u8>,
    /// The outputs of the recording under the scenarios.
    pub outputs: Outputs,
    /// How many rounds it took. A round rehearses all connections, or those that moved.
    pub rounds: u64,
}

// The scripts of a capture's connections, if its records with their numbers for times are read so.
fn scripts_of(
    alloc: Global,
    making: Making<'_>,
    conns: &[Conn],
    numbered: &Capture<'_>,
    table: &Table,
) -> Result<Vec<Script>, AllocError>
    requires { table.now ≡ whole_table numbered.now }
    ensures { IfOk result (λ scripts. scripts.items ≡ scripts_of making.entry.manners making.entry.recorded.now conns.now (map (λ r. r.recorded) (recordings_of numbered.now))) }
{
    let count = conns.len().min(table.conns().len());
    let mut scripts = Vec::with_capacity(alloc, count)?;
    for i in 0..count {
        let lines = recorded_of(alloc, numbered, table, i)?;
        scripts.push(script_of(alloc, making, &conns[i], &lines)?)?;
    }
    Ok(scripts)
}

// The scripts of a capture's connections, and the number of connections.
fn script_all(
    alloc: Global,
    source: &Source<'_, '_>,
    manners: Manners,
) -> Result<(Vec<Script>, usize), RoundFault>
    requires { IsSource source.now }
    ensures { IfOk result (λ r. IsScripted source.now.capture.now manners r.0.items r.1) }
{
    let numbers = numbers(alloc, source.capture.records().len())?;
    let file = capture_at(alloc, source, &numbers)?;
    let numbered = read_again(alloc, &file)?;
    let numbered_table = table_alone(alloc, &numbered)?;
    let table = table_alone(alloc, source.capture)?;
    let conns = table.conns();
    let making = Making {
        manners,
        recorded: source.recorded,
    };
    let scripts = scripts_of(alloc, making, conns, &numbered, &numbered_table)?;
    Ok((scripts, conns.len()))
}

// Each record at the time that is its number.
fn numbers(alloc: Global, count: usize) -> Result<Vec<Option<u64>>, AllocError>
    ensures { IfOk result (λ v. v.items ≡ map (λ i. Some i) (range_with_len 0 count)) }
{
    let mut numbers = Vec::with_capacity(alloc, count)?;
    for i in 0..count {
        numbers.push(Some(i as u64))?;
    }
    Ok(numbers)
}

// The closed loop of a capture with these bytes.
fn settled_of<'a>(
    alloc: Global,
    capture: Capture<'a>,
    bytes: &'a [u8],
    toxics: Toxics<'_>,
    manners: Manners,
    rounds: u64,
) -> Result<Settled, RoundFault>
    requires { capture.bytes ≡ bytes.now }
    ensures settled { IfOk result (λ r. IsClosedLoop capture.entry manners toxics.entry.scenario.now toxics.entry.seed r.times.items r.recording.items) }
    ensures rounds { IfOk result (λ r. (0 < r.rounds) × (r.rounds ≤ rounds)) }
{
    let recorded = recorded_times(alloc, &capture)?;
    let raw = raw_of(alloc, &capture, bytes)?;
    let source = Source {
        capture: &capture,
        raw: &raw,
        recorded: &recorded,
    };
    let (scripts, conns) = script_all(alloc, &source, manners)?;
    let forerunners = forerunners_of(alloc, &scripts)?;
    let taken = taken_records(alloc, recorded.len(), &scripts)?;
    let opening = Opening {
        recorded: &recorded,
        in_turn: manners.in_turn,
        limit: capture.unit().horizon(),
    };
    let study = Study {
        source,
        conns,
        scripts: &scripts,
        forerunners: &forerunners,
        taken: &taken,
        opening,
        toxics,
    };
    find_settled(alloc, &study, rounds)
}

// The outputs of a capture with these bytes.
fn outputs_of(
    alloc: Global,
    capture: &[u8],
    scenarios: Values<Scenario>,
    seed: u64,
) -> Result<Outputs, RunFault>
    ensures { Agrees run_refusal (λ outputs. outputs) result (answer capture.now scenarios seed) }
{
    let inputs = Inputs {
        capture: Text::lent(capture),
        scenarios,
        seed,
    };
    rehearse_alone(alloc, &inputs)
}

/// The closed loop of a capture under the first of some scenarios: its connections open, and its packets are sent, as long after what they wait for
/// as in the recording. `capture` has the bytes of a classic pcap file: a dump is not decoded here. `rounds` is the most rounds that it may take.
///
/// # Errors
/// `NoScenario`; then the faults of [`rehearse_alone`] on these arguments, as `Refused`. After these come `NotSettled` and `BadRecording`: no clause
/// says when, only that a rehearsal takes the arguments.
pub fn closed_loop(
    alloc: Global,
    capture: &[u8],
    scenarios: Values<Scenario>,
    seed: u64,
    manners: Manners,
    rounds: u64,
) -> Result<Loop, LoopFault>
    ensures settled { IfOk result (λ r. (c : CaptureView) × (first : List Proxy) × IsReadAs capture.now c × (slice_get scenarios 0 ≡ Some first)
        × IsClosedLoop c manners first seed r.times.items r.recording.items) }
    ensures outputs { IfOk result (λ r. answer r.recording.items scenarios seed ≡ Ok r.outputs) }
    ensures rounds { IfOk result (λ r. (0 < r.rounds) × (r.rounds ≤ rounds)) }
    ensures accepted { IfOk result (λ r. IsOk (answer capture.now scenarios seed)) }
    ensures fault { IfErr result (λ fault. IsFaultOf fault scenarios (answer capture.now scenarios seed)) }
{
    let inputs = Inputs {
        capture: Text::lent(capture),
        scenarios,
        seed,
    };
    let Some(scenario) = inputs.scenarios.as_slice().first() else {
        return Err(LoopFault::NoScenario);
    };
    reports_alone(alloc, &inputs)?;
    // What a rehearsal has taken is refused by no other, so only memory can be lacking.
    let Ok(read) = read_capture(alloc, capture) else {
        return Err(LoopFault::Refused(RunFault::Memory));
    };
    let toxics = Toxics { scenario, seed };
    let settled = match settled_of(alloc, read, capture, toxics, manners, rounds) {
        Ok(settled) => settled,
        Err(fault) => return Err(fault.whole()),
    };
    let Ok(outputs) = outputs_of(alloc, &settled.recording, inputs.scenarios, seed) else {
        return Err(LoopFault::Refused(RunFault::Memory));
    };
    Ok(Loop {
        times: settled.times,
        recording: settled.recording,
        outputs,
        rounds: settled.rounds,
    })
}
