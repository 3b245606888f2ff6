//! Gates of a rehearsal: that more than one thread does its jobs, and how many jobs pass in each phase.
use super::again::repeated;
use super::rehearsed::{rehearsed_by, same, scenarios_of};
use job_matrix::{Gate, Phase};
use std::alloc::{AllocGlobal, Global};
use std::process::Abort;
use std::sync::Wait;
use std::thread::Threads;
use toxicap::{RunFault, Through};
use worked_sessions::gates::{Counting, Holding};
use worked_sessions::sessions::file;

// Whether the outputs by two workers who pass a gate are those of one who passes none.
fn is_same_past<R: Threads + Wait + Sync, G: Gate>(
    rt: &R,
    alloc: Global,
    gate: &G,
) -> Result<bool, RunFault> {
    let bytes = file(alloc, true, &repeated())?;
    let scenarios = scenarios_of(alloc, &["[]"])?;
    let expected = rehearsed_by(rt, alloc, &bytes, &scenarios, (1, 4096), &Through)?;
    let outputs = rehearsed_by(rt, alloc, &bytes, &scenarios, (2, 3), gate)?;
    Ok(same(outputs.as_slice(), expected.as_slice()))
}

// Job 0 of this phase waits until job 1 of it has passed, so two threads have done jobs.
fn check_held(rt: &(impl Abort + AllocGlobal + Threads + Wait + Sync), row: &str, phase: Phase) {
    let gate = Holding::new(phase);
    let good = is_same_past(rt, rt.alloc(), &gate) == Ok(true) && !gate.gave_up();
    assert!(rt; good, "{row}");
}

#[test]
fn a_job_held_in_each_phase(rt: HostRuntime) {
    check_held(&rt, "a range held", Phase::Ranges);
    check_held(&rt, "a recorded line held", Phase::Lines);
    check_held(&rt, "a delivery held", Phase::Jobs);
}

// How many outputs three scenarios have of six records of two connections, in ranges of four, by workers who pass a gate.
fn outputs_past<R: Threads + Wait + Sync, G: Gate>(
    rt: &R,
    alloc: Global,
    gate: &G,
) -> Result<usize, RunFault> {
    let bytes = file(alloc, true, &repeated())?;
    let scenarios = scenarios_of(alloc, &["[]", "[]", "[]"])?;
    let outputs = rehearsed_by(rt, alloc, &bytes, &scenarios, (4, 4), gate)?;
    Ok(outputs.as_slice().len())
}

// `jobs` jobs of this phase pass its gate, and their numbers have the sum `numbers`.
fn check_jobs(
    rt: &(impl Abort + AllocGlobal + Threads + Wait + Sync),
    row: &str,
    phase: Phase,
    (jobs, numbers): (u64, u64),
) {
    let gate = Counting::new(phase);
    let three = outputs_past(rt, rt.alloc(), &gate) == Ok(3);
    let good = three && gate.passed() == jobs && gate.numbers() == numbers;
    assert!(rt; good, "{row}");
}

#[test]
fn jobs_of_each_phase(rt: HostRuntime) {
    check_jobs(&rt, "ranges", Phase::Ranges, (2, 1));
    check_jobs(&rt, "recorded lines", Phase::Lines, (2, 1));
    check_jobs(&rt, "deliveries", Phase::Jobs, (6, 15));
}
