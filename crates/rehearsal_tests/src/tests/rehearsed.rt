//! What a rehearsal gives, the same under every plan.
use job_matrix::Gate;
use scenarios::{Hosts, Scenario, read_scenario};
use std::alloc::{AllocError, Global};
use std::sync::Wait;
use std::thread::Threads;
use toxicap::{Output, Outputs, Plan, RunFault, Through, rehearse};

// The seed of the rows whose numbers are drawn.
const SEED: u64 = 42;

const WORKERS: [u32; 4] = [1, 2, 4, 16];

const CUTS: [u32; 4] = [1, 2, 3, 4096];

// The scenarios of some texts, where no host is known.
pub fn scenarios_of(alloc: Global, texts: &[&str]) -> Result<Vec<Scenario>, RunFault> {
    let mut scenarios = Vec::new(alloc);
    for text in texts {
        match read_scenario(alloc, text.as_bytes(), &Hosts::new(alloc)) {
            Ok(scenario) => scenarios.push(scenario).map_err(AllocError::from)?,
            Err(_) => return Err(RunFault::Memory),
        }
    }
    Ok(scenarios)
}

// Whether outputs are the others, byte for byte.
pub fn same(outputs: &[Output], others: &[Output]) -> bool {
    for (output, other) in outputs.iter().zip(others) {
        if output.capture.as_slice() != other.capture.as_slice() {
            return false;
        }
        if output.report.as_slice() != other.report.as_slice() {
            return false;
        }
    }
    outputs.len() == others.len()
}

// Whether there is one output, with this capture and this report.
pub fn has_output(outputs: &[Output], capture: &[u8], report: &str) -> bool {
    match outputs {
        [output] => {
            output.capture.as_slice() == capture && output.report.as_slice() == report.as_bytes()
        }
        _ => false,
    }
}

// The outputs of a rehearsal by `workers` workers, range by range of a cut, who pass a gate.
pub fn rehearsed_by<R: Threads + Wait + Sync, G: Gate>(
    rt: &R,
    alloc: Global,
    bytes: &[u8],
    scenarios: &[Scenario],
    (workers, cut): (u32, u32),
    gate: &G,
) -> Result<Outputs, RunFault> {
    match Plan::new(workers, cut) {
        Some(plan) => rehearse(rt, alloc, bytes, scenarios, SEED, plan, gate),
        None => Err(RunFault::Memory),
    }
}

// The outputs of a capture without a proxy, where they are the same by 1, 2, 4 and 16 workers, in ranges of 1, 2, 3 and 4,096 records.
pub fn under_every_plan<R: Threads + Wait + Sync>(
    rt: &R,
    alloc: Global,
    bytes: &[u8],
) -> Result<Outputs, RunFault> {
    let scenarios = scenarios_of(alloc, &["[]"])?;
    let expected = rehearsed_by(rt, alloc, bytes, &scenarios, (1, 4096), &Through)?;
    for workers in WORKERS {
        for cut in CUTS {
            let outputs = rehearsed_by(rt, alloc, bytes, &scenarios, (workers, cut), &Through)?;
            if !same(outputs.as_slice(), expected.as_slice()) {
                return Err(RunFault::Memory);
            }
        }
    }
    Ok(expected)
}
