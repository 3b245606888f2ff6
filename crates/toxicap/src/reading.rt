//! What a rehearsal takes, read of texts.
ghost use Rattle.std.specs.Prelude.{◌≡◌, ℕ, ◌≤◌, [], IfErr, IfOk, Ok, length, map};
ghost use Rattle.toxicap.specs.{AgreesUnlessMemory, Refuses, seen_capture, bytes_of, contents_of, reading, run_refusal, scenario, inputs_from, numbered};
ghost use Rattle.toxicap.specs.{scenarios_from, outputs_of_capture, answer, scenario_limit, seen_file, UnlessMemory};

use pcap_records::{CAPTURE_LIMIT, Capture, FileBytes, Values, read_file};
use run_files::{RunFault, Text};
use scenarios::{Hosts, Scenario, ScenarioFault, read_scenario};
use std::alloc::{AllocError, Global};

/// The most scenarios of a rehearsal.
pub(crate) const SCENARIO_LIMIT: usize = 256;

/// What a rehearsal takes.
#[derive(Drop)]
pub struct Inputs<'t> {
    /// The bytes of the capture; of a dump, those that it holds.
    pub capture: Text<'t>,
    /// The scenarios.
    pub scenarios: Values<Scenario>,
    /// What random words are drawn from.
    pub seed: u64,
}

/// Reads the text of a capture, which may be a dump of it, and the texts of scenarios, whose upstreams may name these hosts.
///
/// # Errors
/// `CaptureTooLong`, `BadDump`, `BadScenario` for the first text that is refused; or `Memory`.
#[tactic(auto, unfolding(crate::specs::Answering::inputs_from))]
pub fn read_inputs<'t>(
    alloc: Global,
    text: Text<'t>,
    texts: &[&[u8]],
    hosts: &Hosts,
    seed: u64,
) -> Result<Inputs<'t>, RunFault>
    ensures inputs { UnlessMemory (inputs_from hosts.now (map (λ t. t.now) texts.now) seed text.entry) result }
    ensures one_each { IfOk result (λ i. length i.scenarios ≡ length texts.now) }
{
    let len = text.bytes().len();
    if len > CAPTURE_LIMIT {
        return Err(RunFault::CaptureTooLong);
    }
    let capture = text.undumped(alloc)?;
    let scenarios = Values::of(read_texts(alloc, texts, hosts)?);
    Ok(Inputs {
        capture,
        scenarios,
        seed,
    })
}

#[tactic(auto, unfolding(crate::specs::Answering::scenarios_from))]
pub(crate) fn read_texts(
    alloc: Global,
    texts: &[&[u8]],
    hosts: &Hosts,
) -> Result<Vec<Scenario>, RunFault>
    ensures one_each { IfOk result (λ v. length v.items ≡ length texts.now) }
    ensures read { AgreesUnlessMemory run_refusal (λ v. v.items) result (scenarios_from hosts.now [] (map (λ t. t.now) texts.now)) }
{
    let mut scenarios = Vec::with_capacity(alloc, texts.len())?;
    for (number, text) in texts.iter().enumerate() {
        let scenario = read_text(alloc, number, text, hosts)?;
        scenarios.push(scenario).map_err(AllocError::from)?;
    }
    Ok(scenarios)
}

fn read_text(alloc: Global, number: usize, text: &[u8], hosts: &Hosts) -> Result<Scenario, RunFault>
    ensures { UnlessMemory (numbered number (scenario hosts.now text.now)) result }
{
    match read_scenario(alloc, text, hosts) {
        Ok(scenario) => Ok(scenario),
        Err(ScenarioFault::Refused(refusal)) => Err(RunFault::BadScenario { number, refusal }),
        Err(ScenarioFault::Memory(_)) => Err(RunFault::Memory),
    }
}

/// Reads the capture that is to be rehearsed under these scenarios.
///
/// # Errors
/// The answer, whatever the seed: `TooManyScenarios`, before the capture is looked at; then the capture's own fault; or `Memory`.
#[tactic(auto, unfolding(crate::specs::Rehearsal::answer))]
pub(crate) fn read_rehearsed<'a>(
    alloc: Global,
    capture: FileBytes<'a>,
    scenarios: &[Scenario],
) -> Result<Capture<'a>, RunFault>
    ensures few { IfOk result (λ c. length scenarios.now ≤ scenario_limit) }
    ensures seen { IfOk result (λ c. seen_file (reading (bytes_of capture.entry)) ≡ Ok (seen_capture (contents_of c))) }
    ensures answered { IfOk result (λ c. (seed : ℕ) → answer (bytes_of capture.entry) scenarios.now seed ≡ Ok (outputs_of_capture c scenarios.now seed)) }
    ensures refused { IfErr result (λ fault. (seed : ℕ) → Refuses (run_refusal fault) (answer (bytes_of capture.entry) scenarios.now seed)) }
{
    if scenarios.len() > SCENARIO_LIMIT {
        return Err(RunFault::TooManyScenarios);
    }
    let capture = read_file(alloc, capture)?;
    Ok(capture)
}
