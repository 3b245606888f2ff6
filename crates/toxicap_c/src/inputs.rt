//! The inputs of a call, and what they call for.
ghost use Rattle.std.specs.Prelude.{◌≡◌, IfOk, Result};
ghost use Rattle.lists.specs.Agreement.{AgreesUnlessMemory};
ghost use Rattle.run_files.specs.RunFault.{run_refusal};
ghost use Rattle.run_files.specs.declared.error.RunFault.{RunFault};
ghost use Rattle.scenarios.specs.Refusals.{and_then};
ghost use Rattle.effects.specs.EffectCounts.{effects_in};
ghost use Rattle.laid_lines.specs.FlatLines.{flat_lines};
ghost use Rattle.laid_lines.specs.RecordedLines.{flat_view};
ghost use Rattle.toxicap.specs.Answering.{answer_of, made_of};
ghost use Rattle.toxicap.specs.PrintedReports.{reports_in};
ghost use Rattle.toxicap.specs.RunEnds.{UnlessMemory};
ghost use Rattle.toxicap.specs.declared.reading.Inputs.{Inputs};
ghost use Rattle.toxicap_c.specs.Buffers.{lines_sizes, output_sizes, put_of, put_of_lines, sizes_by};
ghost use Rattle.toxicap_c.specs.Calls.{inputs_asked};

use crate::sizes::{ToxicapLinesSizes, ToxicapSizes, lines_sizes_of, sizes_of};
use laid_lines::LaidLines;
use lists::Values;
use report::ReportText;
use run_files::{Outputs, RunFault, Text};
use std::alloc::{AllocError, Global};
use toxicap::{
    Inputs, effects_alone, lines_alone, read_host_lines, read_inputs, rehearse_alone, reports_alone,
};

/// What a rehearsal is made of.
#[repr(C)]
#[derive(Clone, Copy, Debug)]
pub struct ToxicapInputs<'a> {
    /// The bytes of a capture, or of a dump of one.
    pub capture: &'a [u8],
    /// The texts of the scenarios, one after another.
    pub scenarios: &'a [u8],
    /// The length in bytes of each text.
    pub scenario_lens: &'a [usize],
    /// A line `NAME=ADDR` for each host.
    pub hosts: &'a [u8],
    /// What all drawing depends on.
    pub seed: u64,
}

impl<'a> ToxicapInputs<'a> {
    ghost use Rattle.std.specs.Prelude.{◌≡◌, IfOk, map, length};
    ghost use Rattle.toxicap.specs.RunEnds.{UnlessMemory};
    ghost use Rattle.toxicap_c.specs.Calls.{inputs_asked, texts_of};

    /// What a rehearsal takes, read of these.
    pub(crate) fn read(&self, alloc: Global) -> Result<Inputs<'a>, RunFault>
        ensures { UnlessMemory (inputs_asked self.now) result }
    {
        let hosts = read_host_lines(alloc, self.hosts)?;
        let texts = self.texts(alloc)?;
        let capture = Text::lent(self.capture);
        read_inputs(alloc, capture, &texts, &hosts, self.seed)
    }

    /// The texts of the scenarios.
    pub(crate) fn texts(&self, alloc: Global) -> Result<Vec<&'a [u8]>, AllocError>
        ensures texts { IfOk result (λ texts. map (λ t. t.now) texts.items ≡ texts_of self.now) }
        ensures one_each { IfOk result (λ texts. length texts.items ≡ length self.now.scenario_lens.now) }
    {
        let mut texts = Vec::with_capacity(alloc, self.scenario_lens.len())?;
        let mut rest = self.scenarios;
        for len in self.scenario_lens {
            let (text, left) = rest.split_at((*len).min(rest.len()));
            texts.push(text)?;
            rest = left;
        }
        Ok(texts)
    }
}

/// The outputs that the inputs call for, with their sizes. A size of 2^64 or more is answered as out of memory.
pub(crate) fn sized_outputs_for(
    alloc: Global,
    inputs: &ToxicapInputs<'_>,
) -> Result<(Outputs, ToxicapSizes), RunFault>
    ensures answer { AgreesUnlessMemory run_refusal (λ answer. answer.0) result (and_then (inputs_asked inputs.now) answer_of) }
    ensures sizes { IfOk result (λ answer. answer.1 ≡ sizes_by output_sizes (put_of answer.0)) }
{
    let inputs = inputs.read(alloc)?;
    let outputs = rehearse_alone(alloc, &inputs)?;
    match sizes_of(outputs.as_slice()) {
        Some(sizes) => Ok((outputs, sizes)),
        None => Err(RunFault::Memory),
    }
}

pub(crate) fn reports_for(alloc: Global, inputs: &ToxicapInputs<'_>) -> Result<ReportText, RunFault>
    ensures { AgreesUnlessMemory run_refusal (λ reports. reports) result (and_then (inputs_asked inputs.now) (λ i. reports_in (answer_of i))) }
{
    let inputs = inputs.read(alloc)?;
    let reports = reports_alone(alloc, &inputs)?;
    Ok(reports)
}

/// What toxics of inputs do, in numbers.
pub(crate) fn effects_for(
    alloc: Global,
    inputs: &ToxicapInputs<'_>,
) -> Result<Values<u64>, RunFault>
    ensures { AgreesUnlessMemory run_refusal (λ counts. counts) result (and_then (inputs_asked inputs.now) (made_of effects_in)) }
{
    let inputs = inputs.read(alloc)?;
    let counts = effects_alone(alloc, &inputs)?;
    Ok(counts)
}

/// The lines that inputs call for, if they were read, with their sizes, as [`sized_outputs_for`] answers.
pub(crate) fn sized_lines_for<'r>(
    alloc: Global,
    read: &'r Result<Inputs<'_>, RunFault>,
) -> Result<(LaidLines<'r>, ToxicapLinesSizes), RunFault>
    ensures answer { (i : Result Inputs RunFault) → UnlessMemory i read.now → AgreesUnlessMemory run_refusal (λ answer. flat_view answer.0) result (and_then i (made_of flat_lines)) }
    ensures sizes { IfOk result (λ answer. answer.1 ≡ sizes_by lines_sizes (put_of_lines (flat_view answer.0))) }
{
    let inputs = match read {
        Ok(inputs) => inputs,
        Err(fault) => return Err(*fault),
    };
    let lines = lines_alone(alloc, inputs)?;
    match lines_sizes_of(&lines) {
        Some(sizes) => Ok((lines, sizes)),
        None => Err(RunFault::Memory),
    }
}
