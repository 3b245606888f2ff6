//! The calls that C makes. Rattle's `extern "C"` passes each slice as a pointer and a length, and leaves `alloc` out.
ghost use Rattle.std.specs.Prelude.{[], length};
ghost use Rattle.laid_lines.specs.FlatLines.{flat_lines};
ghost use Rattle.toxicap.specs.Answering.{answer_of, made_of};
ghost use Rattle.toxicap.specs.PrintedReports.{reports_in};
ghost use Rattle.effects.specs.EffectCounts.{effects_in};
ghost use Rattle.toxicap_c.specs.Buffers.{effect_sizes, put_of_counts, buffers, lines_sizes, put_of, put_of_lines, put_of_reports, output_sizes};
ghost use Rattle.toxicap_c.specs.Calls.{asked_for};
ghost use Rattle.toxicap_c.specs.Endings.{EndsAs};

use crate::hand_outs::{put_counts, put_lines, put_outputs, put_reports};
use crate::inputs::{ToxicapInputs, effects_for, reports_for, sized_lines_for, sized_outputs_for};
use crate::refusals::tell;
use crate::sizes::{
    ToxicapEffectSizes, ToxicapLinesSizes, ToxicapSizes, effect_sizes, no_lines_sizes, no_sizes,
};
use crate::statuses::{code_of, status_of};
use laid_lines::{ToxicapChunk, ToxicapConnection};
use std::alloc::Global;

/// Rehearses a capture under scenarios. It puts the captures, the reports, and for each scenario the lengths of both, at the beginnings of
/// the buffers. The rest of these stays. It returns 0 if it answers; `sizes` says how many bytes and entries it put.
///
/// # Errors
/// - 1: refused (hosts first, then as [`toxicap::read_inputs`] and [`toxicap::rehearse_alone`] do) or out of memory. The text that says so is in
///   `reports`: the line, and after a line feed what helps, if that is known.
/// - 2: a buffer is too small for the answer or for a refusal's text; `sizes` says what is needed, and the buffers are as they were.
/// - 3: out of memory, and `reports` is too small for that line; the sizes are 0, and the buffers are as they were.
#[unsafe(no_mangle)]
pub extern "C" fn toxicap_rehearse(
    alloc: Global,
    inputs: &ToxicapInputs<'_>,
    captures: &mut [u8],
    reports: &mut [u8],
    lens: &mut [usize],
    sizes: &mut ToxicapSizes,
) -> u8
    ensures { EndsAs output_sizes (length inputs.now.scenario_lens.now) (asked_for put_of answer_of inputs.now) result
        (buffers captures.old reports.old lens.old) (buffers captures.new reports.new lens.new) sizes.new }
{
    match sized_outputs_for(alloc, inputs) {
        Ok((outputs, expected)) => {
            let is_put = put_outputs(outputs.as_slice(), expected, captures, reports, lens, sizes);
            code_of(status_of(is_put))
        }
        Err(fault) => {
            *sizes = no_sizes();
            code_of(tell(alloc, inputs, &fault, reports, &mut sizes.reports))
        }
    }
}

/// Puts only the reports of [`toxicap_rehearse`], and returns as that does. No segment is written; the other sizes are 0.
#[unsafe(no_mangle)]
pub extern "C" fn toxicap_reports(
    alloc: Global,
    inputs: &ToxicapInputs<'_>,
    reports: &mut [u8],
    sizes: &mut ToxicapSizes,
) -> u8
    ensures { EndsAs output_sizes (length inputs.now.scenario_lens.now) (asked_for put_of_reports (λ i. reports_in (answer_of i)) inputs.now) result
        (buffers [] reports.old []) (buffers [] reports.new []) sizes.new }
{
    match reports_for(alloc, inputs) {
        Ok(text) => code_of(status_of(put_reports(text.as_slice(), reports, sizes))),
        Err(fault) => {
            *sizes = no_sizes();
            code_of(tell(alloc, inputs, &fault, reports, &mut sizes.reports))
        }
    }
}

/// Puts what each side of each connection is delivered in each scenario, laid flat ([`laid_lines::LaidLines`]), at the beginnings of the buffers,
/// and returns as [`toxicap_rehearse`] does. The text of a refusal is in `bytes`.
#[unsafe(no_mangle)]
pub extern "C" fn toxicap_lines(
    alloc: Global,
    inputs: &ToxicapInputs<'_>,
    bytes: &mut [u8],
    chunks: &mut [ToxicapChunk],
    connections: &mut [ToxicapConnection],
    sizes: &mut ToxicapLinesSizes,
) -> u8
    ensures { EndsAs lines_sizes (length inputs.now.scenario_lens.now) (asked_for put_of_lines (made_of flat_lines) inputs.now) result
        (buffers chunks.old bytes.old connections.old) (buffers chunks.new bytes.new connections.new) sizes.new }
{
    let read = inputs.read(alloc);
    match sized_lines_for(alloc, &read) {
        Ok((lines, expected)) => {
            let is_put = put_lines(&lines, expected, bytes, chunks, connections, sizes);
            code_of(status_of(is_put))
        }
        Err(fault) => {
            *sizes = no_lines_sizes();
            code_of(tell(alloc, inputs, &fault, bytes, &mut sizes.bytes))
        }
    }
}

/// Puts how many connections meet each proxy and draw each toxic, and on how many it has an effect ([`toxicap::effects_alone`]), at the beginning
/// of `counts`, and returns as [`toxicap_rehearse`] does. The text of a refusal is in `text`, which else stays.
#[unsafe(no_mangle)]
pub extern "C" fn toxicap_effects(
    alloc: Global,
    inputs: &ToxicapInputs<'_>,
    counts: &mut [u64],
    text: &mut [u8],
    sizes: &mut ToxicapEffectSizes,
) -> u8
    ensures { EndsAs effect_sizes (length inputs.now.scenario_lens.now) (asked_for put_of_counts (made_of effects_in) inputs.now) result
        (buffers counts.old text.old []) (buffers counts.new text.new []) sizes.new }
{
    match effects_for(alloc, inputs) {
        Ok(found) => code_of(status_of(put_counts(found.as_slice(), counts, sizes))),
        Err(fault) => {
            *sizes = effect_sizes(0, 0);
            code_of(tell(alloc, inputs, &fault, text, &mut sizes.text))
        }
    }
}
