//! What is put into the buffers of a caller.
ghost use Rattle.std.specs.Prelude.{◌≡◌, ℕ, List, [], ◌+◌, ◌≤◌, ◌++◌, drop, length, take};
ghost use Rattle.std.specs.List.{flat_map};
ghost use Rattle.laid_lines.specs.RecordedLines.{flat_view};
ghost use Rattle.run_files.specs.WrittenOutputs.{reports_of};
ghost use Rattle.toxicap_c.specs.Buffers.{Puts, PutsText, buffers, captures_of, effect_sizes, put_of_counts, laid_over, lens_of, lines_sizes, output_sizes, put_of, put_of_lines, put_of_reports, sizes_by};

use crate::sizes::{ToxicapEffectSizes, ToxicapLinesSizes, ToxicapSizes, effect_sizes, no_sizes};
use laid_lines::{LaidLines, ToxicapChunk, ToxicapConnection};
use run_files::Output;

/// Puts a text over the first bytes of a buffer if it fits, and returns whether it does.
pub(crate) fn put_text(text: &[u8], buffer: &mut [u8]) -> bool
    ensures { PutsText text.now result buffer.old buffer.new }
{
    if text.len() > buffer.len() {
        return false;
    }
    put_at(buffer, 0, text);
    true
}

/// The same of reports, with their sizes.
pub(crate) fn put_reports(text: &[u8], reports: &mut [u8], sizes: &mut ToxicapSizes) -> bool
    ensures { Puts output_sizes (put_of_reports text.now) result (buffers [] reports.old []) (buffers [] reports.new []) sizes.new }
{
    *sizes = ToxicapSizes {
        reports: text.len(),
        ..no_sizes()
    };
    put_text(text, reports)
}

/// Puts outputs of these sizes over the first entries of the buffers if all fit, and returns whether they do.
pub(crate) fn put_outputs(
    outputs: &[Output],
    expected: ToxicapSizes,
    captures: &mut [u8],
    reports: &mut [u8],
    lens: &mut [usize],
    sizes: &mut ToxicapSizes,
) -> bool
    requires { expected ≡ sizes_by output_sizes (put_of outputs.now) }
    ensures { Puts output_sizes (put_of outputs.now) result (buffers captures.old reports.old lens.old) (buffers captures.new reports.new lens.new) sizes.new }
{
    *sizes = expected;
    if expected.captures > captures.len() {
        return false;
    }
    if expected.reports > reports.len() || expected.lens > lens.len() {
        return false;
    }
    put_each(outputs, captures, reports, lens);
    true
}

fn put_each(outputs: &[Output], captures: &mut [u8], reports: &mut [u8], lens: &mut [usize])
    requires captures { length (captures_of outputs.now) ≤ length captures.old }
    requires reports { length (reports_of outputs.now) ≤ length reports.old }
    requires lens { length (lens_of outputs.now) ≤ length lens.old }
    ensures captures { captures.new ≡ laid_over (captures_of outputs.now) captures.old }
    ensures reports { reports.new ≡ laid_over (reports_of outputs.now) reports.old }
    ensures lens { lens.new ≡ laid_over (lens_of outputs.now) lens.old }
{
    let mut at = no_sizes();
    for output in outputs {
        let capture = output.capture.as_slice();
        let report = output.report.as_slice();
        put_at(captures, at.captures, capture);
        put_at(reports, at.reports, report);
        put_at(lens, at.lens, &[capture.len(), report.len()]);
        at.captures += capture.len();
        at.reports += report.len();
        at.lens += 2;
    }
}

/// The same of lines.
pub(crate) fn put_lines(
    lines: &LaidLines<'_>,
    expected: ToxicapLinesSizes,
    bytes: &mut [u8],
    chunks: &mut [ToxicapChunk],
    connections: &mut [ToxicapConnection],
    sizes: &mut ToxicapLinesSizes,
) -> bool
    requires { expected ≡ sizes_by lines_sizes (put_of_lines (flat_view lines.now)) }
    ensures { Puts lines_sizes (put_of_lines (flat_view lines.now)) result (buffers chunks.old bytes.old connections.old)
        (buffers chunks.new bytes.new connections.new) sizes.new }
{
    *sizes = expected;
    if expected.bytes > bytes.len() {
        return false;
    }
    if expected.chunks > chunks.len() || expected.connections > connections.len() {
        return false;
    }
    put_pieces(bytes, &lines.pieces);
    put_at(chunks, 0, &lines.chunks);
    put_at(connections, 0, &lines.connections);
    true
}

/// The same of counts.
pub(crate) fn put_counts(found: &[u64], counts: &mut [u64], sizes: &mut ToxicapEffectSizes) -> bool
    ensures { (text : List ℕ) → Puts effect_sizes (put_of_counts found.now) result (buffers counts.old text []) (buffers counts.new text []) sizes.new }
{
    *sizes = effect_sizes(found.len(), 0);
    if found.len() > counts.len() {
        return false;
    }
    put_at(counts, 0, found);
    true
}

fn put_pieces(buffer: &mut [u8], pieces: &[&[u8]])
    requires { length (flat_map (λ p. p.now) pieces.now) ≤ length buffer.old }
    ensures { buffer.new ≡ laid_over (flat_map (λ p. p.now) pieces.now) buffer.old }
{
    let mut at = 0;
    for number in 0..pieces.len() {
        let piece = pieces[number];
        put_at(buffer, at, piece);
        at += piece.len();
    }
}

// Puts items over those of a buffer from a place on.
fn put_at<T: Copy>(buffer: &mut [T], at: usize, items: &[T])
    requires { at + length items.now ≤ length buffer.old }
    ensures { buffer.new ≡ take at buffer.old ++ (items.now ++ drop (at + length items.now) buffer.old) }
{
    buffer[at..at + items.len()].copy_from_slice(items);
}
