//! How much of each buffer is written, or needed.
ghost use Rattle.std.specs.Prelude.{◌≡◌, IfSome, length};
ghost use Rattle.std.specs.List.{flat_map};
ghost use Rattle.laid_lines.specs.RecordedLines.{flat_view};
ghost use Rattle.toxicap_c.specs.Buffers.{effect_sizes, lines_sizes, output_sizes, put_of, put_of_lines, sizes_by};

use laid_lines::LaidLines;
use run_files::Output;

/// How much of each buffer a call wrote, or needs if it found too little room.
#[repr(C)]
#[derive(Clone, Copy, Debug, PartialEq, Eq)]
pub struct ToxicapSizes {
    /// Bytes of captures.
    pub captures: usize,
    /// Bytes of reports, or of the text of a refusal.
    pub reports: usize,
    /// Entries of lengths: two for each scenario.
    pub lens: usize,
}

/// The same of a call for lines.
#[repr(C)]
#[derive(Clone, Copy, Debug, PartialEq, Eq)]
pub struct ToxicapLinesSizes {
    /// Bytes, or those of the text of a refusal.
    pub bytes: usize,
    /// Entries of chunks.
    pub chunks: usize,
    /// Entries of connections.
    pub connections: usize,
}

/// The same of a call for effects.
#[repr(C)]
#[derive(Clone, Copy, Debug, PartialEq, Eq)]
pub struct ToxicapEffectSizes {
    /// Entries of counts.
    pub counts: usize,
    /// Bytes of the text of a refusal.
    pub text: usize,
}

pub(crate) fn effect_sizes(counts: usize, text: usize) -> ToxicapEffectSizes
    ensures { result ≡ effect_sizes counts text 0 }
{
    ToxicapEffectSizes { counts, text }
}

pub(crate) fn no_sizes() -> ToxicapSizes
    ensures { result ≡ output_sizes 0 0 0 }
{
    ToxicapSizes {
        captures: 0,
        reports: 0,
        lens: 0,
    }
}

/// The sizes of outputs, or `None` if one of them is 2^64 or more.
pub(crate) fn sizes_of(outputs: &[Output]) -> Option<ToxicapSizes>
    ensures { IfSome result (λ sizes. sizes ≡ sizes_by output_sizes (put_of outputs.now)) }
{
    let mut sizes = no_sizes();
    for output in outputs {
        sizes.captures = sizes.captures.checked_add(output.capture.as_slice().len())?;
        sizes.reports = sizes.reports.checked_add(output.report.as_slice().len())?;
        sizes.lens = sizes.lens.checked_add(2)?;
    }
    Some(sizes)
}

pub(crate) fn no_lines_sizes() -> ToxicapLinesSizes
    ensures { result ≡ lines_sizes 0 0 0 }
{
    ToxicapLinesSizes {
        bytes: 0,
        chunks: 0,
        connections: 0,
    }
}

/// The sizes of lines, or `None` if they have 2^64 bytes or more.
pub(crate) fn lines_sizes_of(lines: &LaidLines<'_>) -> Option<ToxicapLinesSizes>
    ensures { IfSome result (λ sizes. sizes ≡ sizes_by lines_sizes (put_of_lines (flat_view lines.now))) }
{
    Some(ToxicapLinesSizes {
        bytes: len_of(&lines.pieces)?,
        chunks: lines.chunks.len(),
        connections: lines.connections.len(),
    })
}

fn len_of(pieces: &[&[u8]]) -> Option<usize>
    ensures { IfSome result (λ len. len ≡ length (flat_map (λ p. p.now) pieces.now)) }
{
    let mut len = 0usize;
    for piece in pieces {
        len = len.checked_add(piece.len())?;
    }
    Some(len)
}
