//! Pieces of a line, and cursors over its parts.
ghost use Rattle.std.specs.Prelude.{◌≡◌, ◌≤◌, ◌<◌, ◌+◌, ◌++◌, ◌∷◌, length, drop, take, OnOk};
ghost use Rattle.frame_headers.specs.Layout.{payload_limit};
ghost use Rattle.reassembly.specs.LineView.{bytes_of_parts};
ghost use Rattle.segment_writer.specs.WrittenSegments.{is_chunk_border};
ghost use Rattle.segment_writer.specs.FirstPieces.{piece_size, values};
ghost use Rattle.segment_writer.specs.LineCursors.{left_at, goes_on, IsCursor, IsPassed};

use frame_headers::PAYLOAD_LIMIT;
use reassembly::LinePart;
use std::alloc::AllocError;

/// A byte of a line: the number of parts before it, and of bytes before it in its own part.
#[derive(Clone, Copy, Debug)]
pub(crate) struct Cursor {
    pub part: usize,
    pub offset: usize,
}

pub(crate) fn part_at<'a>(parts: &[LinePart<'a>], i: usize) -> LinePart<'a>
    requires { i < length parts.now }
    ensures { drop i parts.now ≡ result ∷ drop (i + 1) parts.now }
{
    let part = &parts[i];
    LinePart {
        at: part.at,
        starts: part.starts,
        bytes: part.bytes,
    }
}

/// The index of the first part from `from` on that has bytes, or the number of parts.
pub(crate) fn next_filled(parts: &[LinePart<'_>], from: usize) -> usize
    requires { from ≤ length parts.now }
    ensures cursor { IsCursor parts.now (record { part = result; offset = 0 }) }
    ensures left { bytes_of_parts (drop result parts.now) ≡ bytes_of_parts (drop from parts.now) }
{
    let mut next = from;
    while next < parts.len() && part_at(parts, next).bytes.is_empty() {
        next += 1;
    }
    next
}

// Whether no chunk starts with a part's bytes.
fn goes_on(part: &LinePart<'_>) -> bool
    ensures { result ≡ goes_on part.now }
{
    !part.starts || part.bytes.is_empty()
}

/// The length of the piece that begins at a cursor.
pub(crate) fn piece_len(parts: &[LinePart<'_>], from: Cursor) -> usize
    requires cursor { IsCursor parts.now from }
    requires before { from.part < length parts.now }
    ensures { result ≡ piece_size payload_limit (left_at parts.now from) }
{
    let mut len = part_at(parts, from.part).bytes.len() - from.offset;
    let mut next = from.part + 1;
    while len < PAYLOAD_LIMIT && next < parts.len() && goes_on(&part_at(parts, next)) {
        len += part_at(parts, next).bytes.len();
        next += 1;
    }
    len.min(PAYLOAD_LIMIT)
}

/// Whether a chunk ends before a cursor.
pub(crate) fn is_border(parts: &[LinePart<'_>], from: Cursor) -> bool
    requires { IsCursor parts.now from }
    ensures { result ≡ is_chunk_border (left_at parts.now from) }
{
    from.part == parts.len() || (from.offset == 0 && part_at(parts, from.part).starts)
}

// Bytes of one part from a cursor on, at most `most`, and the cursor after them.
fn next_bytes<'a>(parts: &[LinePart<'a>], from: Cursor, most: usize) -> (&'a [u8], Cursor)
    requires cursor { IsCursor parts.now from }
    requires some { 0 < most }
    requires within { most ≤ length (left_at parts.now from) }
    ensures some { 0 < length result.0.now }
    ensures most { length result.0.now ≤ most }
    ensures passed { IsPassed parts.now from result.0.now result.1 }
{
    let bytes = &part_at(parts, from.part).bytes[from.offset..];
    if most < bytes.len() {
        let offset = from.offset + most;
        return (&bytes[..most], Cursor { offset, ..from });
    }
    let part = next_filled(parts, from.part + 1);
    (bytes, Cursor { part, offset: 0 })
}

/// The cursor `len` bytes after another.
pub(crate) fn skip_piece(parts: &[LinePart<'_>], from: Cursor, len: usize) -> Cursor
    requires cursor { IsCursor parts.now from }
    requires within { len ≤ length (left_at parts.now from) }
    ensures cursor { IsCursor parts.now result }
    ensures left { left_at parts.now result ≡ drop len (left_at parts.now from) }
{
    let mut here = from;
    let mut left = len;
    while left > 0 {
        let (bytes, after) = next_bytes(parts, here, left);
        left -= bytes.len();
        here = after;
    }
    here
}

/// Appends `len` bytes from a cursor on.
pub(crate) fn copy_piece(
    out: &mut Vec<u8>,
    parts: &[LinePart<'_>],
    from: Cursor,
    len: usize,
) -> Result<(), AllocError>
    requires cursor { IsCursor parts.now from }
    requires within { len ≤ length (left_at parts.now from) }
    ensures bytes { OnOk result (out.new.items ≡ out.old.items ++ values (take len (left_at parts.now from))) }
{
    let mut here = from;
    let mut left = len;
    while left > 0 {
        let (bytes, after) = next_bytes(parts, here, left);
        out.extend_from_slice(bytes)?;
        left -= bytes.len();
        here = after;
    }
    Ok(())
}
