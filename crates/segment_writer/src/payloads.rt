//! Payloads of segments in a row: lent by the capture, or gathered of several of its slices.
ghost use Rattle.std.specs.Prelude.{◌≡◌, ◌≤◌, ◌<◌, ◌++◌, ℕ, IfOk, length, take};
ghost use Rattle.segment_writer.specs.FirstPieces.{values};
ghost use Rattle.segment_writer.specs.LineCursors.{left_at, IsCursor};
ghost use Rattle.segment_writer.specs.SegmentOutlines.{outlined_payload};
ghost use Rattle.segment_writer.specs.SegmentRows.{gathered_for, payload_in, IsHeld};

use crate::pieces::{Cursor, copy_piece, part_at};
use crate::segment_outline::SegmentOutline;
use reassembly::LinePart;
use std::alloc::AllocError;

#[derive(Clone, Copy, Debug)]
pub(crate) enum Payload<'a> {
    /// Bytes of one slice of the capture.
    Lent(&'a [u8]),
    /// `len` bytes of several slices, gathered beside the row after `start` others.
    Gathered { start: usize, len: usize },
}

pub(crate) fn payload_bytes<'p>(gathered: &'p [u8], payload: &Payload<'p>) -> &'p [u8]
    requires { IsHeld gathered.now payload.now }
    ensures { result.now ≡ payload_in gathered.now payload.now }
{
    match payload {
        Payload::Lent(bytes) => bytes,
        Payload::Gathered { start, len } => &gathered[*start..*start + *len],
    }
}

/// The payload of an outline over the parts of its sender's line. It is gathered if no part has all of it.
pub(crate) fn payload_of<'a>(
    gathered: &mut Vec<u8>,
    own: &[LinePart<'a>],
    outline: &SegmentOutline,
) -> Result<Payload<'a>, AllocError>
    requires within { outline.now.len ≤ length (left_at own.now outline.now.from) }
    requires cursor { 0 < outline.now.len → IsCursor own.now outline.now.from }
    ensures payload { IfOk result (λ p. payload_in gathered.new.items p ≡ outlined_payload own.now outline.now) }
    ensures held { IfOk result (λ p. IsHeld gathered.new.items p) }
    ensures gathered { IfOk result (λ p. gathered.new.items ≡ gathered.old.items ++ gathered_for (outlined_payload own.now outline.now) p) }
{
    if outline.len == 0 {
        return Ok(Payload::Lent(&[]));
    }
    let bytes = first_bytes(own, outline.from);
    if outline.len <= bytes.len() {
        return Ok(Payload::Lent(&bytes[..outline.len]));
    }
    let start = gathered.len();
    copy_piece(gathered, own, outline.from, outline.len)?;
    Ok(Payload::Gathered {
        start,
        len: outline.len,
    })
}

// The bytes of a cursor's part from the cursor on.
fn first_bytes<'a>(own: &[LinePart<'a>], from: Cursor) -> &'a [u8]
    requires cursor { IsCursor own.now from }
    requires some { 0 < length (left_at own.now from) }
    ensures { (n : ℕ) → n ≤ length result.now → values (take n (left_at own.now from)) ≡ take n result.now }
{
    &part_at(own, from.part).bytes[from.offset..]
}
