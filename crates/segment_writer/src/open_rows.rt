//! Rows of written segments whose fields are open, and how segments are put into them.
ghost use Rattle.std.specs.Prelude.{◌≡◌, ◌<◌, ◌++◌, [], ◌∷◌, ℕ, List, IfOk, OnOk};
ghost use Rattle.pcap_records.specs.Instants.{horizon, ticks_of};
ghost use Rattle.reassembly.specs.declared.line_parts.LinePart.{LinePart};
ghost use Rattle.segment_writer.specs.SegmentOutlines.{framed_of, outlined_payload, side_sender, IsOutline};
ghost use Rattle.segment_writer.specs.SegmentRows.{framed_at, payload_in, IsHeld, IsInRow};
ghost use Rattle.segment_writer.specs.OpenRows.{written_in, IsLonger, IsRow, IsSideOf};
ghost use Rattle.segment_writer.specs.Senders.{framed_by};
ghost use Rattle.segment_writer.specs.WrittenSegments.{opening_segment};

use crate::framed::{Framed, SegList};
use crate::payloads::{Payload, payload_of};
use crate::records::bare_outline;
use crate::row_segments::RowSegment;
use crate::segment_outline::SegmentOutline;
use crate::senders::{Numbers, Sender};
use frame_headers::Flags;
use pcap_records::{Moment, Values};
use reassembly::LinePart;
use std::alloc::{AllocError, Global};

/// A row of written segments that is put together.
#[derive(Debug, Drop)]
pub(crate) struct OpenRow<'w, 'a> {
    /// The payloads that no single slice of the capture has.
    pub(crate) gathered: Vec<u8>,
    pub(crate) segments: Vec<RowSegment<'w, 'a>>,
}

impl<'w, 'a> OpenRow<'w, 'a> {
    ghost use Rattle.std.specs.Prelude.{◌≡◌, [], IfOk, length, min};
    ghost use Rattle.std.specs.List.{flat_map};
    ghost use Rattle.segment_writer.specs.OpenRows.{written_in, IsRow};

    /// A row without segments, with room for `room` of them.
    pub(crate) fn with_room(alloc: Global, room: usize) -> Result<OpenRow<'w, 'a>, AllocError>
        ensures { IfOk result (λ row. (written_in row ≡ []) × IsRow row) }
    {
        Ok(OpenRow {
            gathered: Vec::new(alloc),
            segments: Vec::with_capacity(alloc, room)?,
        })
    }

    /// The segments, each with its record.
    pub(crate) fn written(&self, alloc: Global) -> Result<SegList, AllocError>
        requires { IsRow self.now }
        ensures { IfOk result (λ list. list ≡ written_in self.now) }
    {
        let mut list = Vec::with_capacity(alloc, self.segments.len())?;
        for segment in &self.segments {
            let mut bytes = Vec::with_capacity(alloc, segment.record_len(&self.gathered))?;
            segment.put(&self.gathered, &mut bytes)?;
            list.push(Framed {
                key: segment.key(),
                bytes: Values::of(bytes),
            })?;
        }
        Ok(SegList::of(list))
    }

    /// The number of bytes of all records, or `usize::MAX` if it is more.
    pub(crate) fn written_len(&self) -> usize
        requires { IsRow self.now }
        ensures { result ≡ min (length (flat_map (λ x. x.bytes) (written_in self.now))) usize.MAX }
    {
        let mut len = 0usize;
        for segment in &self.segments {
            len = len.saturating_add(segment.record_len(&self.gathered));
        }
        len
    }
}

// The most segments without payload of a connection: the opening, and the end of each line.
const BARE_SEGMENTS: usize = 5;

// The most segments with payload that room is made for at once: many parts of a line at one instant are few segments.
const ROOM_LIMIT: usize = 1024;

/// Makes room for the segments of a connection whose lines have `parts` parts.
pub(crate) fn make_room(row: &mut OpenRow<'_, '_>, parts: usize) -> Result<(), AllocError>
    ensures gathered { row.new.gathered ≡ row.old.gathered }
    ensures segments { row.new.segments.items ≡ row.old.segments.items }
{
    row.segments.reserve(parts.min(ROOM_LIMIT) + BARE_SEGMENTS)
}

/// Puts the segment of an outline after the others. Its sender is `client`, or the client's server.
#[inline(always)]
pub(crate) fn put_segment<'w, 'a>(
    row: &mut OpenRow<'w, 'a>,
    client: &'w Sender,
    own: &[LinePart<'a>],
    outline: &SegmentOutline,
) -> Result<(), AllocError>
    requires outline { IsOutline (side_sender client.now outline.now.is_server) own.now outline.now }
    requires row { IsRow row.old }
    ensures { OnOk result (IsLonger row.old (framed_of (side_sender client.now outline.now.is_server) own.now outline.now ∷ []) row.new) }
{
    let payload = payload_of(&mut row.gathered, own, outline)?;
    let segment = segment_in_row(client, outline, payload);
    row.segments.extend_from_slice(&[segment])?;
    Ok(())
}

/// Puts a segment without payload after the others.
pub(crate) fn put_bare<'w>(
    row: &mut OpenRow<'w, '_>,
    client: &'w Sender,
    sender: &Sender,
    at: Moment,
    numbers: Numbers,
    flags: Flags,
) -> Result<(), AllocError>
    requires early { at < horizon (ticks_of sender.now.unit) }
    requires side { IsSideOf client.now sender.now }
    requires row { IsRow row.old }
    ensures { OnOk result (IsLonger row.old
        (framed_by sender.now (numbers.place, opening_segment at numbers.seq numbers.ack flags) ∷ []) row.new) }
{
    let outline = bare_outline(sender, at, numbers, flags);
    put_segment(row, client, &[], &outline)
}

fn segment_in_row<'w, 'a>(
    client: &'w Sender,
    outline: &SegmentOutline,
    payload: Payload<'a>,
) -> RowSegment<'w, 'a>
    ensures framed { (own : List LinePart) (gathered : List ℕ)
        → IsOutline (side_sender client.now outline.now.is_server) own outline.now
        → payload_in gathered payload.entry ≡ outlined_payload own outline.now
        → framed_at gathered result ≡ framed_of (side_sender client.now outline.now.is_server) own outline.now }
    ensures row { (own : List LinePart) (gathered : List ℕ)
        → IsOutline (side_sender client.now outline.now.is_server) own outline.now
        → payload_in gathered payload.entry ≡ outlined_payload own outline.now
        → IsHeld gathered payload.entry
        → IsInRow gathered result }
{
    RowSegment {
        moment: outline.key.moment,
        payload,
        client,
        place: outline.key.place,
        seq: outline.seq,
        ack: outline.ack,
        turn: outline.key.turn,
        is_server: outline.is_server,
        flags: outline.flags,
    }
}
