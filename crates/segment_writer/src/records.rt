//! Outlines of single segments, and the records that are written of them.
ghost use Rattle.std.specs.Prelude.{◌≡◌, ◌≤◌, ◌<◌, ◌+◌, ◌++◌, List, length, drop, take, replicate, min, vec_len, vec_capacity, IfOk, IsOk, OnOk, OnErr, if◌then◌else◌};
ghost use Rattle.pcap_records.specs.Instants.{horizon, ticks_of};
ghost use Rattle.pcap_records.specs.Reading.{record_header_len};
ghost use Rattle.pcap_records.specs.Writing.{record_bytes, record_header};
ghost use Rattle.frame_headers.specs.Flags.{psh_flag, ack_flag};
ghost use Rattle.frame_headers.specs.Headers.{headers};
ghost use Rattle.frame_headers.specs.Layout.{headers_len, payload_limit};
ghost use Rattle.reassembly.specs.declared.line_parts.LinePart.{LinePart};
ghost use Rattle.segment_writer.specs.WrittenSegments.{opening_segment};
ghost use Rattle.segment_writer.specs.FirstPieces.{first_instant, first_of, piece_size};
ghost use Rattle.segment_writer.specs.LineCursors.{left_at, IsCursor};
ghost use Rattle.segment_writer.specs.Senders.{frame_with, framed_by, piece_segment};
ghost use Rattle.segment_writer.specs.SegmentOutlines.{framed_of, IsOutline};

use crate::pieces::{Cursor, is_border, part_at, skip_piece};
use crate::segment_outline::SegmentOutline;
use crate::senders::{Numbers, Sender, key_at};
use frame_headers::{Flags, Header, LEAST_HEADERS_LEN, MOST_HEADERS_LEN, headers_len, put_headers};
use pcap_records::{Moment, RECORD_HEADER_LEN, Unit, record_header_bytes};
use reassembly::LinePart;
use std::alloc::AllocError;

// Appends the header of a record whose frame has `len` bytes of payload, and zeros for the headers of the frame. The result is the index of
// the frame.
fn open_record(
    out: &mut Vec<u8>,
    at: Moment,
    vlan: Option<u16>,
    len: usize,
    unit: Unit,
) -> Result<usize, AllocError>
    requires early { at < horizon (ticks_of unit) }
    requires small { len ≤ payload_limit }
    ensures frame { IfOk result (λ frame. frame ≡ length out.old.items + record_header_len) }
    ensures bytes { OnOk result (out.new.items ≡ out.old.items
        ++ (record_header (ticks_of unit) at (headers_len vlan + len) ++ replicate (headers_len vlan) 0)) }
    ensures succeeds { vec_len out.old + (record_header_len + headers_len vlan) ≤ vec_capacity out.old → IsOk result }
    ensures capacity { vec_capacity out.old ≤ vec_capacity out.new }
{
    let header = record_header_bytes(at, (headers_len(vlan) + len) as u32, unit);
    out.extend_from_slice(&header)?;
    let frame = out.len();
    match vlan {
        Some(_) => out.extend_from_slice(&[0; MOST_HEADERS_LEN])?,
        None => out.extend_from_slice(&[0; LEAST_HEADERS_LEN])?,
    }
    Ok(frame)
}

// ACK, and PSH if a chunk ends.
fn piece_flags(ends: bool) -> Flags
    ensures { result ≡ if ends then psh_flag + ack_flag else ack_flag }
{
    if ends {
        Flags::PSH.with(Flags::ACK)
    } else {
        Flags::ACK
    }
}

pub(crate) fn bare_outline(
    sender: &Sender,
    at: Moment,
    numbers: Numbers,
    flags: Flags,
) -> SegmentOutline
    requires { at < horizon (ticks_of sender.now.unit) }
    ensures framed { (own : List LinePart) → framed_of sender.now own result
        ≡ framed_by sender.now (numbers.place, opening_segment at numbers.seq numbers.ack flags) }
    ensures outline { (own : List LinePart) → IsOutline sender.now own result }
{
    SegmentOutline {
        key: key_at(sender, at, numbers.place),
        is_server: sender.is_server,
        flags,
        seq: numbers.seq,
        ack: numbers.ack,
        from: Cursor { part: 0, offset: 0 },
        len: 0,
    }
}

/// The segment of the piece of `len` bytes that begins at a cursor, and the cursor after it.
pub(crate) fn piece_outline(
    sender: &Sender,
    own: &[LinePart<'_>],
    from: Cursor,
    len: usize,
    numbers: Numbers,
) -> (SegmentOutline, Cursor)
    requires cursor { IsCursor own.now from }
    requires before { from.part < length own.now }
    requires len { len ≡ piece_size payload_limit (left_at own.now from) }
    requires early { first_instant (left_at own.now from) < horizon (ticks_of sender.now.unit) }
    ensures framed { framed_of sender.now own.now result.0
        ≡ framed_by sender.now
        (numbers.place, piece_segment numbers.seq numbers.ack (first_of payload_limit (left_at own.now from))) }
    ensures outline { IsOutline sender.now own.now result.0 }
    ensures cursor { IsCursor own.now result.1 }
    ensures left { left_at own.now result.1 ≡ drop len (left_at own.now from) }
{
    let at = part_at(own, from.part).at;
    let after = skip_piece(own, from, len);
    let outline = SegmentOutline {
        key: key_at(sender, at, numbers.place),
        is_server: sender.is_server,
        flags: piece_flags(is_border(own, after)),
        seq: numbers.seq,
        ack: numbers.ack,
        from,
        len,
    };
    (outline, after)
}

/// The length of a record whose frame has `len` bytes of payload, or `usize::MAX` if it is more.
pub(crate) fn record_len(vlan: Option<u16>, len: usize) -> usize
    ensures { result ≡ min (record_header_len + headers_len vlan + len) usize.MAX }
{
    (RECORD_HEADER_LEN + headers_len(vlan)).saturating_add(len)
}

/// Appends the record of a segment. Room for all of it is made first, so that an error leaves `out` unchanged.
pub(crate) fn put_record(
    out: &mut Vec<u8>,
    unit: Unit,
    at: Moment,
    header: &Header,
    payload: &[u8],
) -> Result<(), AllocError>
    requires early { at < horizon (ticks_of unit) }
    requires small { length payload.now ≤ payload_limit }
    ensures ok { OnOk result (out.new.items ≡ out.old.items ++ record_bytes (ticks_of unit) at (frame_with header.now payload.now)) }
    ensures err { OnErr result (out.new.items ≡ out.old.items) }
{
    out.reserve(record_len(header.vlan, payload.len()))?;
    let frame = open_record(out, at, header.vlan, payload.len(), unit)?;
    out.extend_from_slice(payload)?;
    put_headers(&mut out[frame..], header);
    Ok(())
}
