//! The segments of a line, in one pass over its parts and those of the peer's line, which tell what is acknowledged (RFC 9293 section 3.4).
ghost use Rattle.std.specs.Prelude.{◌≡◌, ◌≤◌, ◌<◌, ◌+◌, ◌%◌, ◌||◌, true, false, ℕ, length, nat_lt, OnOk};
ghost use Rattle.pcap_records.specs.Instants.{horizon, ticks_of};
ghost use Rattle.reassembly.specs.LineView.{bytes_of_parts, line_of, end_view};
ghost use Rattle.reassembly.specs.RecordedLines.{live};
ghost use Rattle.reassembly.specs.Positions.{sequence_space};
ghost use Rattle.segment_writer.specs.WrittenSegments.{WrittenSide, end_numbers_before, end_segments};
ghost use Rattle.segment_writer.specs.TimelyLines.{Climbs, IsTimely};
ghost use Rattle.segment_writer.specs.LineCursors.{has_none, bytes_before, IsAcknowledged};
ghost use Rattle.segment_writer.specs.Senders.{ending_segments, line_written};
ghost use Rattle.segment_writer.specs.OpenRows.{IsLonger, IsRow, IsSideOf};

use crate::open_rows::{OpenRow, put_bare, put_segment};
use crate::pieces::{Cursor, next_filled, part_at, piece_len};
use crate::records::piece_outline;
use crate::senders::{Numbers, Sender};
use frame_headers::Flags;
use pcap_records::{Moment, Unit};
use reassembly::{End, LinePart};
use std::alloc::AllocError;

/// Puts the segments of the line `own`, which `client` or its server sends. `peer` is the opposite direction, used for acknowledgments.
/// Nothing is written at the horizon.
pub(crate) fn put_line<'w, 'a>(
    row: &mut OpenRow<'w, 'a>,
    client: &'w Sender,
    sender: &Sender,
    own: &[LinePart<'a>],
    own_end: &End,
    peer: &[LinePart<'_>],
    peer_end: &End,
) -> Result<(), AllocError>
    requires own { IsTimely (line_of own.now own_end.now) }
    requires peer { IsTimely (line_of peer.now peer_end.now) }
    requires side { IsSideOf client.now sender.now }
    requires row { IsRow row.old }
    ensures { OnOk result (IsLonger row.old
        (line_written sender.now (line_of own.now own_end.now) (line_of peer.now peer_end.now)) row.new) }
{
    let mut from = Cursor {
        part: next_filled(own, 0),
        offset: 0,
    };
    let mut acknowledged = Acknowledged { part: 0, bytes: 0 };
    let mut sent = 0u32;
    let mut place = 0u32;
    'pieces: while from.part < own.len() {
        let at = part_at(own, from.part).at;
        if is_late(at, sender.unit) {
            return Ok(());
        }
        acknowledged = acknowledge(peer, acknowledged, at);
        let numbers = numbers_at(sender, sent, acknowledged, peer_end, at, place);
        let len = piece_len(own, from);
        let (outline, after) = piece_outline(sender, own, from, len, numbers);
        put_segment(row, client, own, &outline)?;
        from = after;
        sent += len as u32;
        place += 1;
    }
    let Some(ending) = ending_of(own_end) else {
        return Ok(());
    };
    if is_late(ending.at, sender.unit) {
        return Ok(());
    }
    let all = acknowledge(peer, acknowledged, ending.at);
    let numbers = numbers_at(sender, sent, all, peer_end, ending.at, place);
    put_bare(row, client, sender, ending.at, numbers, ending.flags)
}

fn is_late(at: Moment, unit: Unit) -> bool
    ensures late { result ≡ true → horizon (ticks_of unit) ≤ at }
    ensures early { result ≡ false → at < horizon (ticks_of unit) }
{
    !at.is_before_horizon(unit)
}

// The numbers of a segment after `sent` bytes.
fn numbers_at(
    sender: &Sender,
    sent: u32,
    acknowledged: Acknowledged,
    peer_end: &End,
    at: Moment,
    place: u32,
) -> Numbers
    ensures seq { result.seq ≡ (sender.now.base + 1 + sent) % sequence_space }
    ensures ack { result.ack
        ≡ (sender.now.peer_base + 1 + acknowledged.bytes + end_numbers_before at (end_view peer_end.now)) % sequence_space }
    ensures place { result.place ≡ place }
{
    Numbers {
        seq: sequence_number(sender.base, sent),
        ack: acknowledgment(sender.peer_base, acknowledged.bytes, peer_end, at),
        place,
    }
}

// The number of parts of a line that were acknowledged, and of their bytes.
#[derive(Clone, Copy)]
struct Acknowledged {
    part: usize,
    bytes: u32,
}

// What is acknowledged of a line before `at`, counted on from an earlier instant.
fn acknowledge(parts: &[LinePart<'_>], acknowledged: Acknowledged, at: Moment) -> Acknowledged
    requires short { length (bytes_of_parts parts.now) < sequence_space }
    requires climbs { Climbs 0 (bytes_of_parts parts.now) live }
    requires acknowledged { IsAcknowledged parts.now acknowledged at }
    ensures acknowledged { IsAcknowledged parts.now result at }
    ensures all { result.bytes ≡ bytes_before at (bytes_of_parts parts.now) }
{
    let mut part = acknowledged.part;
    let mut bytes = acknowledged.bytes;
    while part < parts.len() && is_before(&part_at(parts, part), at) {
        bytes += part_at(parts, part).bytes.len() as u32;
        part += 1;
    }
    Acknowledged { part, bytes }
}

fn is_before(part: &LinePart<'_>, at: Moment) -> bool
    ensures { result ≡ (has_none part.now.bytes.now || nat_lt part.now.at at) }
{
    part.bytes.is_empty() || part.at.is_before(at)
}

// The sequence numbers that an end takes up before an instant.
fn end_numbers(end: &End, at: Moment) -> u32
    ensures { result ≡ end_numbers_before at (end_view end.now) }
{
    match end {
        End::Fin(ended) | End::Close(ended) => u32::from(ended.is_before(at)),
        End::Live | End::Reset(_) => 0,
    }
}

// The sequence number after `len` bytes.
fn sequence_number(base: u32, len: u32) -> u32
    ensures { result ≡ (base + 1 + len) % sequence_space }
{
    base.wrapping_add(1).wrapping_add(len)
}

// The number that acknowledges `bytes` bytes, and the end if it was before an instant.
fn acknowledgment(base: u32, bytes: u32, end: &End, at: Moment) -> u32
    ensures { result ≡ (base + 1 + bytes + end_numbers_before at (end_view end.now)) % sequence_space }
{
    sequence_number(base, bytes).wrapping_add(end_numbers(end, at))
}

#[derive(Clone, Copy)]
struct Ending {
    at: Moment,
    flags: Flags,
}

// FIN for a FIN and a close, RST for a reset.
fn ending_of(end: &End) -> Option<Ending>
    ensures { (own peer : WrittenSide) (n : ℕ) → end_segments own peer n (end_view end.now)
        ≡ ending_segments own peer n result }
{
    match end {
        End::Live => None,
        End::Fin(at) | End::Close(at) => Some(Ending {
            at: *at,
            flags: Flags::FIN.with(Flags::ACK),
        }),
        End::Reset(at) => Some(Ending {
            at: *at,
            flags: Flags::RST.with(Flags::ACK),
        }),
    }
}
