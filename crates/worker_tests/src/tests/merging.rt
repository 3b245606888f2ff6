//! Merging the lists of a capture's connections: whatever their order, one capture, in order of key.
ghost use Rattle.std.specs.Prelude.{◌≡◌, All, IfOk, length};
ghost use Rattle.conn_table.specs.Tables.{table_in};
ghost use Rattle.segment_writer.specs.KeyLaws.{HasNoKeyTwice};
ghost use Rattle.segment_writer.specs.WrittenSegments.{sorted_by_key};
ghost use Rattle.time_merge.specs.MergedCapture.{all_segments};

use super::checks::check;
use super::joining::nothing_written;
use conn_table::laws::tables_agree;
use conn_table::{Partial, Table, finish};
use pcap_records::{Capture, Moment, Unit, read_capture};
use reassembly::laws::conns_are_of_capture;
use reassembly::lines;
use segment_writer::laws::{keys_rise, keys_stand_once, once_in_any_order, rising_is_sorted};
use segment_writer::{SegList, segments};
use std::alloc::{AllocError, Global};
use std::process::Abort;
use time_merge::merge;
use toxic_defs::delivered_by;
use worked_sessions::sessions::{
    ACK, CLIENT, PSH, RecordedSegment, SECOND_CLIENT, SERVER, SYN, file, segment, session,
};
use worked_sessions::written_frames::session_written;

fn whole(alloc: Global, capture: &Capture<'_>) -> Result<Table, AllocError>
    ensures { IfOk result (λ table. table ≡ table_in capture.now 0 (length capture.now.records) 0) }
{
    tables_agree();
    let count = capture.records().len();
    let records = Partial::of_range(alloc, capture, 0, count, Moment::first())?;
    finish(alloc, records)
}

// What is written of each connection of a capture.
pub(super) fn written(
    rt: &impl Abort,
    alloc: Global,
    capture: &Capture<'_>,
) -> Result<Vec<SegList>, AllocError>
    ensures sorted { IfOk result (λ lists. All (λ list. sorted_by_key list ≡ list) lists.items) }
    ensures once { IfOk result (λ lists. HasNoKeyTwice (all_segments lists.items)) }
{
    conns_are_of_capture();
    keys_rise();
    rising_is_sorted();
    keys_stand_once();
    let table = whole(alloc, capture)?;
    let mut lists = Vec::new(alloc);
    for (number, conn) in table.conns().iter().enumerate() {
        assert_eq!(rt; conn.number as usize, number);
        let recorded = lines(alloc, conn, capture)?;
        let delivered = delivered_by(alloc, &recorded, None, 0, 0, conn.number)?;
        lists.push(segments(alloc, conn, &recorded, delivered)?)?;
    }
    Ok(lists)
}

// The same lists, the last one first.
fn backwards(mut lists: Vec<SegList>) -> Vec<SegList>
    requires sorted { All (λ list. sorted_by_key list ≡ list) lists.items }
    requires once { HasNoKeyTwice (all_segments lists.items) }
    ensures sorted { All (λ list. sorted_by_key list ≡ list) result.items }
    ensures once { HasNoKeyTwice (all_segments result.items) }
{
    once_in_any_order();
    lists.reverse();
    lists
}

// The same lists, and an empty one after them.
#[tactic(auto, unfolding(segment_writer::specs::WrittenSegments::sorted_by_key))]
fn before_an_empty_one(
    rt: &impl Abort,
    alloc: Global,
    mut lists: Vec<SegList>,
) -> Result<Vec<SegList>, AllocError>
    requires sorted { All (λ list. sorted_by_key list ≡ list) lists.items }
    requires once { HasNoKeyTwice (all_segments lists.items) }
    ensures sorted { IfOk result (λ all. All (λ list. sorted_by_key list ≡ list) all.items) }
    ensures once { IfOk result (λ all. HasNoKeyTwice (all_segments all.items)) }
{
    lists.push(nothing_written(rt, alloc))?;
    Ok(lists)
}

// The same lists, between two empty ones.
fn among_empty_ones(
    rt: &impl Abort,
    alloc: Global,
    lists: Vec<SegList>,
) -> Result<Vec<SegList>, AllocError>
    requires sorted { All (λ list. sorted_by_key list ≡ list) lists.items }
    requires once { HasNoKeyTwice (all_segments lists.items) }
    ensures sorted { IfOk result (λ all. All (λ list. sorted_by_key list ≡ list) all.items) }
    ensures once { IfOk result (λ all. HasNoKeyTwice (all_segments all.items)) }
{
    let lists = before_an_empty_one(rt, alloc, backwards(lists))?;
    before_an_empty_one(rt, alloc, backwards(lists))
}

fn captured(alloc: Global, lists: Vec<SegList>) -> Result<Vec<u8>, AllocError>
    requires sorted { All (λ list. sorted_by_key list ≡ list) lists.items }
    requires once { HasNoKeyTwice (all_segments lists.items) }
{
    merge(alloc, lists)?.capture(alloc, Unit::Micros)
}

// The capture of what is written of these recorded segments: the same whichever list comes first, and among empty lists.
fn merged(rt: &impl Abort, alloc: Global, segments: &[RecordedSegment<'_>]) -> Vec<u8> {
    let bytes = file(alloc, true, segments).expect(rt, "memory");
    let capture = read_capture(alloc, &bytes).expect(rt, "a capture");
    let lists = written(rt, alloc, &capture).expect(rt, "memory");
    let in_turn = captured(alloc, lists).expect(rt, "memory");
    let lists = written(rt, alloc, &capture).expect(rt, "memory");
    let turned = captured(alloc, backwards(lists)).expect(rt, "memory");
    check(rt, "turned", turned.as_slice() == in_turn.as_slice());
    let lists = written(rt, alloc, &capture).expect(rt, "memory");
    let lists = among_empty_ones(rt, alloc, lists).expect(rt, "memory");
    let spaced = captured(alloc, lists).expect(rt, "memory");
    check(rt, "spaced", spaced.as_slice() == in_turn.as_slice());
    in_turn
}

// A frame as a test wants it: its stamp, the last byte of its sender's address, its flags and the length of its payload.
pub(super) type ExpectedFrame = (u64, u8, u8, usize);

// Whether a packet, stamped so, is this frame.
fn is_frame(micros: u64, packet: &[u8], expected: &ExpectedFrame) -> bool {
    let (at, sender, flags, len) = expected;
    micros == *at
        && packet.get(29) == Some(sender)
        && packet.get(47) == Some(flags)
        && packet.len() == len.saturating_add(54)
}

// That the frames of a capture are these.
pub(super) fn check_frames(
    rt: &impl Abort,
    alloc: Global,
    bytes: &[u8],
    expected: &[ExpectedFrame],
) {
    let capture = read_capture(alloc, bytes).expect(rt, "a capture");
    let mut right = capture.records().len() == expected.len();
    for ((place, record), expected) in capture.records().iter().enumerate().zip(expected) {
        right = right && is_frame(record.stamp.count(), capture.packet(place), expected);
    }
    check(rt, "frames", right);
}

#[test]
fn nothing_to_merge(rt: HostRuntime) {
    let stated = [
        0xd4, 0xc3, 0xb2, 0xa1, 2, 0, 4, 0, 0, 0, 0, 0, 0, 0, 0, 0, 0xff, 0xff, 0, 0, 1, 0, 0, 0,
    ];
    let none = captured(rt.alloc(), Vec::new(rt.alloc())).expect(&rt, "memory");
    check(&rt, "no list", none.as_slice() == stated.as_slice());
    let two = among_empty_ones(&rt, rt.alloc(), Vec::new(rt.alloc())).expect(&rt, "memory");
    let three = before_an_empty_one(&rt, rt.alloc(), two).expect(&rt, "memory");
    let of_empty_ones = captured(rt.alloc(), three).expect(&rt, "memory");
    let same = of_empty_ones.as_slice() == stated.as_slice();
    check(&rt, "empty lists", same);
}

#[test]
fn the_plain_session(rt: HostRuntime) {
    let written = merged(&rt, rt.alloc(), &session());
    let expected = session_written(rt.alloc()).expect(&rt, "memory");
    let same = written.as_slice() == expected.as_slice();
    check(&rt, "449 bytes", same && written.len() == 449);
}

// At one instant the client's line comes before the server's, and the pieces of a chunk in turn.
#[test]
fn turns_and_places_at_one_instant(rt: HostRuntime) {
    let chunk = [7u8; 1461];
    let segments = [
        segment((1, 0), CLIENT, SERVER, SYN, (1000, 0), b""),
        segment((1, 0), SERVER, CLIENT, SYN + ACK, (5000, 1001), b""),
        segment((1, 0), SECOND_CLIENT, SERVER, SYN, (2000, 0), b""),
        segment((1, 0), SERVER, CLIENT, PSH + ACK, (5001, 1001), b"bc"),
        segment((1, 0), CLIENT, SERVER, PSH + ACK, (1001, 5001), &chunk),
        segment((2, 0), SECOND_CLIENT, SERVER, PSH + ACK, (2001, 1), b"d"),
        segment((2, 0), SERVER, CLIENT, PSH + ACK, (5003, 2462), b"e"),
    ];
    let bytes = merged(&rt, rt.alloc(), &segments);
    let (first, second) = (1_000_000, 2_000_000);
    let expected = [
        (first, 1, SYN, 0),
        (first, 2, SYN + ACK, 0),
        (first, 1, ACK, 0),
        (first, 1, ACK, 1460),
        (first, 1, PSH + ACK, 1),
        (first, 2, PSH + ACK, 2),
        (first, 3, SYN, 0),
        (first, 2, SYN + ACK, 0),
        (first, 3, ACK, 0),
        (second, 2, PSH + ACK, 1),
        (second, 3, PSH + ACK, 1),
    ];
    check_frames(&rt, rt.alloc(), &bytes, &expected);
}
