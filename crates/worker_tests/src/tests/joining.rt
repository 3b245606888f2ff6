//! Joining the lists of two connections: whichever comes first, their segments in order of key.
ghost use Rattle.std.specs.Prelude.{◌≡◌, [], All};
ghost use Rattle.segment_writer.specs.WrittenSegments.{sorted_by_key};

use super::checks::check;
use super::merging::{ExpectedFrame, check_frames, written};
use pcap_records::read_capture;
use segment_writer::SegList;
use std::alloc::{AllocError, Global};
use std::process::Abort;
use worked_sessions::sessions::{
    ACK, CLIENT, PSH, RecordedSegment, SECOND_CLIENT, SERVER, SYN, file, header, segment,
};

// The lists of the connections of some recorded segments.
fn lists_of(rt: &impl Abort, alloc: Global, segments: &[RecordedSegment<'_>]) -> Vec<SegList>
    ensures { All (λ list. sorted_by_key list ≡ list) result.items }
{
    let bytes = file(alloc, true, segments).expect(rt, "memory");
    let capture = read_capture(alloc, &bytes).expect(rt, "a capture");
    written(rt, alloc, &capture).expect(rt, "memory")
}

// Takes the last of some lists.
fn take_last(rt: &impl Abort, lists: &mut Vec<SegList>) -> SegList
    requires { All (λ list. sorted_by_key list ≡ list) lists.old.items }
    ensures taken { sorted_by_key result ≡ result }
    ensures left { All (λ list. sorted_by_key list ≡ list) lists.new.items }
{
    lists.pop().expect(rt, "a list")
}

// The capture of the segments of two lists, joined.
fn joined(alloc: Global, left: SegList, right: SegList) -> Result<Vec<u8>, AllocError>
    requires left { sorted_by_key left ≡ left }
    requires right { sorted_by_key right ≡ right }
{
    let mut bytes = header(alloc, true)?;
    let list = SegList::join(alloc, left, right)?;
    for framed in list.as_slice() {
        bytes.extend_from_slice(framed.bytes.as_slice())?;
    }
    Ok(bytes)
}

// An opening, and a session whose stamps are before it.
fn falling() -> [RecordedSegment<'static>; 3] {
    [
        segment((5, 0), CLIENT, SERVER, SYN, (1000, 0), b""),
        segment((4, 0), SECOND_CLIENT, SERVER, SYN, (2000, 0), b""),
        segment(
            (4, 500_000),
            SECOND_CLIENT,
            SERVER,
            PSH + ACK,
            (2001, 1),
            b"q",
        ),
    ]
}

// What is written of both, the first connection's frames and then the second's: all is at one instant.
const WRITTEN: [ExpectedFrame; 7] = [
    (5_000_000, 1, SYN, 0),
    (5_000_000, 2, SYN + ACK, 0),
    (5_000_000, 1, ACK, 0),
    (5_000_000, 3, SYN, 0),
    (5_000_000, 2, SYN + ACK, 0),
    (5_000_000, 3, ACK, 0),
    (5_000_000, 3, PSH + ACK, 1),
];

// The two connections' lists, in this order or the other, give one capture.
fn check_order(rt: &impl Abort, alloc: Global, turned: bool) {
    let mut lists = lists_of(rt, alloc, &falling());
    let second = take_last(rt, &mut lists);
    let first = take_last(rt, &mut lists);
    let made = if turned {
        joined(alloc, second, first)
    } else {
        joined(alloc, first, second)
    };
    let bytes = made.expect(rt, "memory");
    check_frames(rt, alloc, &bytes, &WRITTEN);
}

#[test]
fn two_connections_in_either_order(rt: HostRuntime) {
    check_order(&rt, rt.alloc(), false);
    check_order(&rt, rt.alloc(), true);
}

// The list of a connection of which nothing is written, since all of it is at the horizon.
pub(super) fn nothing_written(rt: &impl Abort, alloc: Global) -> SegList
    ensures sorted { sorted_by_key result ≡ result }
    ensures none { result ≡ [] }
{
    let last = (u32::MAX, u32::MAX);
    let never = [
        segment(last, CLIENT, SERVER, SYN, (1000, 0), b""),
        segment(last, CLIENT, SERVER, PSH + ACK, (1001, 0), b"a"),
    ];
    let mut lists = lists_of(rt, alloc, &never);
    let list = take_last(rt, &mut lists);
    assert!(rt; list.as_slice().is_empty());
    list
}

// The list of one of the two connections, the first if told so.
fn one_of_two(rt: &impl Abort, alloc: Global, first: bool) -> SegList
    ensures { sorted_by_key result ≡ result }
{
    let mut lists = lists_of(rt, alloc, &falling());
    let second = take_last(rt, &mut lists);
    if first {
        return take_last(rt, &mut lists);
    }
    second
}

// That the list of one of the two connections is itself when it is joined with an empty one on either side.
fn check_empty(rt: &impl Abort, alloc: Global, first: bool, expected: &[ExpectedFrame]) {
    let empty = nothing_written(rt, alloc);
    let before = joined(alloc, one_of_two(rt, alloc, first), empty).expect(rt, "memory");
    check_frames(rt, alloc, &before, expected);
    let empty = nothing_written(rt, alloc);
    let after = joined(alloc, empty, one_of_two(rt, alloc, first)).expect(rt, "memory");
    check(
        rt,
        "an empty list first",
        after.as_slice() == before.as_slice(),
    );
}

#[test]
fn an_empty_list_on_either_side(rt: HostRuntime) {
    check_empty(&rt, rt.alloc(), true, &WRITTEN[..3]);
    check_empty(&rt, rt.alloc(), false, &WRITTEN[3..]);
}
