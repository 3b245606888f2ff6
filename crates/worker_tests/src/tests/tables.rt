//! Connection tables with values from outside: of whole captures, of ranges, and of ranges joined from the left and the right.
ghost use Rattle.std.specs.Prelude.{◌≡◌, ◌≤◌, length};

use super::checks::check;
use conn_table::{Conn, Member, Partial, Table, finish};
use frame_headers::{Flags, Peer};
use pcap_records::{Capture, read_capture};
use std::alloc::{AllocGlobal, Global};
use std::process::Abort;
use worked_sessions::sessions::{
    ACK, CLIENT, Host, PSH, RecordedSegment, SERVER, SYN, file, segment,
};

fn peer(host: Host) -> Peer {
    Peer {
        addr: 0x0a00_0000 + u32::from(host.addr),
        port: host.port,
    }
}

// The partial of a range, with the greatest stamp before it.
fn partial(rt: &impl Abort, alloc: Global, capture: &Capture<'_>, from: usize, to: usize) -> Partial
    requires ordered { from ≤ to }
    requires within { to ≤ length capture.now.records }
    ensures from { result.from ≡ from }
    ensures to { result.to ≡ to }
{
    let partial = Partial::of_range(alloc, capture, from, to, capture.peak(0, from));
    partial.expect(rt, "memory")
}

// The partial of two ranges.
fn join(rt: &impl Abort, left: Partial, right: Partial) -> Partial
    requires { left.to ≡ right.from }
    ensures from { result.from ≡ left.from }
    ensures to { result.to ≡ right.to }
{
    Partial::join(left, right).expect(rt, "memory")
}

// The table of all records in one range.
fn whole(rt: &impl Abort, alloc: Global, capture: &Capture<'_>) -> Table {
    let partial = partial(rt, alloc, capture, 0, capture.records().len());
    finish(alloc, partial).expect(rt, "memory")
}

// The table by ranges of `cut` records, joined from the left.
fn from_left(rt: &impl Abort, alloc: Global, capture: &Capture<'_>, cut: usize) -> Table {
    let count = capture.records().len();
    let mut done = partial(rt, alloc, capture, 0, 0);
    let mut at = 0;
    'cuts: while at < count {
        let to = at.saturating_add(cut.max(1)).min(count);
        done = join(rt, done, partial(rt, alloc, capture, at, to));
        at = to;
    }
    finish(alloc, done).expect(rt, "memory")
}

// The partial of the records from `at` on, by ranges of `cut` records, joined from the right.
fn right_of(rt: &impl Abort, alloc: Global, capture: &Capture<'_>, at: usize, cut: usize) -> Partial
    requires { at ≤ length capture.now.records }
    ensures { result.from ≡ at }
{
    let count = capture.records().len();
    let to = at.saturating_add(cut.max(1)).min(count);
    let first = partial(rt, alloc, capture, at, to);
    if to == count {
        return first;
    }
    join(rt, first, right_of(rt, alloc, capture, to, cut))
}

// The table by ranges of `cut` records, joined from the right.
fn from_right(rt: &impl Abort, alloc: Global, capture: &Capture<'_>, cut: usize) -> Table {
    finish(alloc, right_of(rt, alloc, capture, 0, cut)).expect(rt, "memory")
}

// A connection as a test wants it: its client, and the numbers of its members' records.
pub(super) type ExpectedConn = (Host, &'static [u32]);

// Whether members are those of these records.
fn are_members(members: &[Member], expected: &[u32]) -> bool {
    let mut right = members.len() == expected.len();
    for (member, index) in members.iter().zip(expected) {
        right = right && member.index == *index;
    }
    right
}

// Whether a connection has this number, this client and these members, of which the first is its opening.
fn is_expected(conn: &Conn, number: u32, (client, members): &ExpectedConn) -> bool {
    conn.number == number
        && conn.client == peer(*client)
        && members.first() == Some(&conn.opening)
        && are_members(conn.members.as_slice(), members)
}

// Whether a table has these connections, numbered in turn, and this number of unopened segments.
fn is_table(table: &Table, expected: &[ExpectedConn], unopened: u64) -> bool {
    let mut right = table.conns().len() == expected.len() && table.unopened() == unopened;
    for ((conn, expected), number) in table.conns().iter().zip(expected).zip(0_u32..) {
        right = right && is_expected(conn, number, expected);
    }
    right
}

// That a table has these connections, numbered in turn, and this number of unopened segments.
pub(super) fn check_table(
    rt: &impl Abort,
    table: &Table,
    expected: &[ExpectedConn],
    unopened: u64,
) {
    check(rt, "a table", is_table(table, expected, unopened));
}

// An opening that is sent again, and a second session of the same pair.
pub(super) fn repeated() -> [RecordedSegment<'static>; 6] {
    [
        segment((1, 0), CLIENT, SERVER, SYN, (1000, 0), b""),
        segment((1, 500_000), CLIENT, SERVER, SYN, (1000, 0), b""),
        segment((1, 600_000), SERVER, CLIENT, SYN + ACK, (5000, 1001), b""),
        segment((1, 700_000), CLIENT, SERVER, PSH + ACK, (1001, 5001), b"h"),
        segment((2, 0), CLIENT, SERVER, SYN, (9000, 0), b""),
        segment((2, 100_000), CLIENT, SERVER, PSH + ACK, (9001, 0), b"h"),
    ]
}

pub(super) const REPEATED: [ExpectedConn; 2] = [(CLIENT, &[0, 1, 2, 3]), (CLIENT, &[4, 5])];

// That ranges of `cut` records give this table, joined from the left and from the right.
fn check_cut(
    rt: &impl Abort,
    alloc: Global,
    capture: &Capture<'_>,
    cut: usize,
    expected: &[ExpectedConn],
) {
    check_table(rt, &from_left(rt, alloc, capture, cut), expected, 0);
    check_table(rt, &from_right(rt, alloc, capture, cut), expected, 0);
}

#[test]
fn a_repeated_opening_by_every_cut(rt: HostRuntime) {
    let alloc = rt.alloc();
    let bytes = file(alloc, true, &repeated()).expect(&rt, "memory");
    let capture = read_capture(alloc, &bytes).expect(&rt, "a capture");
    check_table(&rt, &whole(&rt, alloc, &capture), &REPEATED, 0);
    check_cut(&rt, alloc, &capture, 1, &REPEATED);
    check_cut(&rt, alloc, &capture, 2, &REPEATED);
    check_cut(&rt, alloc, &capture, 3, &REPEATED);
    check_cut(&rt, alloc, &capture, 4096, &REPEATED);
}

// That a partial's table is this.
fn check_partial(rt: &impl Abort, alloc: Global, partial: Partial, expected: &[ExpectedConn]) {
    let table = finish(alloc, partial).expect(rt, "memory");
    check_table(rt, &table, expected, 0);
}

// The ranges of a capture of six records: two of them alone, and after the first, and three in a row, of which one has no record.
fn check_ranges(rt: &impl Abort, alloc: Global, capture: &Capture<'_>)
    requires { length capture.now.records ≡ 6 }
{
    let alone = partial(rt, alloc, capture, 1, 3);
    check_partial(rt, alloc, alone, &[(CLIENT, &[1, 2])]);
    let first = partial(rt, alloc, capture, 0, 1);
    let after = join(rt, first, partial(rt, alloc, capture, 1, 3));
    check_partial(rt, alloc, after, &[(CLIENT, &[0, 1, 2])]);
    let half = partial(rt, alloc, capture, 0, 3);
    let none = join(rt, half, partial(rt, alloc, capture, 3, 3));
    let all = join(rt, none, partial(rt, alloc, capture, 3, 6));
    check_partial(rt, alloc, all, &REPEATED);
}

#[test]
fn a_range_alone_and_after_another(rt: HostRuntime) {
    let bytes = file(rt.alloc(), true, &repeated()).expect(&rt, "memory");
    let capture = read_capture(rt.alloc(), &bytes).expect(&rt, "a capture");
    if capture.records().len() != 6 {
        rt.panic("six records");
    }
    check_ranges(&rt, rt.alloc(), &capture);
}

// Whether a member is a segment of the side, at this instant, with this sequence number and `len` bytes.
fn is_member(member: &Member, from_client: bool, micros: u64, seq: u32, len: u16) -> bool {
    member.from_client == from_client
        && member.at.count() == micros
        && member.seq == seq
        && member.len == len
}

// Whether a connection is opened at 1.0, and has the server's answer as its third member, and the client's byte as its fourth, which
// stands in the file after a file header, four record headers, and four times the 54 bytes of headers.
fn has_told(conn: &Conn) -> bool {
    match conn.members.as_slice() {
        [_, _, answer, last] => {
            conn.opened.count() == 1_000_000
                && is_member(answer, false, 1_600_000, 5000, 0)
                && is_member(last, true, 1_700_000, 1001, 1)
                && last.flags == Flags::PSH.with(Flags::ACK)
                && last.start == 24 + 4 * 16 + 4 * 54
        }
        _ => false,
    }
}

#[test]
fn what_a_member_tells(rt: HostRuntime) {
    let bytes = file(rt.alloc(), true, &repeated()).expect(&rt, "memory");
    let capture = read_capture(rt.alloc(), &bytes).expect(&rt, "a capture");
    let table = whole(&rt, rt.alloc(), &capture);
    let told = match table.conns() {
        [conn, _] => has_told(conn),
        _ => false,
    };
    check(&rt, "members", told);
    check(&rt, "its byte", bytes.get(304) == Some(&b'h'));
}
