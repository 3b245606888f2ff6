//! What is seen of a run beside its outputs, with values from outside.
use super::checks::check;
use super::deliveries::{DISABLED, scenario, whole_table};
use conn_workers::{
    SeenConn, conns_together, record_alone, report_texts_alone, run_summary, seen_conns,
};
use pcap_records::read_capture;
use std::process::Abort;
use worked_sessions::sessions::{
    ACK, CLIENT, PSH, RecordedSegment, SECOND_CLIENT, SERVER, SYN, file, segment,
};

// A segment without an opening, two openings, and four bytes, of which the last two come after a gap.
fn segments() -> [RecordedSegment<'static>; 5] {
    [
        segment((1, 0), SECOND_CLIENT, SERVER, ACK, (5, 0), b""),
        segment((2, 0), CLIENT, SECOND_CLIENT, SYN, (1000, 0), b""),
        segment((3, 0), CLIENT, SERVER, SYN, (2000, 0), b""),
        segment((4, 0), CLIENT, SERVER, PSH + ACK, (2001, 0), b"ab"),
        segment((5, 0), CLIENT, SERVER, PSH + ACK, (2009, 0), b"yz"),
    ]
}

// That connection `place` has this server and this number of the client's lost bytes, and none of the server's.
fn check_conn(
    rt: &impl Abort,
    conns: &[SeenConn],
    place: usize,
    (addr, port, lost): (u32, u16, u64),
) {
    let conn = conns.get(place).expect(rt, "a connection");
    check(
        rt,
        "server",
        conn.server.addr == addr && conn.server.port == port,
    );
    check(rt, "lost", conn.up_lost == lost && conn.down_lost == 0);
}

fn check_conns(rt: &impl Abort, conns: &[SeenConn]) {
    check(rt, "connections", conns.len() == 2);
    check_conn(rt, conns, 0, (0x0a00_0003, 40_001, 0));
    check_conn(rt, conns, 1, (0x0a00_0002, 80, 2));
}

#[test]
fn a_run_summed_up(rt: HostRuntime) {
    let alloc = rt.alloc();
    let mut bytes = file(alloc, true, &segments()).expect(&rt, "memory");
    bytes.extend_from_slice(b"abc").expect(&rt, "memory");
    let capture = read_capture(alloc, &bytes).expect(&rt, "a capture");
    let table = whole_table(alloc, &capture).expect(&rt, "memory");
    let scenarios = [scenario(&rt, alloc, &[]), scenario(&rt, alloc, &[DISABLED])];
    let shares = report_texts_alone(alloc, &capture, &table, &scenarios, 42).expect(&rt, "memory");
    let conns = conns_together(alloc, shares.as_slice()).expect(&rt, "memory");
    check_conns(&rt, conns.as_slice());
    let recordings = record_alone(alloc, &capture, &table).expect(&rt, "memory");
    let conns = seen_conns(alloc, recordings.as_slice()).expect(&rt, "memory");
    let summary = run_summary(alloc, &capture, &table, conns, &scenarios).expect(&rt, "memory");
    check_conns(&rt, summary.connections.as_slice());
    check(&rt, "records", summary.records == 5 && summary.rest == 3);
    check(
        &rt,
        "classes",
        summary.counts.segment == 5 && summary.counts.short == 0,
    );
    check(&rt, "unopened", summary.unopened == 1);
    check(&rt, "met", summary.met.as_slice() == [0usize, 1].as_slice());
}
