//! What two connections contribute to scenarios, by workers, with values from outside.
ghost use Rattle.std.specs.Prelude.{◌≡◌, ◌≤◌, length, IfOk};
ghost use Rattle.conn_workers.specs.Recordings.{whole_table};

use super::checks::check;
use conn_table::laws::tables_agree;
use conn_table::{Partial, Table, finish};
use conn_workers::{
    Delivery, Recordings, RowShares, Workers, deliver, deliver_row, deliver_row_alone, record,
};
use job_matrix::{Gate, Phase, Plan, Through};
use pcap_records::{Capture, Moment, read_capture};
use scenarios::{Hosts, Scenario, read_scenario};
use segment_writer::Keys;
use std::alloc::{AllocError, Global};
use std::process::Abort;
use std::thread::Threads;
use worked_sessions::gates::{Counting, Holding};
use worked_sessions::sessions::{
    ACK, CLIENT, PSH, RecordedSegment, SECOND_CLIENT, SERVER, SYN, file, segment,
};

// Latency with jitter before the server of the second connection.
pub(super) const DELAYED: &str =
    "{\"name\":\"web\",\"upstream\":\"10.0.0.2:80\",\"toxics\":[{\"type\":\"latency\",\"stream\":\"upstream\",\"attributes\":{\"latency\":100,\"jitter\":50}}]}";

// Silence before that of the first one.
const SILENT: &str =
    "{\"name\":\"quiet\",\"upstream\":\"10.0.0.3:40001\",\"toxics\":[{\"type\":\"timeout\",\"stream\":\"upstream\",\"attributes\":{\"timeout\":0}}]}";

pub(super) const DISABLED: &str =
    "{\"name\":\"off\",\"upstream\":\"10.0.0.2:80\",\"enabled\":false}";

pub(super) const FIRST_LINE: &str =
    "0 10.0.0.1:40000 > 10.0.0.3:40001 proxy - up 0/0/0 open max 0 down 0/0/0 open max 0\n";

pub(super) const SECOND_LINE: &str =
    "1 10.0.0.1:40000 > 10.0.0.2:80 proxy - up 2/2/0 open max 0 down 0/0/0 open max 0\n";

pub(super) const REFUSED_LINE: &str =
    "1 10.0.0.1:40000 > 10.0.0.2:80 proxy 0 up 0/2/0 refused max 0 down 0/0/0 refused max 0\n";

// A client's openings to two servers, and two bytes to the second.
pub(super) fn segments() -> [RecordedSegment<'static>; 3] {
    [
        segment((1, 0), CLIENT, SECOND_CLIENT, SYN, (1000, 0), b""),
        segment((1, 100_000), CLIENT, SERVER, SYN, (2000, 0), b""),
        segment((1, 200_000), CLIENT, SERVER, PSH + ACK, (2001, 0), b"ab"),
    ]
}

// The scenario of some proxies.
pub(super) fn scenario(rt: &impl Abort, alloc: Global, proxies: &[&str]) -> Scenario {
    let proxies = proxies.join(alloc, ",").expect(rt, "memory");
    let text = format!(in alloc; "[{proxies}]").expect(rt, "memory");
    match read_scenario(alloc, text.as_bytes(), &Hosts::new(alloc)) {
        Ok(scenario) => scenario,
        Err(_) => rt.panic("no scenario"),
    }
}

// The table of all records.
pub(super) fn whole_table(alloc: Global, capture: &Capture<'_>) -> Result<Table, AllocError>
    ensures { IfOk result (λ table. table ≡ whole_table capture.now) }
{
    tables_agree();
    let count = capture.records().len();
    let whole = Partial::of_range(alloc, capture, 0, count, Moment::first())?;
    finish(alloc, whole)
}

// The deliveries of a file by `workers` workers, who pass a gate, with seed 42.
fn delivered<R: Abort + Threads + Sync, G: Gate>(
    rt: &R,
    alloc: Global,
    bytes: &[u8],
    scenarios: &[Scenario],
    workers: u32,
    gate: &G,
) -> Vec<Delivery>
    requires { length scenarios.now ≤ 256 }
{
    let capture = read_capture(alloc, bytes).expect(rt, "a capture");
    let table = whole_table(alloc, &capture).expect(rt, "memory");
    let plan = Plan::new(workers, 4096).expect(rt, "a plan");
    let made = deliver(rt, alloc, &capture, &table, scenarios, 42, plan, gate);
    made.expect(rt, "memory").into_vec()
}

// A delivery as a test wants it: the numbers of its scenario and of its connection, how many segments it has, and its line.
type ExpectedDelivery = (u32, u32, usize, &'static str);

// Whether a delivery is such.
fn is_expected(delivery: &Delivery, (scenario, conn, segments, line): &ExpectedDelivery) -> bool {
    delivery.scenario == *scenario
        && delivery.conn == *conn
        && delivery.segments.as_slice().len() == *segments
        && delivery.line.as_slice() == line.as_bytes()
}

// Whether deliveries are these, in this order.
fn are_expected(made: &[Delivery], expected: &[ExpectedDelivery]) -> bool {
    let mut right = made.len() == expected.len();
    for (delivery, expected) in made.iter().zip(expected) {
        right = right && is_expected(delivery, expected);
    }
    right
}

// What both connections contribute to a scenario without a proxy, and to one whose proxy is disabled.
const BARE: [ExpectedDelivery; 2] = [(0, 0, 3, FIRST_LINE), (0, 1, 4, SECOND_LINE)];

const REFUSED: [ExpectedDelivery; 2] = [(1, 0, 3, FIRST_LINE), (1, 1, 2, REFUSED_LINE)];

// That `workers` workers give a row for each of two scenarios.
fn check_rows<R: Abort + Threads + Sync>(rt: &R, alloc: Global, workers: u32) {
    let bytes = file(alloc, true, &segments()).expect(rt, "memory");
    let scenarios = [scenario(rt, alloc, &[]), scenario(rt, alloc, &[DISABLED])];
    let made = delivered(rt, alloc, &bytes, &scenarios, workers, &Through);
    let (first, second) = made.split_at(made.len().min(2));
    let good = are_expected(first, &BARE) && are_expected(second, &REFUSED);
    check(rt, "a row for each scenario", good);
}

#[test]
fn a_row_for_each_scenario(rt: HostRuntime) {
    check_rows(&rt, rt.alloc(), 1);
    check_rows(&rt, rt.alloc(), 2);
    check_rows(&rt, rt.alloc(), 4);
    check_rows(&rt, rt.alloc(), 16);
}

// Whether what the shares of a row hold together is the row of the second scenario.
fn is_second_row(rt: &impl Abort, alloc: Global, row: RowShares<'_, '_>) -> bool {
    let mut segments = 0usize;
    let mut lines = Vec::new(alloc);
    for share in row.as_slice() {
        segments = segments.saturating_add(share.segments.count());
        lines
            .extend_from_slice(share.lines.as_slice())
            .expect(rt, "memory");
    }
    let expected = format!(in alloc; "{FIRST_LINE}{REFUSED_LINE}").expect(rt, "memory");
    segments == 5 && lines.as_slice() == expected.as_bytes()
}

// That one thread alone and workers give the second row, of what is recorded.
fn check_second_row<R: Abort + Threads + Sync>(
    rt: &R,
    alloc: Global,
    recordings: &Recordings<'_, '_>,
    plan: Plan,
) {
    let second = scenario(rt, alloc, &[DISABLED]);
    let row = deliver_row_alone(alloc, recordings, 1, &second, 42).expect(rt, "memory");
    let alone = is_second_row(rt, alloc, row);
    check(rt, "alone", alone);
    let crew = Workers { rt, plan };
    let row = deliver_row(&crew, alloc, recordings, 1, &second, 42);
    let by_workers = is_second_row(rt, alloc, row.expect(rt, "memory"));
    check(rt, "by workers", by_workers);
}

// The same of what is recorded of a file, by a number of workers.
fn check_recorded_row<R: Abort + Threads + Sync>(rt: &R, alloc: Global, workers: u32) {
    let bytes = file(alloc, true, &segments()).expect(rt, "memory");
    let capture = read_capture(alloc, &bytes).expect(rt, "a capture");
    let table = whole_table(alloc, &capture).expect(rt, "memory");
    let plan = Plan::new(workers, 4096).expect(rt, "a plan");
    let recordings = record(rt, alloc, &capture, &table, plan, &Through).expect(rt, "memory");
    if recordings.as_slice().len() != 2 {
        rt.panic("not two recordings");
    }
    check_second_row(rt, alloc, &recordings, plan);
}

#[test]
fn a_row_of_what_is_recorded(rt: HostRuntime) {
    check_recorded_row(&rt, rt.alloc(), 1);
    check_recorded_row(&rt, rt.alloc(), 2);
}

#[test]
fn nothing_is_delivered_of_nothing(rt: HostRuntime) {
    let empty = file(rt.alloc(), true, &[]).expect(&rt, "memory");
    let scenarios = [scenario(&rt, rt.alloc(), &[])];
    let none = delivered(&rt, rt.alloc(), &empty, &scenarios, 16, &Through);
    check(&rt, "no connection", none.is_empty());
    let bytes = file(rt.alloc(), true, &segments()).expect(&rt, "memory");
    let none = delivered(&rt, rt.alloc(), &bytes, &[], 2, &Through);
    check(&rt, "no scenario", none.is_empty());
}

// Job 0 of a phase waits until job 1 of it has passed: one thread alone would give up.
fn check_held<R: Abort + Threads + Sync>(rt: &R, alloc: Global, phase: Phase) {
    let bytes = file(alloc, true, &segments()).expect(rt, "memory");
    let scenarios = [scenario(rt, alloc, &[])];
    let gate = Holding::new(phase);
    let made = delivered(rt, alloc, &bytes, &scenarios, 2, &gate);
    check(rt, "held", !gate.gave_up() && are_expected(&made, &BARE));
}

#[test]
fn two_workers_in_each_phase(rt: HostRuntime) {
    check_held(&rt, rt.alloc(), Phase::Lines);
    check_held(&rt, rt.alloc(), Phase::Jobs);
}

// That `jobs` jobs of a phase, whose numbers have the sum `numbers`, are done for three scenarios.
fn check_jobs<R: Abort + Threads + Sync>(
    rt: &R,
    alloc: Global,
    phase: Phase,
    (jobs, numbers): (u64, u64),
) {
    let bytes = file(alloc, true, &segments()).expect(rt, "memory");
    let scenarios = [
        scenario(rt, alloc, &[]),
        scenario(rt, alloc, &[DELAYED]),
        scenario(rt, alloc, &[SILENT]),
    ];
    let gate = Counting::new(phase);
    let made = delivered(rt, alloc, &bytes, &scenarios, 4, &gate);
    let counted = gate.passed() == jobs && gate.numbers() == numbers;
    check(rt, "jobs of a phase", counted && made.len() == 6);
}

// Lines are made once for each connection, deliveries once for each connection and scenario.
#[test]
fn jobs_of_each_phase(rt: HostRuntime) {
    check_jobs(&rt, rt.alloc(), Phase::Lines, (2, 1));
    check_jobs(&rt, rt.alloc(), Phase::Jobs, (6, 15));
}
