//! Connection tables that workers make, range by range: who makes them, and which ranges pass the gate.
use super::checks::check;
use super::tables::{REPEATED, check_table, repeated};
use job_matrix::{Phase, Plan};
use pcap_records::read_capture;
use range_workers::table;
use std::alloc::Global;
use std::process::Abort;
use std::sync::Wait;
use std::thread::Threads;
use worked_sessions::gates::{Counting, Holding};
use worked_sessions::sessions::{file, header};

#[test]
fn a_range_held_until_the_next_has_passed(rt: HostRuntime) {
    let alloc = rt.alloc();
    let bytes = file(alloc, true, &repeated()).expect(&rt, "memory");
    let capture = read_capture(alloc, &bytes).expect(&rt, "a capture");
    let gate = Holding::new(Phase::Ranges);
    let plan = Plan::new(2, 3).expect(&rt, "a plan");
    let made = table(&rt, alloc, &capture, plan, &gate).expect(&rt, "memory");
    check_table(&rt, &made, &REPEATED, 0);
    check(&rt, "held", !gate.gave_up());
}

// That `expected` is the number of ranges of `cut` records and the sum of their numbers, and that each passes the gate once.
fn check_ranges<R: Abort + Threads + Wait + Sync>(
    rt: &R,
    alloc: Global,
    bytes: &[u8],
    cut: u32,
    expected: (u64, u64),
) {
    let (ranges, numbers) = expected;
    let capture = read_capture(alloc, bytes).expect(rt, "a capture");
    let gate = Counting::new(Phase::Ranges);
    let plan = Plan::new(2, cut).expect(rt, "a plan");
    let _made = table(rt, alloc, &capture, plan, &gate).expect(rt, "memory");
    let passed = gate.passed() == ranges && gate.numbers() == numbers;
    check(rt, "ranges that passed", passed);
}

// Six records: their number by the cut, rounded up, of ranges; no record: one.
#[test]
fn each_range_passes_the_gate(rt: HostRuntime) {
    let alloc = rt.alloc();
    let six = file(alloc, true, &repeated()).expect(&rt, "memory");
    check_ranges(&rt, alloc, &six, 1, (6, 15));
    check_ranges(&rt, alloc, &six, 3, (2, 1));
    check_ranges(&rt, alloc, &six, 4, (2, 1));
    check_ranges(&rt, alloc, &six, 6, (1, 0));
    let none = header(alloc, true).expect(&rt, "memory");
    check_ranges(&rt, alloc, &none, 3, (1, 0));
}
