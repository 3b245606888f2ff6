//! The lines of connections in the reports of two scenarios, by one thread alone and by workers, with values from outside.
use super::checks::check;
use super::deliveries::{DISABLED, FIRST_LINE, REFUSED_LINE, SECOND_LINE, scenario, segments};
use conn_workers::{ShareTexts, Workers, report_texts, report_texts_alone};
use job_matrix::{Gate, Phase, Plan, Through};
use pcap_records::read_capture;
use range_workers::table_alone;
use std::alloc::{AllocGlobal, Global};
use std::process::Abort;
use std::thread::Threads;
use worked_sessions::gates::Holding;
use worked_sessions::sessions::file;

// That the texts of the scenario at a place are these two lines, share after share.
fn check_lines(
    rt: &impl Abort,
    alloc: Global,
    shares: &[ShareTexts],
    place: usize,
    (first, second): (&str, &str),
) {
    let mut lines = Vec::new(alloc);
    for share in shares {
        let text = share.texts.as_slice().get(place).expect(rt, "a text");
        lines
            .extend_from_slice(text.as_slice())
            .expect(rt, "memory");
    }
    let expected = format!(in alloc; "{first}{second}").expect(rt, "memory");
    check(rt, "lines", lines.as_slice() == expected.as_bytes());
}

// That there are `count` shares, with the lines of a scenario without proxies, and after it of one whose proxy is disabled.
fn check_shares(rt: &impl Abort, alloc: Global, shares: &[ShareTexts], count: usize) {
    check(rt, "shares", shares.len() == count);
    check_lines(rt, alloc, shares, 0, (FIRST_LINE, SECOND_LINE));
    check_lines(rt, alloc, shares, 1, (FIRST_LINE, REFUSED_LINE));
}

#[test]
fn texts_by_one_thread(rt: HostRuntime) {
    let alloc = rt.alloc();
    let bytes = file(alloc, true, &segments()).expect(&rt, "memory");
    let capture = read_capture(alloc, &bytes).expect(&rt, "a capture");
    let table = table_alone(alloc, &capture).expect(&rt, "memory");
    let scenarios = [scenario(&rt, alloc, &[]), scenario(&rt, alloc, &[DISABLED])];
    let shares = report_texts_alone(alloc, &capture, &table, &scenarios, 42).expect(&rt, "memory");
    check_shares(&rt, alloc, shares.as_slice(), 1);
}

// That `workers` workers give `count` shares, which hold the lines.
fn check_workers<R: Abort + Threads + Sync, G: Gate>(
    rt: &R,
    alloc: Global,
    workers: u32,
    count: usize,
    gate: &G,
) {
    let bytes = file(alloc, true, &segments()).expect(rt, "memory");
    let capture = read_capture(alloc, &bytes).expect(rt, "a capture");
    let table = table_alone(alloc, &capture).expect(rt, "memory");
    let scenarios = [scenario(rt, alloc, &[]), scenario(rt, alloc, &[DISABLED])];
    let plan = Plan::new(workers, 4096).expect(rt, "a plan");
    let crew = Workers { rt, plan };
    let made = report_texts(&crew, alloc, &capture, &table, &scenarios, 42, gate);
    check_shares(rt, alloc, made.expect(rt, "memory").as_slice(), count);
}

#[test]
fn texts_by_workers(rt: HostRuntime) {
    check_workers(&rt, rt.alloc(), 1, 1, &Through);
    check_workers(&rt, rt.alloc(), 2, 2, &Through);
}

// Job 0 waits until job 1 has passed: one thread alone would give up.
#[test]
fn texts_by_two_threads(rt: HostRuntime) {
    let gate = Holding::new(Phase::Jobs);
    check_workers(&rt, rt.alloc(), 2, 2, &gate);
    check(&rt, "held", !gate.gave_up());
}
