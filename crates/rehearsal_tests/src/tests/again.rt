//! Calls that are made again, with the same values. The script tests/program/growths.sh runs these tests with each growth of memory refused
//! in turn. One of two calls may want memory then, and the other answers in full.
use super::rehearsed::rehearsed_by;
use scenarios::{Hosts, Scenario, read_scenario};
use std::alloc::{AllocGlobal, Global};
use std::process::Abort;
use std::sync::Wait;
use std::thread::Threads;
use toxicap::{Counted, Options, Outputs, Plan, RunFault, Through, answers};
use worked_sessions::sessions::{
    ACK, CLIENT, PLAIN_SESSION, PSH, RecordedSegment, SECOND_CLIENT, SERVER, SYN, file, segment,
};

// An opening that is sent again, its answer and a byte, and a second session of the same ends.
pub fn repeated() -> [RecordedSegment<'static>; 6] {
    [
        segment((1, 0), CLIENT, SERVER, SYN, (1000, 0), b""),
        segment((1, 500_000), CLIENT, SERVER, SYN, (1000, 0), b""),
        segment((1, 600_000), SERVER, CLIENT, SYN + ACK, (5000, 1001), b""),
        segment((1, 700_000), CLIENT, SERVER, PSH + ACK, (1001, 5001), b"a"),
        segment((2, 0), CLIENT, SERVER, SYN, (9000, 0), b""),
        segment((2, 100_000), CLIENT, SERVER, PSH + ACK, (9001, 0), b"b"),
    ]
}

// The openings of two connections of one client, and two bytes of the second.
fn beside() -> [RecordedSegment<'static>; 3] {
    [
        segment((1, 0), CLIENT, SECOND_CLIENT, SYN, (1000, 0), b""),
        segment((1, 100_000), CLIENT, SERVER, SYN, (2000, 0), b""),
        segment((1, 200_000), CLIENT, SERVER, PSH + ACK, (2001, 0), b"ab"),
    ]
}

// A proxy for the second connection's server alone, and beside one for that of the first.
const ONE_PROXY: &str =
    "[{\"name\":\"web\",\"upstream\":\"10.0.0.2:80\",\"toxics\":[{\"type\":\"latency\",\"stream\":\"upstream\",\"attributes\":{\"latency\":100,\"jitter\":50}}]}]";

const TWO_PROXIES: &str =
    "[{\"name\":\"web\",\"upstream\":\"10.0.0.2:80\",\"toxics\":[{\"type\":\"latency\",\"stream\":\"upstream\",\"attributes\":{\"latency\":100,\"jitter\":50}}]},{\"name\":\"other\",\"upstream\":\"10.0.0.3:40001\",\"toxics\":[{\"type\":\"timeout\",\"stream\":\"upstream\",\"attributes\":{\"timeout\":0}}]}]";

// Adler-32 (RFC 1950) of what a sum stands for, and of some bytes after it.
fn add_to_sum(sum: u32, bytes: &[u8]) -> u32 {
    let (mut low, mut high) = (u64::from(sum) % 65_536, u64::from(sum) / 65_536);
    for byte in bytes {
        low = (low % 65_536 + u64::from(*byte)) % 65_521;
        high = (high % 65_536 + low % 65_536) % 65_521;
    }
    (high % 65_536 * 65_536 + low % 65_536) as u32
}

// Whether an answer has one output, whose capture and report have this sum.
pub fn is_whole(answer: &Result<Outputs, RunFault>, sum: u32) -> bool {
    match answer {
        Ok(outputs) => match outputs.as_slice() {
            [output] => {
                let capture = add_to_sum(1, output.capture.as_slice());
                add_to_sum(capture, output.report.as_slice()) == sum
            }
            _ => false,
        },
        Err(_) => false,
    }
}

// Whether both answers are whole, or one is whole and the other out of memory.
fn are_answered(
    first: &Result<Outputs, RunFault>,
    second: &Result<Outputs, RunFault>,
    sum: u32,
) -> bool {
    let (is_first, is_second) = (is_whole(first, sum), is_whole(second, sum));
    let first_wants = matches!(first, Err(RunFault::Memory));
    let second_wants = matches!(second, Err(RunFault::Memory));
    is_first && (is_second || second_wants) || first_wants && is_second
}

// The host that scenarios may name.
fn hosts_of(alloc: Global) -> Result<Hosts, RunFault> {
    let mut hosts = Hosts::new(alloc);
    match hosts.add("web", "10.0.0.2") {
        Ok(()) => Ok(hosts),
        Err(_) => Err(RunFault::Memory),
    }
}

fn scenario_of(alloc: Global, text: &str) -> Result<Scenario, RunFault> {
    let hosts = hosts_of(alloc)?;
    read_scenario(alloc, text.as_bytes(), &hosts).map_err(|_| RunFault::Memory)
}

// `rehearse`, called twice by `workers` workers, gives outputs of this sum.
fn check_rehearsed(
    rt: &(impl Abort + AllocGlobal + Threads + Wait + Sync),
    workers: u32,
    (bytes, text): (&[u8], &str),
    sum: u32,
) {
    let scenarios = [scenario_of(rt.alloc(), text).expect(rt, "no memory yet")];
    let plan = (workers, 2);
    let first = rehearsed_by(rt, rt.alloc(), bytes, &scenarios, plan, &Through);
    let second = rehearsed_by(rt, rt.alloc(), bytes, &scenarios, plan, &Through);
    let good = are_answered(&first, &second, sum);
    assert!(rt; good, "rehearse by {workers} workers");
}

// `answers`, called twice by `workers` workers, gives outputs of this sum.
fn check_answers(
    rt: &(impl Abort + AllocGlobal + Threads + Wait + Sync),
    workers: u32,
    (bytes, text): (&[u8], &str),
    sum: u32,
) {
    let hosts = hosts_of(rt.alloc()).expect(rt, "no memory yet");
    let plan = Plan::new(workers, 2).expect(rt, "a plan");
    let (seed, texts) = (42, [text.as_bytes()]);
    let options = Options { hosts, seed, plan };
    let first = answers(rt, rt.alloc(), &mut Counted::new(bytes), &texts, &options);
    let second = answers(rt, rt.alloc(), &mut Counted::new(bytes), &texts, &options);
    let good = are_answered(&first, &second, sum);
    assert!(rt; good, "answers by {workers} workers");
}

fn check_again(
    rt: &(impl Abort + AllocGlobal + Threads + Wait + Sync),
    row: (&[u8], &str),
    sum: u32,
) {
    check_rehearsed(rt, 1, row, sum);
    check_rehearsed(rt, 2, row, sum);
    check_answers(rt, 1, row, sum);
    check_answers(rt, 2, row, sum);
}

// The sums are those of files that were worked out apart from the program.
#[test]
fn again_the_plain_session(rt: HostRuntime) {
    check_again(&rt, (&PLAIN_SESSION, "[]"), 0x3a6b_82f8);
}

#[test]
fn again_a_repeated_opening_and_second_session(rt: HostRuntime) {
    let bytes = file(rt.alloc(), true, &repeated()).expect(&rt, "no memory yet");
    check_again(&rt, (&bytes, "[]"), 0xac0a_9ea3);
}

#[test]
fn again_another_connection_without_a_proxy(rt: HostRuntime) {
    let bytes = file(rt.alloc(), true, &beside()).expect(&rt, "no memory yet");
    check_again(&rt, (&bytes, ONE_PROXY), 0x7472_9a7c);
}

#[test]
fn again_another_connection_that_is_held(rt: HostRuntime) {
    let bytes = file(rt.alloc(), true, &beside()).expect(&rt, "no memory yet");
    check_again(&rt, (&bytes, TWO_PROXIES), 0x7676_9a80);
}

#[test]
fn again_a_disabled_proxy(rt: HostRuntime) {
    let text = "[{\"name\":\"a\",\"upstream\":\"web:80\",\"enabled\":false}]";
    check_again(&rt, (&PLAIN_SESSION, text), 0xa471_59ee);
}
