//! Whole answers: the outputs or the refusal of the texts of a capture and of scenarios.
use super::captures::PLAIN_REPORT;
use scenarios::Hosts;
use std::alloc::{AllocError, AllocGlobal, Global};
use std::process::Abort;
use std::sync::Wait;
use std::thread::Threads;
use toxicap::{Counted, Options, Output, Outputs, Plan, RunFault, answers, fault_line};
use worked_sessions::sessions::PLAIN_SESSION;
use worked_sessions::written_frames::session_written;

// A disabled proxy, and an enabled one after it, for the server of the plain session.
pub const BOTH: &str =
    "[{\"name\":\"a\",\"upstream\":\"10.0.0.2:80\",\"enabled\":false},{\"name\":\"b\",\"upstream\":\"10.0.0.2:80\",\"enabled\":true}]";

pub const REFUSED_LINE: &str =
    "0 10.0.0.1:40000 > 10.0.0.2:80 proxy 0 up 0/5/0 refused max 0 down 0/0/0 refused max 0\n";

// The server's answer to an opening that its proxy refuses, with its record header.
const RESET: [u8; 70] = [
    0x01, 0x00, 0x00, 0x00, 0x00, 0x00, 0x00, 0x00, 0x36, 0x00, 0x00, 0x00, 0x36, 0x00, 0x00, 0x00,
    0x02, 0x00, 0x00, 0x00, 0x00, 0x01, 0x02, 0x00, 0x00, 0x00, 0x00, 0x02, 0x08, 0x00, 0x45, 0x00,
    0x00, 0x28, 0x00, 0x00, 0x40, 0x00, 0x40, 0x06, 0x26, 0xce, 0x0a, 0x00, 0x00, 0x02, 0x0a, 0x00,
    0x00, 0x01, 0x00, 0x50, 0x9c, 0x40, 0x00, 0x00, 0x00, 0x00, 0x00, 0x00, 0x03, 0xe9, 0x50, 0x14,
    0xff, 0xff, 0xfb, 0x54, 0x00, 0x00,
];

// What a capture's text answers under the texts of scenarios, with one known host, `web` at 10.0.0.2.
fn answered<R: Threads + Wait + Sync>(
    rt: &R,
    alloc: Global,
    text: &[u8],
    texts: &[&[u8]],
) -> Result<Outputs, RunFault> {
    let mut hosts = Hosts::new(alloc);
    if hosts.add("web", "10.0.0.2").is_err() {
        return Err(RunFault::Memory);
    }
    let plan = Plan::new(2, 3).ok_or(RunFault::Memory)?;
    let options = Options {
        hosts,
        seed: 7,
        plan,
    };
    answers(rt, alloc, &mut Counted::new(text), texts, &options)
}

// Whether an output's capture has this length and ends so, and its report ends so.
fn is_output(output: &Output, len: usize, last: &[u8], end: &str) -> bool {
    let capture = output.capture.as_slice();
    capture.len() == len
        && capture.ends_with(last)
        && output.report.as_slice().ends_with(end.as_bytes())
}

// A disabled proxy for the host `web`.
pub const NAMED: &str = "[{\"name\":\"a\",\"upstream\":\"web:80\",\"enabled\":false}]";

// Whether outputs are those of the plain session under `[]` and a disabled proxy for its server.
pub fn are_answers(alloc: Global, outputs: &[Output]) -> Result<bool, AllocError> {
    let written = session_written(alloc)?;
    Ok(match outputs {
        [bare, met] => {
            is_output(bare, 449, &written, PLAIN_REPORT)
                && is_output(met, 164, &RESET, REFUSED_LINE)
        }
        _ => false,
    })
}

// Whether a text of the plain session answers two outputs under `[]` and a disabled proxy for the host `web`.
fn is_answered<R: Threads + Wait + Sync>(
    rt: &R,
    alloc: Global,
    text: &[u8],
) -> Result<bool, RunFault> {
    let texts = [b"[]".as_slice(), NAMED.as_bytes()];
    let outputs = answered(rt, alloc, text, &texts)?;
    Ok(are_answers(alloc, outputs.as_slice())?)
}

// The hexadecimal digits of some bytes.
pub fn dump(alloc: Global, bytes: &[u8]) -> Result<String, AllocError> {
    let mut text = String::new(alloc);
    for byte in bytes {
        text.push_str(&format!(in alloc; "{byte:02x}")?)?;
    }
    Ok(text)
}

fn check_answered(rt: &(impl Abort + AllocGlobal + Threads + Wait + Sync), row: &str, text: &[u8]) {
    let good = is_answered(rt, rt.alloc(), text) == Ok(true);
    assert!(rt; good, "{row}");
}

#[test]
fn scenarios_of_a_dump_in_order(rt: HostRuntime) {
    let text = dump(rt.alloc(), &PLAIN_SESSION).expect(&rt, "memory");
    check_answered(&rt, "a capture", &PLAIN_SESSION);
    check_answered(&rt, "its dump", text.as_bytes());
}

// Whether a capture's text under texts of scenarios is refused with this line; where the line is empty, it answers no output.
fn is_told<R: Threads + Wait + Sync>(
    rt: &R,
    alloc: Global,
    text: &[u8],
    texts: &[&[u8]],
    line: &str,
) -> Result<bool, AllocError> {
    match answered(rt, alloc, text, texts) {
        Ok(outputs) => Ok(line == "" && outputs.as_slice().is_empty()),
        Err(fault) => Ok(fault_line(alloc, &fault)?.as_str() == line),
    }
}

#[test]
fn no_scenario_gives_no_output(rt: HostRuntime) {
    let good = is_told(&rt, rt.alloc(), &PLAIN_SESSION, &[], "") == Ok(true);
    assert!(rt; good);
}

// A capture's text under two texts of scenarios, of which the first is `[]`, is refused with this line.
fn check_refused(
    rt: &(impl Abort + AllocGlobal + Threads + Wait + Sync),
    text: &str,
    second: &str,
    line: &str,
) {
    let texts = [b"[]".as_slice(), second.as_bytes()];
    let good = is_told(rt, rt.alloc(), text.as_bytes(), &texts, line) == Ok(true);
    assert!(rt; good, "{line}");
}

// The dump's fault, then the first scenario's, then the capture's.
#[test]
fn the_first_refusal_counts(rt: HostRuntime) {
    let unknown = "[{\"name\":\"a\",\"upstream\":\"redis:80\"}]";
    let toxic =
        "[{\"name\":\"a\",\"upstream\":\"web:80\"},{\"name\":\"b\",\"upstream\":\"web:80\",\"toxics\":[{}]}]";
    check_refused(&rt, "d4 zz", unknown, "refused 55 BadDump at 3");
    check_refused(
        &rt,
        "d4c3",
        unknown,
        "refused 15 UnknownHost scenario 1 proxy 0",
    );
    check_refused(
        &rt,
        "d4c3",
        toxic,
        "refused 12 BadMember scenario 1 proxy 1 toxic 0",
    );
    check_refused(&rt, "d4c3", "{}", "refused 11 NotArray scenario 1");
    check_refused(&rt, "d4c3", "[]", "refused 1 ShortHeader");
}
