//! The limit of the number of scenarios, and an output of over ten million bytes.
use super::rehearsed::{rehearsed_by, scenarios_of};
use std::alloc::{AllocError, AllocGlobal, Global};
use std::process::Abort;
use std::sync::Wait;
use std::thread::Threads;
use toxicap::{Plan, RunFault, Through, rehearse};
use worked_sessions::sessions::{CLIENT, PLAIN_SESSION, PSH, SERVER, SYN, file, put, segment};
use worked_sessions::written_frames::session_written;

// The number of outputs of a capture under `many` scenarios, each with the plain session's capture.
fn outputs_under<R: Threads + Wait + Sync>(
    rt: &R,
    alloc: Global,
    bytes: &[u8],
    many: usize,
) -> Result<usize, RunFault> {
    let texts = ["[]"; 257];
    let scenarios = scenarios_of(alloc, &texts[..texts.len().min(many)])?;
    let plan = Plan::new(16, 1).ok_or(RunFault::Memory)?;
    let outputs = rehearse(rt, alloc, bytes, &scenarios, 7, plan, &Through)?;
    let written = session_written(alloc)?;
    for output in outputs.as_slice() {
        if output.capture.as_slice() != written.as_slice() {
            return Ok(usize::MAX);
        }
    }
    Ok(outputs.as_slice().len())
}

// A capture under `many` scenarios gives what is expected: a number of outputs, or a refusal.
fn check_scenarios(
    rt: &(impl Abort + AllocGlobal + Threads + Wait + Sync),
    bytes: &[u8],
    many: usize,
    expected: Result<usize, RunFault>,
) {
    let good = outputs_under(rt, rt.alloc(), bytes, many) == expected;
    assert!(rt; good, "{many} scenarios");
}

#[test]
fn too_many_scenarios_and_none(rt: HostRuntime) {
    check_scenarios(&rt, b"", 257, Err(RunFault::TooManyScenarios));
    check_scenarios(&rt, b"", 256, Err(RunFault::ShortHeader));
    check_scenarios(&rt, &PLAIN_SESSION, 256, Ok(256));
    check_scenarios(&rt, &PLAIN_SESSION, 0, Ok(0));
}

// An opening, and 100 segments of 1,460 bytes, a second after one another.
fn many_bytes(alloc: Global) -> Result<Vec<u8>, AllocError> {
    let opening = segment((0, 0), CLIENT, SERVER, SYN, (0, 0), b"");
    let mut bytes = file(alloc, true, &[opening])?;
    for second in 0..100 {
        let seq = 1 + 1460 * second;
        let data = segment((second, 0), CLIENT, SERVER, PSH, (seq, 1), &[7; 1460]);
        put(&mut bytes, true, &data)?;
    }
    Ok(bytes)
}

// A slicer that writes each byte of the client by itself, a microsecond after the one before.
const SLICED: &str =
    "[{\"name\":\"web\",\"upstream\":\"10.0.0.2:80\",\"toxics\":[{\"type\":\"slicer\",\"stream\":\"upstream\",\"attributes\":{\"average_size\":1,\"delay\":1}}]}]";

// Whether these bytes are written one by one.
fn are_sliced<R: Threads + Wait + Sync>(rt: &R, alloc: Global) -> Result<bool, RunFault> {
    let bytes = many_bytes(alloc)?;
    let scenarios = scenarios_of(alloc, &[SLICED])?;
    let outputs = rehearsed_by(rt, alloc, &bytes, &scenarios, (2, 64), &Through)?;
    let [output] = outputs.as_slice() else {
        return Ok(false);
    };
    let end = "proxy 0 up 146000/146000/0 open max 1459 down 0/0/0 open max 0\n";
    let whole = output.capture.as_slice().len() == 24 + 3 * 70 + 146_000 * 71;
    Ok(whole && output.report.as_slice().ends_with(end.as_bytes()))
}

// A body that is out of memory at this number of segments, or at an output of this length, keeps every clause: it fails here.
#[test]
fn ten_million_bytes_of_output(rt: HostRuntime) {
    let good = are_sliced(&rt, rt.alloc()) == Ok(true);
    assert!(rt; good);
}
