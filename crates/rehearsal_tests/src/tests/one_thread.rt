//! Rehearsals by one thread alone, of inputs that are read of texts, with values from outside.
use super::answering::{BOTH, NAMED, REFUSED_LINE, are_answers, dump};
use super::captures::PLAIN_REPORT;
use laid_lines::{LaidLines, ToxicapChunk, ToxicapDirection};
use pcap_records::Values;
use run_files::Text;
use scenarios::Hosts;
use std::alloc::{AllocGlobal, Global};
use std::process::Abort;
use toxicap::{
    RunFault, effects_alone, fault_line, lines_alone, read_host_lines, read_inputs, rehearse_alone,
    reports_alone,
};
use worked_sessions::sessions::PLAIN_SESSION;

// The host that `NAMED` names.
const HOSTS: &[u8] = b"other=10.0.0.9\nweb=10.0.0.2\n";

// Whether reports are those of the plain session under `[]` and a disabled proxy for its server.
fn are_reports(reports: &[u8]) -> bool {
    match reports.strip_prefix(PLAIN_REPORT.as_bytes()) {
        Some(second) => {
            second.starts_with(b"scenario 1 records 7 rest 0 segment 7 ")
                && second.ends_with(REFUSED_LINE.as_bytes())
        }
        None => false,
    }
}

fn direction(bytes: u64, chunks: u64, end_time: u64, end: u64) -> ToxicapDirection {
    ToxicapDirection {
        bytes,
        chunks,
        end_time,
        end,
    }
}

// Whether these are their lines: a greeting, a FIN of each side, and a connection that is refused.
fn are_lines(lines: &LaidLines<'_>) -> bool {
    let hello = ToxicapChunk {
        end: 5,
        time: 1_000_000,
    };
    let none = direction(0, 0, 0, 4);
    match (lines.pieces.as_slice(), lines.connections.as_slice()) {
        ([greeting], [bare, met]) => {
            *greeting == b"hello".as_slice()
                && lines.chunks.as_slice() == [hello].as_slice()
                && bare.opened == 1_000_000_000
                && (bare.client_port, bare.server_port, bare.vlan) == (40000, 80, 0)
                && bare.up == direction(5, 1, 2_000_000, 1)
                && bare.down == direction(0, 0, 3_000_000, 1)
                && (met.up, met.down) == (none, none)
        }
        _ => false,
    }
}

// Whether a text of the plain session answers `[]` and another scenario, with the host that `NAMED` names.
fn is_answered(alloc: Global, text: &[u8], second: &str) -> Result<bool, RunFault> {
    let hosts = read_host_lines(alloc, HOSTS)?;
    let texts = [b"[]".as_slice(), second.as_bytes()];
    let inputs = read_inputs(alloc, Text::lent(text), &texts, &hosts, 7)?;
    let outputs = rehearse_alone(alloc, &inputs)?;
    let reports = reports_alone(alloc, &inputs)?;
    let lines = lines_alone(alloc, &inputs)?;
    let are_all = are_reports(reports.as_slice()) && are_lines(&lines);
    Ok(are_answers(alloc, outputs.as_slice())? && are_all)
}

fn check_answered(rt: &(impl Abort + AllocGlobal), row: &str, text: &[u8], second: &str) {
    let good = is_answered(rt.alloc(), text, second) == Ok(true);
    assert!(rt; good, "{row}");
}

#[test]
fn texts_by_one_thread(rt: HostRuntime) {
    let text = dump(rt.alloc(), &PLAIN_SESSION).expect(&rt, "memory");
    check_answered(&rt, "a capture", &PLAIN_SESSION, BOTH);
    check_answered(&rt, "a capture, and a name", &PLAIN_SESSION, NAMED);
    check_answered(&rt, "its dump", text.as_bytes(), NAMED);
}

// The server of the plain session sends no byte. Of two proxies before it the first is met.
const TOXICS: &str =
    "[{\"name\":\"a\",\"upstream\":\"10.0.0.2:80\",\"toxics\":[{\"type\":\"limit_data\"},{\"type\":\"latency\",\"stream\":\"upstream\",\"attributes\":{\"latency\":5}},{\"type\":\"timeout\",\"toxicity\":0}]},{\"name\":\"b\",\"upstream\":\"10.0.0.2:80\",\"toxics\":[{\"type\":\"timeout\"}]}]";

// What the toxics of the plain session's proxies do under `[]` and these.
fn counts(alloc: Global) -> Result<Values<u64>, RunFault> {
    let texts = [b"[]".as_slice(), TOXICS.as_bytes()];
    let inputs = read_inputs(
        alloc,
        Text::lent(&PLAIN_SESSION),
        &texts,
        &Hosts::new(alloc),
        7,
    )?;
    effects_alone(alloc, &inputs)
}

#[test]
fn effects_by_one_thread(rt: HostRuntime) {
    let expected = [1, 1, 1, 1, 0, 0, 0, 0, 0, 0];
    let good = match counts(rt.alloc()) {
        Ok(counts) => counts.as_slice() == expected.as_slice(),
        Err(_) => false,
    };
    assert!(rt; good);
}

// Whether an answer is refused with this line.
fn is_refused<T>(alloc: Global, answer: &Result<T, RunFault>, line: &str) -> bool {
    match answer {
        Ok(_) => false,
        Err(fault) => match fault_line(alloc, fault) {
            Ok(told) => told.as_str() == line,
            Err(_) => false,
        },
    }
}

// Whether a text under texts of scenarios, with no known host, is refused with this line, or each call of what is read of them is.
fn is_told(alloc: Global, text: &[u8], texts: &[&[u8]], line: &str) -> bool {
    let read = read_inputs(alloc, Text::lent(text), texts, &Hosts::new(alloc), 7);
    let Ok(inputs) = &read else {
        return is_refused(alloc, &read, line);
    };
    is_refused(alloc, &rehearse_alone(alloc, inputs), line)
        && is_refused(alloc, &reports_alone(alloc, inputs), line)
        && is_refused(alloc, &lines_alone(alloc, inputs), line)
        && is_refused(alloc, &effects_alone(alloc, inputs), line)
}

fn check_told(rt: &(impl Abort + AllocGlobal), text: &[u8], texts: &[&[u8]], line: &str) {
    let good = is_told(rt.alloc(), text, texts, line);
    assert!(rt; good, "{line}");
}

#[test]
fn refusals_by_one_thread(rt: HostRuntime) {
    let named = [b"[]".as_slice(), NAMED.as_bytes()];
    let unknown = "refused 15 UnknownHost scenario 1 proxy 0";
    check_told(&rt, b"d4 zz", &named, "refused 55 BadDump at 3");
    check_told(&rt, b"d4c3", &named, unknown);
    check_told(&rt, b"d4c3", &[], "refused 1 ShortHeader");
}

// The lines of a text are refused at this one, from 0; `None` where they are taken.
fn check_hosts(rt: &(impl Abort + AllocGlobal), row: &str, text: &[u8], expected: Option<usize>) {
    let good = match read_host_lines(rt.alloc(), text) {
        Ok(_) => expected == None,
        Err(RunFault::BadHost { at }) => expected == Some(at),
        Err(_) => false,
    };
    assert!(rt; good, "{row}");
}

#[test]
fn lines_of_hosts(rt: HostRuntime) {
    let twice = b"web=10.0.0.2\nweb=10.0.0.3\n";
    check_hosts(&rt, "no line", b"", None);
    check_hosts(&rt, "two lines", HOSTS, None);
    check_hosts(&rt, "no line feed", b"web=10.0.0.2", None);
    check_hosts(&rt, "an empty line", b"\n", Some(0));
    check_hosts(&rt, "an empty last line", b"web=10.0.0.2\n\n", Some(1));
    check_hosts(&rt, "no text", b"web=10.0.0.2\nw\xffb=10.0.0.3\n", Some(1));
    check_hosts(&rt, "a name twice", twice, Some(1));
}
