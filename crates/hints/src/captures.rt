//! What helps if a capture was refused.
ghost use Rattle.std.specs.Prelude.{IfOk};
ghost use Rattle.std.specs.String.{string_bytes};
ghost use Rattle.hints.specs.Hints.{IsAbout};

use crate::lines::{Said, Speaker, about};
use run_files::{RunFault, is_dump};
use std::alloc::Global;

/// What helps if the capture was refused by this fault, which is not of a scenario or a host. `capture` has its bytes: at least its first 24,
/// if it has as many, and all of a dump that is broken if they can be known.
pub fn capture_hint(
    alloc: Global,
    speaker: Speaker,
    name: &str,
    capture: &[u8],
    fault: &RunFault,
) -> Said
    ensures { IfOk result (λ line. IsAbout name.now (string_bytes line)) }
{
    let hint = match fault {
        RunFault::BadMagic => by_command(alloc, capture, magic_fault(speaker, capture))?,
        RunFault::BadVersion => {
            let fault =
                "is of another pcap version than 2.4: editcap -F pcap IN OUT writes it again";
            by_command(alloc, capture, fault)?
        }
        RunFault::BadLink => link_hint(alloc, capture)?,
        RunFault::RecordTooLong { at } => record_hint(alloc, capture, *at)?,
        RunFault::BadDump { at } => dump_hint(alloc, capture, *at)?,
        _ => String::from_str(alloc, length_fault(fault, capture))?,
    };
    about(alloc, name, "", &hint)
}

fn length_fault(fault: &RunFault, capture: &[u8]) -> &'static str {
    match (fault, is_dump(capture)) {
        (RunFault::CaptureTooLong, true) =>
            "is a dump, and has more than 2^30 bytes: xxd -r -p IN OUT makes a file of it, of half its length at most",
        (RunFault::CaptureTooLong, false) =>
            "has more than 2^30 bytes: tshark -r IN -Y 'tcp.port == 6379' -F pcap -w OUT keeps what matters",
        (_, true) =>
            "is read as a dump, by its first byte, of fewer than 24 bytes: the recording was stopped too early, or it is another file",
        (_, false) =>
            "has fewer than 24 bytes: the recording was stopped too early, or it is another file",
    }
}

// What is wrong with a capture that begins with no magic number, and the command that helps.
fn magic_fault(speaker: Speaker, capture: &[u8]) -> &'static str {
    match capture {
        [b'[' | b'{', ..] => speaker.says(
            "is JSON, by its first byte: give it by --scenario",
            "is JSON, by its first byte: give it as a scenario",
        ),
        [0x0a, 0x0d, 0x0d, 0x0a, ..] => "is a pcapng file: editcap -F pcap IN OUT converts it",
        [0x1f, 0x8b, ..] => "is gzipped: gunzip -c IN > OUT unzips it",
        _ => "is no classic pcap: editcap -F pcap IN OUT writes one of most captures",
    }
}

// A fault and the command that helps. The command reads no dump, only the file that is made of it.
fn by_command(alloc: Global, capture: &[u8], text: &str) -> Said {
    match text.split_once(": ") {
        Some((fault, command)) if is_dump(capture) =>
            say!(alloc; "is a dump, and {fault}: xxd -r -p IN OUT makes a file of it first, then {command}"),
        _ => String::from_str(alloc, text),
    }
}

fn record_hint(alloc: Global, capture: &[u8], at: u32) -> Said {
    if at == 0 {
        return say!(alloc; "is damaged where its first record begins: record it again");
    }
    let fault =
        say!(alloc; "is damaged where record {at} begins: editcap -F pcap -r IN OUT 1-{at} keeps what is before")?;
    by_command(alloc, capture, &fault)
}

fn dump_hint(alloc: Global, capture: &[u8], at: usize) -> Said {
    let before = capture.get(..at).unwrap_or(&[]);
    let fault = if before.is_empty() {
        say!(alloc; "byte {at} is no hexadecimal digit, or its last byte has but one")?
    } else if before.len() == capture.len() {
        say!(alloc; "its last byte has but one hexadecimal digit")?
    } else {
        let line = before.split(|byte| *byte == b'\n').count();
        let last = before.rsplit(|byte| *byte == b'\n').next().unwrap_or(&[]);
        let column = last.len().saturating_add(1);
        say!(alloc; "no hexadecimal digit is at line {line} column {column}")?
    };
    say!(alloc; "is read as a dump, by its first byte, and {fault}: give a pcap file, or a dump as xxd -p IN OUT makes it")
}

fn link_hint(alloc: Global, capture: &[u8]) -> Said {
    let link = capture.get(20..).unwrap_or(&[]);
    let link = match (unit_of(capture), link.first_chunk::<4>()) {
        (Some(_), Some(link)) if capture.starts_with(&[0xa1]) => u32::from_be_bytes(*link),
        (Some(_), Some(link)) => u32::from_le_bytes(*link),
        _ =>
            return say!(alloc; "is not of Ethernet: record on one Ethernet interface, tcpdump -i eth0, not any"),
    };
    if matches!(link, 113 | 276) {
        return say!(alloc; "is an \"any\" capture (link type {link}): record on one interface, tcpdump -i eth0, not any");
    }
    if matches!(link, 105 | 119 | 127 | 163) {
        return say!(alloc; "was recorded in monitor mode (link type {link}): record without it, as Ethernet, tcpdump without -I");
    }
    say!(alloc; "is of link type {link}, and Ethernet, 1, is expected: record on an Ethernet interface")
}

/// The unit of the times of a capture that begins with these bytes, if they are a magic number.
pub fn unit_of(capture: &[u8]) -> Option<&'static str> {
    match capture {
        [0xa1, 0xb2, 0xc3, 0xd4, ..] | [0xd4, 0xc3, 0xb2, 0xa1, ..] => Some("microseconds"),
        [0xa1, 0xb2, 0x3c, 0x4d, ..] | [0x4d, 0x3c, 0xb2, 0xa1, ..] => Some("nanoseconds"),
        _ => None,
    }
}
