//! Heads of captures that are handed over in parts.
use super::captures::{LITTLE, put_record_header};
use super::checks::check;
use pcap_records::{
    CAPTURE_LIMIT, Capture, CaptureFault, HeadReader, KeptHeads, Order, head_len, read_capture,
};
use std::alloc::{AllocError, AllocGlobal, Global};
use std::process::Abort;
use worked_sessions::sessions::PLAIN_SESSION;

// The heads of a file that is handed over in parts of `part` bytes. Each part begins with what was left of the one before.
fn heads_by(alloc: Global, file: &[u8], part: usize) -> Result<KeptHeads, CaptureFault> {
    let mut reader = HeadReader::new(alloc);
    for step in 0..file.len() {
        let to = part.saturating_mul(step + 1).min(file.len());
        let from = reader.taken();
        if from <= to && to <= CAPTURE_LIMIT {
            reader.take(&file[from..to])?;
        }
    }
    let from = reader.taken();
    if from > file.len() || file.len() > CAPTURE_LIMIT {
        return Err(CaptureFault::CaptureTooLong);
    }
    reader.finish(&file[from..])
}

// Whether two packets are as long and begin with the same head.
fn are_alike(one: &[u8], other: &[u8]) -> bool {
    let len = one.len().min(head_len(one));
    one.len() == other.len() && one.get(..len) == other.get(..len)
}

// Whether a capture of heads has the records of a capture, and its packets the same lengths and heads.
fn has_heads(heads: &Capture<'_>, whole: &Capture<'_>) -> bool {
    let count = whole.records().len();
    if heads.records().len() != count || heads.rest() != whole.rest() {
        return false;
    }
    let mut alike = heads.unit() == whole.unit() && heads.order() == whole.order();
    for i in 0..count {
        alike = alike
            && heads.records()[i].stamp == whole.records()[i].stamp
            && are_alike(heads.packet(i), whole.packet(i));
    }
    alike
}

// Checks that a file in parts of `part` bytes has the heads of its packets.
fn check_heads(rt: &(impl Abort + AllocGlobal), file: &[u8], part: usize) {
    let whole = read_capture(rt.alloc(), file).expect(rt, "a capture");
    let (bytes, records) = heads_by(rt.alloc(), file, part).expect(rt, "heads").split();
    let heads = records.over(&bytes);
    check(rt, "heads", has_heads(&heads, &whole));
}

// The three bytes of a packet from its Ethernet header's type on: where IPv4's header has no options, and others.
const USUAL: [u8; 3] = [0x08, 0x00, 0x45];

const OTHER: [u8; 3] = [0x08, 0x00, 0x46];

// A file of a record with a packet of each of these lengths, which is its second too, and whose bytes count up but for its type and the
// byte after it; then a part of one more.
fn file_of(alloc: Global, lens: &[u32], marks: [u8; 3]) -> Result<Vec<u8>, AllocError> {
    let mut file = Vec::from_slice(alloc, &LITTLE)?;
    for len in lens {
        put_record_header(&mut file, Order::Little, (*len, 7), *len)?;
        for i in 0..*len {
            file.push(match i {
                12 => marks[0],
                13 => marks[1],
                14 => marks[2],
                _ => (i % 251) as u8,
            })?;
        }
    }
    file.extend_from_slice(&[1, 2, 3])?;
    Ok(file)
}

#[test]
fn the_plain_session_in_parts(rt: HostRuntime) {
    check_heads(&rt, &PLAIN_SESSION, 1);
    check_heads(&rt, &PLAIN_SESSION, 60);
    check_heads(&rt, &PLAIN_SESSION, 1000);
}

// Packets of fewer bytes than a head has, of as many, of one more, and of many more.
#[test]
fn packets_in_parts(rt: HostRuntime) {
    let lens = [0, 1, 14, 15, 47, 48, 49, 97, 98, 99, 1514, 5000, 3];
    for marks in [USUAL, OTHER] {
        let file = file_of(rt.alloc(), &lens, marks).expect(&rt, "memory");
        check_heads(&rt, &file, 1);
        check_heads(&rt, &file, 113);
        check_heads(&rt, &file, 100_000);
    }
}

// 14 bytes of Ethernet, 20 of IPv4 and 14 of TCP; or at most 18, 60 and 20. A packet without the byte after its type is any other.
#[test]
fn lengths_of_heads(rt: HostRuntime) {
    let mut packet = [0; 60];
    packet[12..15].copy_from_slice(&USUAL);
    check(&rt, "usual", head_len(&packet) == 48);
    check(&rt, "cut", head_len(&packet[..14]) == 98);
    packet[12..15].copy_from_slice(&OTHER);
    check(&rt, "options", head_len(&packet) == 98);
    packet[12..15].copy_from_slice(&[0x81, 0x00, 0x45]);
    check(&rt, "a tag", head_len(&packet) == 98);
}

// Some thousand packets, of which each is handed over in two parts or more.
#[test]
fn many_packets_in_parts(rt: HostRuntime) {
    let lens = [150; 3000];
    let file = file_of(rt.alloc(), &lens, OTHER).expect(&rt, "memory");
    check_heads(&rt, &file, 99);
}

// The second record announces a byte more than a packet may have, and another follows that does too.
#[test]
fn too_long_a_packet_in_parts(rt: HostRuntime) {
    let mut file = file_of(rt.alloc(), &[9], OTHER).expect(&rt, "memory");
    file.truncate(file.len().saturating_sub(3));
    put_record_header(&mut file, Order::Little, (1, 1), 262_145).expect(&rt, "memory");
    put_record_header(&mut file, Order::Little, (1, 1), 262_146).expect(&rt, "memory");
    let one = heads_by(rt.alloc(), &file, 1);
    check(
        &rt,
        "by one",
        matches!(one, Err(CaptureFault::RecordTooLong { at: 1 })),
    );
    let all = heads_by(rt.alloc(), &file, 1000);
    check(
        &rt,
        "at once",
        matches!(all, Err(CaptureFault::RecordTooLong { at: 1 })),
    );
}

#[test]
fn headers_in_parts(rt: HostRuntime) {
    let short = heads_by(rt.alloc(), &LITTLE[1..], 5);
    check(
        &rt,
        "23 bytes",
        matches!(short, Err(CaptureFault::ShortHeader)),
    );
    let none = heads_by(rt.alloc(), &[], 5);
    check(&rt, "none", matches!(none, Err(CaptureFault::ShortHeader)));
    let bad = heads_by(rt.alloc(), &[0x61; 40], 7);
    check(
        &rt,
        "40 letters",
        matches!(bad, Err(CaptureFault::BadMagic)),
    );
}
