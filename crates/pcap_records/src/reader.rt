//! Reading a whole file in one pass, record after record.
ghost use Rattle.std.specs.Prelude.{◌≡◌, ◌≤◌, ◌<◌, ◌*◌, length, drop, IfOk};
ghost use Rattle.pcap_records.specs.Reading.{reading, capture_limit, file_header_len, record_header_len, records_after, stamp_of};
ghost use Rattle.lists.specs.Agreement.{Agrees, Refuses};
ghost use Rattle.pcap_records.specs.CaptureView.{bytes_of, heading_of, reading_of, capture_refusal, IsSoundCapture};
ghost use Rattle.pcap_records.specs.Instants.{ticks_of};
ghost use Rattle.pcap_records.specs.FoundRecords.{listed_contents, IsFoundAt};

use crate::capture::{Capture, Record};
use crate::fault::CaptureFault;
use crate::file_bytes::FileBytes;
use crate::heading::{FILE_HEADER_LEN, Heading, read_heading};
use crate::moment::Moment;
use std::alloc::{AllocError, Global};

/// The length of a record's header, in bytes.
pub const RECORD_HEADER_LEN: usize = 16;

/// The greatest length of a packet, in bytes, which is libpcap's own limit.
pub const PACKET_LIMIT: u32 = 262_144;

/// The whole records of a file, and the number of bytes after them.
#[derive(Drop)]
pub(crate) struct RecordList {
    pub records: Vec<Record>,
    pub rest: u32,
}

/// Reads a classic pcap file (format 2.4) of at most 2^30 bytes, in one pass. Each packet is a slice of `bytes`.
/// It returns the first fault of the file, in the order of [`CaptureFault`], even if it is out of memory.
pub fn read_capture<'a>(alloc: Global, bytes: &'a [u8]) -> Result<Capture<'a>, CaptureFault>
    ensures exact { Agrees capture_refusal reading_of result (reading bytes.now) }
    ensures of { IfOk result (λ capture. capture.bytes ≡ bytes.now) }
{
    read_file(alloc, FileBytes::Whole(bytes))
}

/// Reads a classic pcap file as [`read_capture`] does, in one piece or in blocks.
pub fn read_file<'a>(alloc: Global, bytes: FileBytes<'a>) -> Result<Capture<'a>, CaptureFault>
    ensures exact { Agrees capture_refusal reading_of result (reading (bytes_of bytes.entry)) }
    ensures of { IfOk result (λ capture. capture.bytes ≡ bytes_of bytes.entry) }
{
    let heading = read_heading(bytes)?;
    let list = list_records(alloc, heading, bytes)?;
    Ok(Capture::of_records(bytes, heading, list.records, list.rest))
}

fn list_records(
    alloc: Global,
    heading: Heading,
    bytes: FileBytes<'_>,
) -> Result<RecordList, CaptureFault>
    requires header { file_header_len ≤ length (bytes_of bytes) }
    requires limited { length (bytes_of bytes) ≤ capture_limit }
    ensures exact { Agrees capture_refusal (listed_contents (ticks_of heading.unit) (bytes_of bytes.entry)) result
        (records_after 0 (heading_of heading) 0 (drop file_header_len (bytes_of bytes.entry))) }
    ensures sound { IfOk result (λ list. IsSoundCapture (ticks_of heading.unit) (bytes_of bytes.entry) list.records.items) }
{
    let mut records = Vec::new(alloc);
    let mut at = FILE_HEADER_LEN;
    'records: loop {
        match found_at(heading, bytes, at) {
            Found::Torn => {
                let rest = (bytes.len() - at) as u32;
                return Ok(RecordList { records, rest });
            }
            Found::TooLong => {
                let at = records.len() as u32;
                return Err(CaptureFault::RecordTooLong { at });
            }
            Found::Whole(record) => {
                at += RECORD_HEADER_LEN + record.len as usize;
                let count = records.len() as u32 + 1;
                let Ok(()) = records.push(record) else {
                    return Err(fault_after(heading, bytes, at, count));
                };
            }
        }
    }
}

// Called when record `count` - 1 finds no memory: a later record with a fault refuses the file, else it is out of memory.
fn fault_after(heading: Heading, bytes: FileBytes<'_>, at: usize, count: u32) -> CaptureFault
    requires inside { at ≤ length (bytes_of bytes) }
    requires limited { length (bytes_of bytes) ≤ capture_limit }
    requires header_each { record_header_len * count ≤ at }
    ensures { Refuses (capture_refusal result) (records_after 0 (heading_of heading) count (drop at (bytes_of bytes.entry))) }
{
    let mut at = at;
    let mut count = count;
    'records: loop {
        match found_at(heading, bytes, at) {
            Found::Torn => return CaptureFault::Memory(AllocError),
            Found::TooLong => return CaptureFault::RecordTooLong { at: count },
            Found::Whole(record) => {
                at += RECORD_HEADER_LEN + record.len as usize;
                count += 1;
            }
        }
    }
}

// The stamp in a record's header. Its ticks may be more than a second.
fn stamp_of(heading: Heading, header: &[u8]) -> Moment
    requires { record_header_len ≤ length header.now }
    ensures { result ≡ stamp_of (heading_of heading) header.now }
{
    let Heading { order, unit } = heading;
    let ticks = unit.seconds(order.u32_of(header)) + u64::from(order.u32_of(&header[4..]));
    Moment::of(ticks, unit)
}

/// What begins at a place of a file.
#[derive(Clone, Copy)]
pub(crate) enum Found {
    /// At most a part of a record.
    Torn,
    /// A header that announces too long a packet.
    TooLong,
    Whole(Record),
}

// What begins at `at`. The announced length is tested before the number of bytes that are there.
#[tactic(auto, unfolding(crate::specs::Reading::next_record))]
pub(crate) fn found_at(heading: Heading, bytes: FileBytes<'_>, at: usize) -> Found
    requires inside { at ≤ length (bytes_of bytes) }
    requires limited { length (bytes_of bytes) ≤ capture_limit }
    ensures { IsFoundAt (heading_of heading) (bytes_of bytes.entry) at result }
{
    let rest = bytes.len() - at;
    if rest < RECORD_HEADER_LEN {
        return Found::Torn;
    }
    let header = bytes.slice(at, RECORD_HEADER_LEN);
    let len = heading.order.u32_of(&header[8..]);
    if len > PACKET_LIMIT {
        return Found::TooLong;
    }
    if rest - RECORD_HEADER_LEN < len as usize {
        return Found::Torn;
    }
    Found::Whole(Record {
        stamp: stamp_of(heading, header),
        start: (at + RECORD_HEADER_LEN) as u32,
        len,
    })
}
