//! Heads of packets, one after another in one buffer.
ghost use Rattle.std.specs.Prelude.{◌+◌, ◌-◌, ◌≤◌, length, drop, OnOk, OnErr};
ghost use Rattle.pcap_records.specs.CaptureView.{heading_of};
ghost use Rattle.pcap_records.specs.Instants.{ticks_of};
ghost use Rattle.pcap_records.specs.Reading.{capture_limit, record_header_len};
ghost use Rattle.pcap_records.specs.Heads.{Takes};
ghost use Rattle.pcap_records.specs.HeadLists.{IsGrownBy, IsAsBefore, AreKept, IsStop, seen};
ghost use Rattle.pcap_records.specs.declared.heads.State.TheVariants.{Records};

use crate::capture::Record;
use crate::file_bytes::FileBytes;
use crate::heading::Heading;
use crate::packet_heads::head_len;
use crate::reader::{Found, RECORD_HEADER_LEN, found_at};
use std::alloc::AllocError;

/// The heads of the first part of a file.
#[derive(Drop)]
pub(crate) struct HeadList {
    /// The first bytes of each packet, one after another.
    pub bytes: Vec<u8>,
    /// A record for each packet, with its full length, and its start in `bytes`.
    pub records: Vec<Record>,
    /// The number of bytes that `bytes` needs for each packet to lie in it at its start with its full length.
    pub need: usize,
    /// The number of bytes of the file that were taken.
    pub taken: usize,
}

/// Why no further record was taken.
#[derive(Clone, Copy)]
pub(crate) enum Stop {
    /// At most a part of a record follows.
    Torn,
    /// A record follows that announces too long a packet.
    TooLong,
    NoMemory,
}

// Takes the whole records with which these bytes begin.
pub(crate) fn take_records(list: &mut HeadList, heading: Heading, bytes: &[u8]) -> Stop
    requires kept { AreKept (ticks_of heading.unit) list.old }
    requires limited { list.old.taken + length bytes.now ≤ capture_limit }
    ensures kept { AreKept (ticks_of heading.unit) list.new }
    ensures takes { Takes (seen (Records heading) list.old) (seen (Records heading) list.new) bytes.now }
    ensures stop { IsStop (heading_of heading) (drop (list.new.taken - list.old.taken) bytes.now) result }
{
    let mut at = 0;
    'records: loop {
        match found_at(heading, FileBytes::Whole(bytes), at) {
            Found::Torn => return Stop::Torn,
            Found::TooLong => return Stop::TooLong,
            Found::Whole(record) => {
                at += RECORD_HEADER_LEN + record.len as usize;
                let Ok(()) = push_head(list, bytes, record) else {
                    return Stop::NoMemory;
                };
            }
        }
    }
}

// Takes a record of these bytes and keeps its head. If it is out of memory, the list stays as it was.
fn push_head(list: &mut HeadList, bytes: &[u8], read: Record) -> Result<(), AllocError>
    requires within { read.start + read.len ≤ length bytes.now }
    requires kept { length list.old.bytes.items ≤ list.old.taken }
    requires limited { list.old.taken + record_header_len + read.len ≤ capture_limit }
    ensures ok { OnOk result (IsGrownBy bytes.now read list.old list.new) }
    ensures err { OnErr result (IsAsBefore list.old list.new) }
{
    let start = list.bytes.len();
    let len = read.len as usize;
    let first = read.start as usize;
    let packet = &bytes[first..first + len];
    list.bytes
        .extend_from_slice(&packet[..head_len(packet).min(len)])?;
    let kept = Record {
        stamp: read.stamp,
        start: start as u32,
        len: read.len,
    };
    let Ok(()) = list.records.push(kept) else {
        list.bytes.truncate(start);
        return Err(AllocError);
    };
    list.need = list.need.max(start + len);
    list.taken += RECORD_HEADER_LEN + len;
    Ok(())
}
