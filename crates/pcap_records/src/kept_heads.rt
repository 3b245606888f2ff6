//! The heads that were kept of a file, and the capture that they are.
ghost use Rattle.std.specs.Prelude.{◌≡◌, ◌≤◌, IfOk};
ghost use Rattle.pcap_records.specs.Instants.{ticks_of};
ghost use Rattle.pcap_records.specs.Reading.{capture_limit};
ghost use Rattle.pcap_records.specs.HeadLists.{AreKept, heads_kept};

use crate::capture::{Capture, Record};
use crate::file_bytes::FileBytes;
use crate::head_list::HeadList;
use crate::heading::Heading;
use std::alloc::AllocError;
use std::marker::Model;

/// The heads of a file's packets. Contracts see the ticks of a second, the heads, and the number of bytes after the last whole record.
#[derive(Drop)]
pub struct KeptHeads {
    bytes: Vec<u8>,
    records: HeadRecords,
}

impl Model for KeptHeads {
    ghost use Rattle.pcap_records.specs.CaptureView.{IsSoundCapture, contents_of};
    ghost use Rattle.pcap_records.specs.Heads.{Heads, heads_of};

    ghost Value = { Heads };

    ghost view = { λ h. heads_of (contents_of (record {
      bytes = h.bytes.items;
      ticks = h.records.ticks;
      order = h.records.order;
      records = h.records.records;
      rest = h.records.rest;
    })) };

    ghost invariant = { λ h. IsSoundCapture h.records.ticks h.bytes.items h.records.records };
}

impl KeptHeads {
    ghost use Rattle.pcap_records.specs.Heads.{AreRecordsOf};

    /// The bytes that hold the heads, and records over them with full lengths.
    /// Only the first bytes of a packet ([`head_len`](crate::head_len)) are its own. Those after them may be anything.
    pub fn split(self) -> (Vec<u8>, HeadRecords)
        ensures { AreRecordsOf self result.0.items result.1 }
    {
        let KeptHeads { bytes, records } = self;
        (bytes, records)
    }
}

/// The records of heads: where each packet's first bytes lie in some bytes, with what else a capture has.
#[derive(Drop)]
pub struct HeadRecords {
    heading: Heading,
    records: Vec<Record>,
    rest: u32,
}

impl Model for HeadRecords {
    ghost use Rattle.pcap_records.specs.Heads.{HeadRecordsView};
    ghost use Rattle.pcap_records.specs.Instants.{ticks_of};

    ghost Value = { HeadRecordsView };

    ghost view = { λ r. record {
      ticks = ticks_of r.heading.unit;
      order = r.heading.order;
      records = r.records.items;
      rest = r.rest;
    } };
}

impl HeadRecords {
    ghost use Rattle.pcap_records.specs.CaptureView.{IsSoundCapture};

    /// The capture of these records over `bytes`.
    pub fn over<'a>(self, bytes: &'a [u8]) -> Capture<'a>
        requires { IsSoundCapture self.ticks bytes.now self.records }
        ensures { result ≡ record { bytes = bytes.now; ticks = self.ticks; order = self.order; records = self.records; rest = self.rest } }
    {
        let HeadRecords {
            heading,
            records,
            rest,
        } = self;
        Capture::of_records(FileBytes::Whole(bytes), heading, records, rest)
    }
}

// The heads of a list, which `rest` bytes of the file follow. Its bytes are extended so that each packet lies within them.
pub(crate) fn heads_of_list(
    list: HeadList,
    heading: Heading,
    rest: u32,
) -> Result<KeptHeads, AllocError>
    requires kept { AreKept (ticks_of heading.unit) list }
    requires limited { list.taken ≤ capture_limit }
    ensures { IfOk result (λ heads. heads ≡ record { ticks = ticks_of heading.unit; packets = heads_kept list; rest = rest }) }
{
    let HeadList {
        mut bytes,
        records,
        need,
        ..
    } = list;
    bytes.resize(bytes.len().max(need), 0)?;
    Ok(KeptHeads {
        bytes,
        records: HeadRecords {
            heading,
            records,
            rest,
        },
    })
}
