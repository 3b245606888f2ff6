//! A file that was read, and where its records lie.
use crate::file_bytes::FileBytes;
use crate::heading::{Heading, Order};
use crate::moment::Moment;
use crate::unit::Unit;
use std::alloc::{AllocError, Global};
use std::marker::Model;

/// A record of a file, in sixteen bytes: its stamp, and where its packet lies.
#[derive(Clone, Copy, Debug, PartialEq, Eq, Hash)]
pub struct Record {
    /// When the packet was captured, as the record says.
    pub stamp: Moment,
    /// The number of bytes of the file before the packet.
    pub start: u32,
    /// The number of bytes of the packet that the file holds.
    pub len: u32,
}

/// A capture: the records of a classic pcap file. Each packet is a slice of the file's bytes.
#[derive(Debug, Drop)]
pub struct Capture<'a> {
    bytes: FileBytes<'a>,
    order: Order,
    unit: Unit,
    records: Vec<Record>,
    rest: u32,
}

impl<'a> Model for Capture<'a> {
    ghost use Rattle.pcap_records.specs.CaptureView.{CaptureView, IsSoundCapture, bytes_of};
    ghost use Rattle.pcap_records.specs.Instants.{ticks_of};

    ghost Value = { CaptureView };

    ghost view = { λ c. record {
      bytes = bytes_of c.bytes;
      ticks = ticks_of c.unit;
      order = c.order;
      records = c.records.items;
      rest = c.rest;
    } };

    ghost invariant = { λ c. IsSoundCapture (ticks_of c.unit) (bytes_of c.bytes) c.records.items };
}

impl<'a> Capture<'a> {
    ghost use Rattle.std.specs.Prelude.{◌≡◌, ◌≤◌, ◌<◌, ◌-◌, length, Some, IfOk};
    ghost use Rattle.pcap_records.specs.CaptureView.{IsSoundCapture, bytes_of, packet_at, stamps_between};
    ghost use Rattle.pcap_records.specs.Instants.{greatest, instants, ticks_of};

    pub(crate) fn of_records(
        bytes: FileBytes<'a>,
        heading: Heading,
        records: Vec<Record>,
        rest: u32,
    ) -> Capture<'a>
        requires { IsSoundCapture (ticks_of heading.unit) (bytes_of bytes) records.items }
        ensures bytes { result.bytes ≡ bytes_of bytes.entry }
        ensures ticks { result.ticks ≡ ticks_of heading.unit }
        ensures order { result.order ≡ heading.order }
        ensures records { result.records ≡ records.items }
        ensures rest { result.rest ≡ rest }
    {
        Capture {
            bytes,
            order: heading.order,
            unit: heading.unit,
            records,
            rest,
        }
    }

    /// The order of the bytes in the file's fields.
    pub fn order(&self) -> Order
        ensures { result ≡ self.now.order }
    {
        self.order
    }

    /// The unit of the stamps.
    pub fn unit(&self) -> Unit
        ensures { ticks_of result ≡ self.now.ticks }
    {
        self.unit
    }

    /// The whole records, in the file's order. Their number is below 2^26.
    pub fn records(&self) -> &[Record]
        ensures records { result.now ≡ self.now.records }
        ensures sound { IsSoundCapture self.now.ticks self.now.bytes result.now }
    {
        &self.records
    }

    /// The number of bytes after the last whole record, which are the beginning of a torn one.
    pub fn rest(&self) -> u32
        ensures { result ≡ self.now.rest }
    {
        self.rest
    }

    /// The bytes of the packet of record `i`.
    pub fn packet(&self, i: usize) -> &'a [u8]
        requires { i < length self.now.records }
        ensures { packet_at self.now i ≡ Some result.now }
    {
        let record = self.records[i];
        self.bytes.slice(record.start as usize, record.len as usize)
    }

    /// The bytes of the file.
    pub fn bytes(&self) -> FileBytes<'a>
        ensures bytes { bytes_of result ≡ self.now.bytes }
        ensures sound { IsSoundCapture self.now.ticks self.now.bytes self.now.records }
    {
        self.bytes
    }

    /// For each record from `from` to below `to`: the greatest of `carry` and the stamps from record `from` to this one.
    /// If `carry` is the greatest stamp before `from`, that is the greatest stamp of the file so far.
    pub fn times(
        &self,
        alloc: Global,
        from: usize,
        to: usize,
        carry: Moment,
    ) -> Result<Vec<Moment>, AllocError>
        requires ordered { from ≤ to }
        requires within { to ≤ length self.now.records }
        ensures exact { IfOk result (λ times. times.items ≡ instants carry (stamps_between self.now from to)) }
        ensures len { IfOk result (λ times. length times.items ≡ to - from) }
    {
        let mut times = Vec::with_capacity(alloc, to - from)?;
        let mut greatest = carry;
        for record in &self.records[from..to] {
            greatest = greatest.greater(record.stamp);
            times.push(greatest)?;
        }
        Ok(times)
    }

    /// The greatest stamp of the records from `from` to below `to`, or 0 if there are none. It allocates nothing.
    pub fn peak(&self, from: usize, to: usize) -> Moment
        requires ordered { from ≤ to }
        requires within { to ≤ length self.now.records }
        ensures { result ≡ greatest (stamps_between self.now from to) }
    {
        let mut peak = Moment::first();
        for record in &self.records[from..to] {
            peak = peak.greater(record.stamp);
        }
        peak
    }
}
