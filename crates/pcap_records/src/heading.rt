//! The file header: the order of the bytes in a file's fields, and the unit of its stamps.
ghost use Rattle.std.specs.Prelude.{◌≡◌, ◌≤◌, length, option_map, OnOk};
ghost use Rattle.pcap_records.specs.Reading.{capture_limit, checked_heading, file_header_len, file_heading, heading_by, magic_heading, number_in};
ghost use Rattle.pcap_records.specs.CaptureView.{bytes_of, heading_of, capture_refusal};
ghost use Rattle.pcap_records.specs.Instants.{ticks_of};
ghost use Rattle.lists.specs.Agreement.{AgreesWithoutMemory};

use crate::fault::CaptureFault;
use crate::file_bytes::FileBytes;
use crate::unit::Unit;
use byteorder::{BigEndian, ByteOrder, LittleEndian};

/// The greatest length of a capture, a dump or a scenario file, in bytes.
pub const CAPTURE_LIMIT: usize = 1 << 30;

/// The length of a file header, in bytes.
pub const FILE_HEADER_LEN: usize = 24;

const MAGIC: u32 = 0xa1b2_c3d4;

const NANOSECOND_MAGIC: u32 = 0xa1b2_3c4d;

// Ethernet frames without frame check sequences.
const ETHERNET: u32 = 1;

/// The order of the bytes in each field of a file.
#[derive(Clone, Copy, Debug, PartialEq, Eq, Hash)]
pub enum Order {
    /// The highest byte first: the file begins with `a1 b2 c3 d4` or `a1 b2 3c 4d`.
    Big,
    /// The lowest byte first: the file begins with `d4 c3 b2 a1` or `4d 3c b2 a1`.
    Little,
}

impl Order {
    pub(crate) fn u16_of(self, bytes: &[u8]) -> u16
        requires { 2 ≤ length bytes.now }
        ensures { result ≡ number_in self 2 bytes.now }
    {
        match self {
            Order::Big => BigEndian::read_u16(bytes),
            Order::Little => LittleEndian::read_u16(bytes),
        }
    }

    pub(crate) fn u32_of(self, bytes: &[u8]) -> u32
        requires { 4 ≤ length bytes.now }
        ensures { result ≡ number_in self 4 bytes.now }
    {
        match self {
            Order::Big => BigEndian::read_u32(bytes),
            Order::Little => LittleEndian::read_u32(bytes),
        }
    }
}

/// What the magic number says.
#[derive(Clone, Copy)]
pub(crate) struct Heading {
    pub order: Order,
    pub unit: Unit,
}

fn told(bytes: &[u8]) -> Option<Heading>
    requires { 4 ≤ length bytes.now }
    ensures { option_map heading_of result ≡ magic_heading bytes.now }
{
    told_by(MAGIC, Unit::Micros, bytes).or(told_by(NANOSECOND_MAGIC, Unit::Nanos, bytes))
}

fn told_by(magic: u32, unit: Unit, bytes: &[u8]) -> Option<Heading>
    requires { 4 ≤ length bytes.now }
    ensures { option_map heading_of result ≡ heading_by magic (ticks_of unit) bytes.now }
{
    if Order::Big.u32_of(bytes) == magic {
        let order = Order::Big;
        Some(Heading { order, unit })
    } else if Order::Little.u32_of(bytes) == magic {
        let order = Order::Little;
        Some(Heading { order, unit })
    } else {
        None
    }
}

#[tactic(auto, unfolding(crate::specs::Reading::file_heading))]
pub(crate) fn read_heading(bytes: FileBytes<'_>) -> Result<Heading, CaptureFault>
    ensures exact { AgreesWithoutMemory capture_refusal heading_of result (file_heading (bytes_of bytes.entry)) }
    ensures whole { OnOk result (file_header_len ≤ length (bytes_of bytes.entry)) }
    ensures limited { OnOk result (length (bytes_of bytes.entry) ≤ capture_limit) }
{
    if bytes.len() > CAPTURE_LIMIT {
        return Err(CaptureFault::CaptureTooLong);
    }
    if bytes.len() < FILE_HEADER_LEN {
        return Err(CaptureFault::ShortHeader);
    }
    heading_in(bytes.slice(0, FILE_HEADER_LEN))
}

fn heading_in(header: &[u8]) -> Result<Heading, CaptureFault>
    requires { file_header_len ≤ length header.now }
    ensures { AgreesWithoutMemory capture_refusal heading_of result (checked_heading (magic_heading header.now) header.now) }
{
    let Some(heading) = told(header) else {
        return Err(CaptureFault::BadMagic);
    };
    let order = heading.order;
    if order.u16_of(&header[4..]) != 2 || order.u16_of(&header[6..]) != 4 {
        return Err(CaptureFault::BadVersion);
    }
    if order.u32_of(&header[20..]) != ETHERNET {
        return Err(CaptureFault::BadLink);
    }
    Ok(heading)
}
