//! Writing a capture: fields with the lowest byte first, stamps in a unit.
ghost use Rattle.std.specs.Prelude.{◌≡◌, ◌≤◌, ◌<◌, ◌++◌, length, OnOk, OnErr};
ghost use Rattle.pcap_records.specs.Instants.{horizon, ticks_of};
ghost use Rattle.pcap_records.specs.Reading.{packet_limit};
ghost use Rattle.pcap_records.specs.Writing.{file_header, record_header, record_bytes};

use crate::heading::FILE_HEADER_LEN;
use crate::moment::Moment;
use crate::reader::RECORD_HEADER_LEN;
use crate::unit::Unit;
use byteorder::{ByteOrder, LittleEndian};
use std::alloc::AllocError;

const MICROSECOND_HEADER: [u8; FILE_HEADER_LEN] = [
    0xd4, 0xc3, 0xb2, 0xa1, 2, 0, 4, 0, 0, 0, 0, 0, 0, 0, 0, 0, 0xff, 0xff, 0, 0, 1, 0, 0, 0,
];

const NANOSECOND_HEADER: [u8; FILE_HEADER_LEN] = [
    0x4d, 0x3c, 0xb2, 0xa1, 2, 0, 4, 0, 0, 0, 0, 0, 0, 0, 0, 0, 0xff, 0xff, 0, 0, 1, 0, 0, 0,
];

/// Appends the header of a file (pcap 2.4), or nothing if it is out of memory. It says that packets have at most 65,535 bytes.
#[tactic(auto, unfolding(crate::specs::Writing::file_header))]
pub fn write_header(out: &mut Vec<u8>, unit: Unit) -> Result<(), AllocError>
    ensures ok { OnOk result (out.new.items ≡ out.old.items ++ file_header (ticks_of unit)) }
    ensures err { OnErr result (out.new.items ≡ out.old.items) }
{
    match unit {
        Unit::Micros => out.extend_from_slice(&MICROSECOND_HEADER),
        Unit::Nanos => out.extend_from_slice(&NANOSECOND_HEADER),
    }
}

/// Appends the record of a packet that was captured whole at the instant `at`, or nothing if it is out of memory.
pub fn write_record(
    out: &mut Vec<u8>,
    at: Moment,
    packet: &[u8],
    unit: Unit,
) -> Result<(), AllocError>
    requires before_horizon { at < horizon (ticks_of unit) }
    requires limited { length packet.now ≤ packet_limit }
    ensures ok { OnOk result (out.new.items ≡ out.old.items ++ record_bytes (ticks_of unit) at packet.now) }
    ensures err { OnErr result (out.new.items ≡ out.old.items) }
{
    let header = record_header_bytes(at, packet.len() as u32, unit);
    out.reserve(header.len() + packet.len())?;
    out.extend_from_slice(&header)?;
    out.extend_from_slice(packet)
}

/// The header of the record of a packet of `len` bytes: seconds, the ticks over these, and the length twice.
#[tactic(auto, unfolding(crate::specs::Writing::record_header))]
pub fn record_header_bytes(at: Moment, len: u32, unit: Unit) -> [u8; RECORD_HEADER_LEN]
    requires { at < horizon (ticks_of unit) }
    ensures { result ≡ record_header (ticks_of unit) at len }
{
    let (seconds, ticks) = unit.split(at.count());
    let mut header = [0; RECORD_HEADER_LEN];
    let fields: &mut [u8] = &mut header;
    LittleEndian::write_u32(fields, seconds);
    LittleEndian::write_u32(&mut fields[4..], ticks);
    LittleEndian::write_u32(&mut fields[8..], len);
    LittleEndian::write_u32(&mut fields[12..], len);
    header
}
