//! Why a run is refused, why files were not all stored, and that a shelf did not take a file.
ghost use Rattle.std.specs.Prelude.{◌≡◌};

use pcap_records::CaptureFault;
use scenarios::Refusal;
use std::alloc::AllocError;
use thiserror::Error;

/// Why a run is refused. [`fault_line`](crate::fault_line) gives the line that tells a fault to users.
#[derive(Clone, Copy, Debug, PartialEq, Eq, Error)]
pub enum RunFault {
    /// The capture has fewer bytes than a file header.
    #[error("the capture ends within its file header")]
    ShortHeader,
    /// The capture's first four bytes are no known magic number.
    #[error("the capture begins with an unknown magic number")]
    BadMagic,
    /// The capture is of another version than 2.4.
    #[error("the capture is not of version 2.4")]
    BadVersion,
    /// The capture's link type field is not 1, Ethernet without frame check sequences.
    #[error("the capture's link type field is not 1, Ethernet")]
    BadLink,
    /// The record with this number, from 0, announces a packet of more than 262,144 bytes.
    #[error("record {at} announces a packet of more than 262144 bytes")]
    RecordTooLong { at: u32 },
    /// The scenario with this number, from 0, is refused.
    #[error("scenario {number}{}{refusal}", end_of_number(.refusal))]
    BadScenario { number: usize, refusal: Refusal },
    /// The host with this number, from 0, is refused.
    #[error("host {at} is not NAME=ADDR with a valid name and an IPv4 address, or its name was given before")]
    BadHost { at: usize },
    /// More than 256 scenarios were given.
    #[error("there are more than 256 scenarios")]
    TooManyScenarios,
    /// A capture, a dump or a scenario file has more than 2^30 bytes.
    #[error("a capture, a dump or a scenario file is longer than 2^30 bytes")]
    CaptureTooLong,
    #[error("out of memory")]
    Memory,
    /// The dump is broken at this byte, from 0, or at its end, which is its length.
    #[error("the dump has no hexadecimal digit at byte {at}, where one is expected")]
    BadDump { at: usize },
    /// A file could not be stored, after `after` that were stored whole.
    #[error("a file cannot be stored, after {after} that were")]
    ShelfFailed { after: u64 },
    /// A read failed.
    #[error("a read failed")]
    ReadFailed,
    /// A write failed.
    #[error("a write failed")]
    WriteFailed,
}

// What follows the number of a scenario: `scenario 0 proxy 1: ..` if the refusal is of a proxy, and else `scenario 0: ..`.
fn end_of_number(refusal: &Refusal) -> &'static str {
    if refusal.proxy.is_some() { " " } else { ": " }
}

impl From<CaptureFault> for RunFault {
    ghost use Rattle.run_files.specs.RunFault.{run_fault};

    ghost from_gives = { λ fault r. r ≡ run_fault fault };

    fn from(fault: CaptureFault) -> RunFault {
        match fault {
            CaptureFault::ShortHeader => RunFault::ShortHeader,
            CaptureFault::BadMagic => RunFault::BadMagic,
            CaptureFault::BadVersion => RunFault::BadVersion,
            CaptureFault::BadLink => RunFault::BadLink,
            CaptureFault::RecordTooLong { at } => RunFault::RecordTooLong { at },
            CaptureFault::CaptureTooLong => RunFault::CaptureTooLong,
            CaptureFault::Memory(_) => RunFault::Memory,
        }
    }
}

impl From<AllocError> for RunFault {
    ghost use Rattle.run_files.specs.declared.error.RunFault.TheVariants.{Memory};

    ghost from_gives = { λ _ r. r ≡ Memory };

    fn from(_refused: AllocError) -> RunFault {
        RunFault::Memory
    }
}

/// Why not all files were stored; `after` files were stored whole.
#[derive(Clone, Copy, Debug, PartialEq, Eq, Error)]
pub enum StoreFault {
    #[error("a file cannot be stored, after {after} that were")]
    ShelfFailed { after: u64 },
    #[error("out of memory, after {after} files were stored")]
    Memory { after: u64 },
}

impl From<StoreFault> for RunFault {
    ghost use Rattle.run_files.specs.RunFault.{run_fault_of_storing};

    ghost from_gives = { λ fault r. r ≡ run_fault_of_storing fault };

    fn from(fault: StoreFault) -> RunFault {
        match fault {
            StoreFault::ShelfFailed { after } => RunFault::ShelfFailed { after },
            StoreFault::Memory { .. } => RunFault::Memory,
        }
    }
}

/// A shelf did not take a file.
#[derive(Clone, Copy, Debug, PartialEq, Eq, Error)]
#[error("the shelf did not take the file")]
pub struct ShelfError;

impl From<AllocError> for ShelfError {
    fn from(_refused: AllocError) -> ShelfError {
        ShelfError
    }
}
