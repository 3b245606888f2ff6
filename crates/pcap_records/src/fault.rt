//! Why a file is refused.
use std::alloc::AllocError;
use thiserror::Error;

/// Why a file has no reading, or out of memory. The faults of the file are tested in this order.
#[derive(Debug, Drop, Error)]
pub enum CaptureFault {
    #[error("the capture is longer than 2^30 bytes")]
    CaptureTooLong,
    #[error("the file header is cut short")]
    ShortHeader,
    #[error("the magic number is that of no classic pcap file")]
    BadMagic,
    #[error("the version is not 2.4")]
    BadVersion,
    /// The link type field is not 1, Ethernet without frame check sequences.
    #[error("the link type field is not 1, Ethernet")]
    BadLink,
    /// The record with this number, counted from 0, announces a packet of more than 262,144 bytes.
    #[error("record {at} announces a packet of more than 262144 bytes")]
    RecordTooLong { at: u32 },
    #[error("out of memory")]
    Memory(AllocError),
}

impl From<AllocError> for CaptureFault {
    ghost use Rattle.std.specs.Prelude.{◌≡◌};
    ghost use Rattle.pcap_records.specs.declared.fault.CaptureFault.TheVariants.{Memory};

    ghost from_gives = { λ error fault. fault ≡ Memory error };

    fn from(error: AllocError) -> CaptureFault {
        CaptureFault::Memory(error)
    }
}
