//! The headers of captured Ethernet frames: a frame's class, the fields of its TCP segment, Internet checksums, and written headers.
#![tactic(auto)]

mod classes;
mod flag_bits;
pub mod laws;
mod layout;
mod peers;
mod sums;
mod written;

pub use classes::{Class, Segment, classify};
pub use flag_bits::Flags;
pub use layout::{LEAST_HEADERS_LEN, MOST_HEADERS_LEN, PAYLOAD_LIMIT, headers_len};
pub use peers::Peer;
pub use sums::{checksum, tcp_checksum};
pub use written::{Header, put_headers};
