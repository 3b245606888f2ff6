//! Classic pcap files (format 2.4): an exact reading that borrows the file's bytes, a reader of heads of packets, instants, and writing.
//! `specs/Reading.antt` says what a file holds, `specs/Grammar.antt` says the same as a grammar, and `laws` joins the two.
#![tactic(auto)]

mod blocks;
mod capture;
mod fault;
mod file_bytes;
mod head_list;
mod heading;
mod heads;
mod kept_heads;
pub mod laws;
mod moment;
mod packet_heads;
mod reader;
mod unit;
mod writing;

pub use blocks::{BLOCK_LEN, Blocks, SLICE_LIMIT};
pub use capture::{Capture, Record};
pub use fault::CaptureFault;
pub use file_bytes::FileBytes;
pub use heading::{CAPTURE_LIMIT, FILE_HEADER_LEN, Order};
pub use heads::HeadReader;
pub use kept_heads::{HeadRecords, KeptHeads};
pub use lists::Values;
pub use moment::Moment;
pub use packet_heads::{HEAD_LIMIT, head_len};
pub use reader::{PACKET_LIMIT, RECORD_HEADER_LEN, read_capture, read_file};
pub use unit::Unit;
pub use writing::{record_header_bytes, write_header, write_record};
