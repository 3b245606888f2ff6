//! The segments of a connection as they are written to an output capture, in order of key.
#![tactic(auto)]

mod connection_segments;
mod endpoints;
mod framed;
pub mod laws;
mod open_rows;
mod payloads;
mod pieces;
mod records;
mod row_segments;
mod segment_outline;
mod segment_rows;
mod senders;
mod short_keys;
mod sorted_rows;
mod turns;

pub use connection_segments::segments;
pub use endpoints::Endpoints;
pub use framed::{Framed, Keys, RecordBytes, SegKey, SegList};
pub use segment_rows::SegmentRow;
pub use sorted_rows::SortedRow;
