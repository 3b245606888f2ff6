//! The output capture: the written segments of all connections, in order of key.
#![tactic(auto)]

mod key_order;
mod merging;
mod orders;
mod sinks;

pub use merging::{Merged, merge, merged_capture, write_capture};
pub use sinks::CaptureSink;
