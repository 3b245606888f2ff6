//! Delivered lines, laid flat: what each side of each connection is delivered in each scenario, when, and how it ends, for buffers of C.
//! `specs/FlatLines.antt` says what they are, by the delivered lines of connections.
#![tactic(auto)]

mod captures;
mod laid;
mod laying;
mod times;

pub use captures::delivered_lines;
pub use laid::{LaidLines, ToxicapChunk, ToxicapConnection, ToxicapDirection};
