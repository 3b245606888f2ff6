//! What was recorded of a connection: the line of bytes that each side sent, in order, with their times and the line's end.
#![tactic(auto)]

pub mod laws;
mod line_parts;
mod overlays;
mod passes;
mod patches;
mod positions;
mod recordings;
mod rows;
mod sides;

pub use line_parts::{End, Line, LinePart};
pub use recordings::{Recorded, lines};
