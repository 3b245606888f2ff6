//! What reports depend on of a capture: its unit, the length of its rest, and the stamps, lengths and headers of packets.
//! No byte of a payload changes them.
//! There are only laws here.
#![tactic(auto)]

pub mod laws;
