//! What tests share: captures made by hand, the frames that are written of one of them, and gates that hold or count jobs.
#![tactic(auto)]

pub mod gates;
pub mod sessions;
pub mod written_frames;
