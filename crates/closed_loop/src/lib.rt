//! The closed loop of a capture: times, recording, outputs.
//! `specs/Settled.antt` says when times are settled, and `closed_loop` finds such times.
#![tactic(auto)]

mod arrivals;
mod fault;
mod forerunners;
pub mod laws;
mod manners;
mod moving;
mod openings;
mod packets;
mod rehearsing;
mod rounds;
mod scripts;
mod sessions;
mod settling;
mod stamping;
mod times;
mod whole;

pub use fault::LoopFault;
pub use manners::Manners;
pub use whole::{Loop, closed_loop};
