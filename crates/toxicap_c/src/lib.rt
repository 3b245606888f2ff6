//! The library for C: rehearsals by one thread, into buffers of the caller. See `specs/Calls.antt` and `specs/Buffers.antt`.
#![tactic(auto)]

mod calls;
mod hand_outs;
mod inputs;
mod refusals;
mod sizes;
mod statuses;

pub use calls::{toxicap_effects, toxicap_lines, toxicap_rehearse, toxicap_reports};
pub use inputs::ToxicapInputs;
pub use sizes::{ToxicapEffectSizes, ToxicapLinesSizes, ToxicapSizes};
