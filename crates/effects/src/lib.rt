//! What each toxic does: how many connections of a capture meet its proxy, draw it, and are not the same without it.
//!
//! `specs/EffectCounts.antt` says what is counted, and `specs/Marks.antt` how the code counts it: by marks of connections.
#![tactic(auto)]

mod counts;
mod marks;
mod toxic_effects;

pub use toxic_effects::effect_counts;
