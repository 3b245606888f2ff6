//! Lists that their owner only reads (`Values`), how answers agree with definitions (`specs/Agreement.antt`), and lemmas on lists.
#![tactic(auto)]

mod values;

pub use values::Values;
