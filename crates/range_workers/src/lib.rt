//! The connection table of a capture, made by workers, each of which reads ranges of its records.
//! The answer of `table` does not depend on the plan or the gate. `specs/Ranges.antt` says how the records are cut.
#![tactic(auto)]

mod capture_table;
mod joining;
mod range_jobs;
mod ranges;

pub use capture_table::{table, table_alone};
