//! Toxiproxy taken offline: recorded TCP sessions replayed through its toxics.
//!
//! `rehearse` is the main call; its contract names the definition in `specs/Rehearsal.antt`. `answers` reads the capture and the scenarios
//! first, and `command` is the program without its hints and what it says on a terminal. `read_inputs`, and what takes its `Inputs`, work by
//! one thread and take no runtime.
#![tactic(auto)]

mod commands;
mod crews;
mod host_lines;
pub mod laws;
mod reading;
mod rehearsal;
mod reports;
mod rows;
mod sources;
mod storing;

pub use commands::{command, command_over, refuse_words};
pub use conn_workers::RunSummary;
pub use host_lines::read_host_lines;
pub use job_matrix::{Plan, Through};
pub use reading::{Inputs, read_inputs};
pub use rehearsal::{
    Options, answers, effects_alone, lines_alone, rehearse, rehearse_alone, reports_alone,
};
pub use run_files::{
    Counted, MemoryFile, MemoryShelf, Output, Outputs, RunFault, Shelf, ShelfError, StoreFault,
    fault_line, load, memory_line, print_reports, store_all, undump,
};
