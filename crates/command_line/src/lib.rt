//! The command line of `toxicap`: its options, what its arguments ask for, and the texts of `--help`, `--version` and of a fault.
//! It stands apart from the crate `toxicap`, so that a check there need not load `clap`.
#![tactic(auto)]

mod asked;
mod error;
mod options;
mod texts;

pub use asked::{Asked, read_arguments};
pub use error::Stop;
