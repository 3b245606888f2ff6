//! Jobs that are spread over workers: plans, gates, a board of numbers, a tray of values, and `work_all`, which answers as one worker does.
#![tactic(auto)]

mod boards;
pub mod laws;
mod plans;
mod rules;
mod trays;
mod workers;
mod works;

pub use boards::{Board, Chief, Pass, SplitFault};
pub use lists::Values;
pub use plans::Plan;
pub use trays::{PutFault, Tray};
pub use workers::{work_all, work_alone};
pub use works::{Gate, Phase, Through, Work};
