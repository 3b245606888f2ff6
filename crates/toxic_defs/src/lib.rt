//! Toxics: what a scenario delivers of the lines that were recorded.
#![tactic(auto)]

mod bandwidth;
mod deliveries;
mod drawn_numbers;
mod end_rule;
mod kinds;
mod latency;
pub mod laws;
mod limit_data;
mod limits;
mod reset_peer;
mod rows;
mod running;
mod session_cut;
mod slicer;
mod slices;
mod slow_close;
mod timeout;
mod toxic;
mod words;

pub use deliveries::{Delivered, MetProxy, delivered_by};
pub use kinds::Kind;
pub use running::{chain, run};
pub use session_cut::cut_both;
pub use toxic::{Toxic, applies};
pub use words::{Key, word};
