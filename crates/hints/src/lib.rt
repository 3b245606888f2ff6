//! What helps after a refusal, in one line. It says what it is about, what is wrong there, and what to do; no file is read.
#![tactic(auto)]

macro_rules! say {
    ($alloc:expr; $($text:tt)*) => { format!(in $alloc; $($text)*) };
}

mod attributes;
mod calls;
mod captures;
mod hosts;
mod lines;
mod scenario_hints;
mod shown;
mod toxic_hints;

pub use attributes::ignored_attribute;
pub use calls::hint_of_call;
pub use captures::{capture_hint, unit_of};
pub use hosts::host_hint;
pub use lines::{Said, Speaker};
pub use scenario_hints::{count_hint, length_hint, scenario_hint};
pub use shown::shown_path;
