//! Tests of calls of `toxicap`, `run_files` and `disks`, with values that are not from the code.
#![tactic(auto)]

#[cfg(test)]
mod tests;
