//! Tests of calls of `job_matrix`, `conn_table`, `range_workers`, `conn_workers` and `time_merge`, with values that are not from the code.
#![tactic(auto)]

#[cfg(test)]
mod tests;
