//! Tests of calls of `disks`, `pcap_records`, `frame_headers`, `toxic_defs`, `scenarios` and `run_files`, with values that are not from the code.
#![tactic(auto)]

#[cfg(test)]
mod tests;
