//! Tests over the public calls of `toxicap`, `run_files` and `disks`, with values from outside.
mod again;
mod answering;
mod captures;
mod limits;
mod named_files;
mod one_thread;
mod plans;
mod readers;
mod rehearsed;
mod running;
mod shop_sample;
mod storing_runs;
mod toxics_of_a_vlan;
mod usage;
mod whole_runs;
mod writers;
