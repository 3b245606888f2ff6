//! Tests of boards, trays, workers, ranges, deliveries and merging, and of the calls of one thread.
mod boards;
mod checks;
mod deliveries;
mod joining;
mod merging;
mod one_thread;
mod range_tables;
mod recorded_bytes;
mod report_texts;
mod summaries;
mod tables;
mod workers;
