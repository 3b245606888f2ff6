//! The table of a capture by one thread alone, with values from outside.
use super::tables::{REPEATED, check_table, repeated};
use pcap_records::read_capture;
use range_workers::table_alone;
use std::alloc::AllocGlobal;
use std::process::Abort;
use worked_sessions::sessions::file;

#[test]
fn a_table_by_one_thread(rt: HostRuntime) {
    let alloc = rt.alloc();
    let bytes = file(alloc, true, &repeated()).expect(&rt, "memory");
    let capture = read_capture(alloc, &bytes).expect(&rt, "a capture");
    let table = table_alone(alloc, &capture).expect(&rt, "memory");
    check_table(&rt, &table, &REPEATED, 0);
}
