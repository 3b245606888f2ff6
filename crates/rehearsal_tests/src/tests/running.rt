//! Whole runs over readers and writers that give or take little, or fail on the way.
ghost use Rattle.std.specs.Prelude.{◌<◌, ◌-◌, ◌^◌};

use super::readers::Pieces;
use super::writers::Sips;
use scenarios::Hosts;
use std::alloc::AllocGlobal;
use std::io::{Read, Write};
use std::process::Abort;
use std::sync::Wait;
use std::thread::Threads;
use toxicap::{Counted, Options, Plan, RunFault, answers, print_reports};

// A record of two bytes, and seven bytes of another.
pub const STORED_RUN: &str = "d4c3b2a1 02000400 00000000 00000000 ffff0000 01000000
    01000000 00000000 02000000 02000000 abcd
    02000000 000000
";

pub const STORED_REPORT: &str =
    "scenario 0 records 1 rest 7 segment 0 short 1 notipv4 0 badipv4 0 fragment 0 nottcp 0 cut 0 badtcp 0 sameends 0\nconnections 0 unopened 0\n";

// What is printed of a reader's capture under one scenario without proxies.
fn overview<R: Read, W: Write>(
    rt: &(impl AllocGlobal + Threads + Wait + Sync),
    reader: &mut Counted<R>,
    writer: &mut Counted<W>,
) -> Result<(), RunFault>
    requires reads { reader.old.failed < 2 ^ 64 - 1 }
    requires writes { writer.old.failed < 2 ^ 64 - 1 }
{
    let options = Options {
        hosts: Hosts::new(rt.alloc()),
        seed: 0,
        plan: Plan::new(1, 4096).ok_or(RunFault::Memory)?,
    };
    let outputs = answers(rt, rt.alloc(), reader, &[b"[]".as_slice()], &options)?;
    print_reports(&outputs, writer)
}

// The stored run through a reader and a writer that take a number of bytes a call and a number of calls: the answer, and how many bytes
// of the report went out.
fn check_ends(
    rt: &(impl Abort + AllocGlobal + Threads + Wait + Sync),
    row: &str,
    (read_most, reads): (usize, u32),
    (write_most, writes): (usize, u32),
    (expected, written): (Result<(), RunFault>, usize),
) {
    let mut reader = Counted::new(Pieces {
        rest: STORED_RUN.as_bytes(),
        most: read_most,
        calls: reads,
    });
    let mut writer = Counted::new(Sips {
        taken: Vec::new(rt.alloc()),
        most: write_most,
        calls: writes,
    });
    let answer = overview(rt, &mut reader, &mut writer);
    let report = STORED_REPORT.as_bytes();
    let good = answer == expected
        && reader.failed() == u64::from(expected == Err(RunFault::ReadFailed))
        && writer.failed() == u64::from(expected == Err(RunFault::WriteFailed))
        && writer.into_inner().taken.as_slice() == &report[..report.len().min(written)];
    assert!(rt; good, "{row}: {reads} reads, {writes} writes");
}

#[test]
fn runs_over_failing_ends(rt: HostRuntime) {
    let unread = (Err(RunFault::ReadFailed), 0);
    let all = (1000, 2);
    check_ends(&rt, "a byte a read", (1, 1000), (1000, 1), (Ok(()), 1000));
    check_ends(
        &rt,
        "three a read, one a write",
        (3, 1000),
        (1, 1000),
        (Ok(()), 1000),
    );
    check_ends(&rt, "just enough", (60, 3), (7, 20), (Ok(()), 1000));
    for reads in 0..3 {
        check_ends(&rt, "a read fails", (60, reads), (1000, 1), unread);
    }
    for writes in 0..20u32 {
        let written = (Err(RunFault::WriteFailed), 7 * writes as usize);
        check_ends(&rt, "a write fails", all, (7, writes), written);
    }
    check_ends(
        &rt,
        "a write takes nothing",
        all,
        (0, 1000),
        (Err(RunFault::WriteFailed), 0),
    );
}
