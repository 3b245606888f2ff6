//! Whole runs of the program over a disk in memory: what is stored there, and what stays.
ghost use Rattle.std.specs.Prelude.{◌≡◌, IfOk};

use super::captures::PLAIN_REPORT;
use super::named_files::{check_over, ended_over};
use super::shop_sample::SHOP;
use super::storing_runs::{
    BY_ONE, BY_TWO, HELD, HTTP_GET, LINE, Run, SAMPLE, SAMPLE_BY_ALL, SAMPLE_BY_TWO, SHOP_BY_THREE,
    files_of,
};
use disks::MemoryDisk;
use std::alloc::{AllocError, AllocGlobal, Global};
use std::process::Abort;
use std::sync::Wait;
use std::thread::Threads;
use toxicap::MemoryFile;
use worked_sessions::sessions::{PLAIN_SESSION, header, put_field};

// An older file of a name that the runs give.
const OLDER: &[u8] = b"an older file";

// A disk with three captures, three scenarios, the older file, and a capture that cannot be read to its end.
fn disk_before(alloc: Global) -> Result<MemoryDisk, AllocError>
    ensures { IfOk result (λ disk. disk.failed ≡ 0) }
{
    let mut disk = MemoryDisk::new(alloc);
    disk.put_first("session", &PLAIN_SESSION, 0)?;
    disk.put_first("http-get", HTTP_GET.as_bytes(), 0)?;
    disk.put_first("shop", SHOP.as_bytes(), 0)?;
    disk.put_first("unread", &PLAIN_SESSION, 1)?;
    disk.put_first("bare", b"[]", 0)?;
    disk.put_first("held", HELD.as_bytes(), 0)?;
    disk.put_first("line", LINE.as_bytes(), 0)?;
    disk.put_first("out/0001.txt", OLDER, 0)?;
    Ok(disk)
}

// Whether the folder has the first `many` of these files, and in place of those after them what was there before.
fn has_first(
    alloc: Global,
    disk: &MemoryDisk,
    files: &[MemoryFile],
    many: usize,
) -> Result<bool, AllocError> {
    for (place, file) in files.iter().enumerate() {
        let name = file.name();
        let path = format!(in alloc; "out/{name}")?;
        let expected = match name {
            _ if place < many => Some(file.bytes()),
            "0001.txt" => Some(OLDER),
            _ => None,
        };
        if disk.bytes(&path) != expected {
            return Ok(false);
        }
    }
    Ok(true)
}

// A run stores all files of its scenarios; of the first the report is this one, where it is known.
fn check_whole(
    rt: &(impl Abort + AllocGlobal + Threads + Wait + Sync),
    run: &Run<'_>,
    report: Option<&str>,
) {
    let files = files_of(rt, run).expect(rt, "memory");
    let mut disk = disk_before(rt.alloc()).expect(rt, "memory");
    check_over(rt, &mut disk, run.words, (0, "", ""));
    let all = has_first(rt.alloc(), &disk, &files, files.len()) == Ok(true);
    let many = files.len() == 2 * run.scenarios.len();
    let first = report.is_none() || disk.bytes("out/0000.txt") == report.map(str::as_bytes);
    assert!(rt;
        disk.failed() == 0 && all && many && first,
        "{:?}",
        run.words
    );
}

#[test]
fn whole_runs(rt: HostRuntime) {
    check_whole(&rt, &BY_ONE, Some(PLAIN_REPORT));
    check_whole(&rt, &BY_TWO, Some(PLAIN_REPORT));
    check_whole(&rt, &SAMPLE, None);
    check_whole(&rt, &SAMPLE_BY_ALL, None);
    check_whole(&rt, &SAMPLE_BY_TWO, None);
    check_whole(&rt, &SHOP_BY_THREE, None);
}

// A run over a disk that fails once, after this number of calls, stores the files for which both calls went well; the first call holds the
// folder. Another run of the same words then stores all.
fn check_failing(
    rt: &(impl Abort + AllocGlobal + Threads + Wait + Sync),
    files: &[MemoryFile],
    words: &[&str],
    calls: u64,
) {
    let mut disk = disk_before(rt.alloc()).expect(rt, "memory");
    disk.fail_after(calls);
    let many = calls.saturating_sub(1) / 2;
    let told = format!(in rt.alloc(); "refused 60 ShelfFailed after {many}\n");
    check_over(rt, &mut disk, words, (1, "", &told.expect(rt, "memory")));
    let part = has_first(rt.alloc(), &disk, files, many as usize) == Ok(true);
    assert!(rt; part && disk.failed() == 1, "{words:?} after {calls}");
    check_over(rt, &mut disk, words, (0, "", ""));
    let whole = has_first(rt.alloc(), &disk, files, files.len()) == Ok(true);
    assert!(rt;
        whole && disk.failed() == 1,
        "{words:?} again after {calls}"
    );
}

// Each call of a run fails in turn: one for the folder, and two for each file.
fn check_each(rt: &(impl Abort + AllocGlobal + Threads + Wait + Sync), run: &Run<'_>) {
    let files = files_of(rt, run).expect(rt, "memory");
    for calls in 0..=2 * files.len() as u64 {
        check_failing(rt, &files, run.words, calls);
    }
}

#[test]
fn runs_that_a_disk_cuts_short(rt: HostRuntime) {
    check_each(&rt, &BY_ONE);
    check_each(&rt, &BY_TWO);
    check_each(&rt, &SAMPLE);
    check_each(&rt, &SAMPLE_BY_ALL);
    check_each(&rt, &SAMPLE_BY_TWO);
    check_each(&rt, &SHOP_BY_THREE);
}

// A run of these words ends so, and leaves the folder as it was.
fn check_untouched(
    rt: &(impl Abort + AllocGlobal + Threads + Wait + Sync),
    words: &[&str],
    ends: (u8, &str, &str),
) {
    let files = files_of(rt, &BY_ONE).expect(rt, "memory");
    let mut disk = disk_before(rt.alloc()).expect(rt, "memory");
    check_over(rt, &mut disk, words, ends);
    let good = disk.failed() == 0 && has_first(rt.alloc(), &disk, &files, 0) == Ok(true);
    assert!(rt; good, "{words:?}");
}

#[test]
fn runs_that_store_nothing(rt: HostRuntime) {
    let out = "--out=out";
    let unread = (1, "", "refused 61 ReadFailed\n");
    check_untouched(&rt, &["--capture=unread", out], unread);
    check_untouched(&rt, &["--capture=unread", out, "--workers=2"], unread);
    let short = (1, "", "refused 1 ShortHeader\n");
    check_untouched(&rt, &["--capture=bare", out], short);
    check_untouched(&rt, &["--capture=session"], (0, PLAIN_REPORT, ""));
    let version = (0, "toxicap 1.0.0\n", "");
    check_untouched(&rt, &["--capture=session", out, "-V"], version);
}

#[test]
fn help_beside_a_folder(rt: HostRuntime) {
    let files = files_of(&rt, &BY_ONE).expect(&rt, "memory");
    let mut disk = disk_before(rt.alloc()).expect(&rt, "memory");
    let words = ["--capture=session", "--out=out", "--help"];
    let (status, written, told, outcome) = ended_over(&rt, &mut disk, &words);
    let good = disk.failed() == 0 && has_first(rt.alloc(), &disk, &files, 0) == Ok(true);
    assert!(rt; good && status == 0 && !written.is_empty() && told.is_empty());
    assert!(rt; matches!(outcome, Ok(None)));
}

// The summary is the same whether a run prints or stores.
#[test]
fn summaries_of_runs(rt: HostRuntime) {
    for words in [
        ["--capture=session"].as_slice(),
        &["--capture=session", "--out=out"],
    ] {
        let mut disk = disk_before(rt.alloc()).expect(&rt, "memory");
        let (_, _, _, outcome) = ended_over(&rt, &mut disk, words);
        let Ok(Some(summary)) = outcome else {
            rt.panic("no summary");
        };
        let counted = summary.records == 7 && summary.counts.segment == 7 && summary.unopened == 0;
        let conns = summary.connections.as_slice();
        let whole = conns
            .iter()
            .all(|conn| conn.up_lost == 0 && conn.down_lost == 0);
        assert!(rt;
            counted && conns.len() == 1 && whole && summary.met.as_slice() == [0].as_slice()
        );
    }
}

// A scenario that lies in the folder, under the name of a file of its run, stays there.
#[test]
fn an_input_in_the_folder(rt: HostRuntime) {
    let mut disk = disk_before(rt.alloc()).expect(&rt, "memory");
    disk.put_first("out/0000.txt", b"[]", 0)
        .expect(&rt, "memory");
    let words = ["--capture=session", "--scenario=out/0000.txt", "--out=out"];
    let refused = (1, "", "refused 60 ShelfFailed after 1\n");
    check_over(&rt, &mut disk, &words, refused);
    let stays = disk.bytes("out/0000.txt") == Some(b"[]".as_slice());
    assert!(rt; stays && disk.bytes("out/0000.pcap").is_some() && disk.failed() == 1);
}

// The report of a capture of three blocks.
const LARGE_REPORT: &str =
    "scenario 0 records 177 rest 0 segment 7 short 0 notipv4 170 badipv4 0 fragment 0 nottcp 0 cut 0 badtcp 0 sameends 0\nconnections 1 unopened 0\n0 10.0.0.1:40000 > 10.0.0.2:80 proxy - up 5/5/0 fin+2000 max 0 down 0/0/0 fin+3000 max 0\n";

// That capture: 170 records of 100,003 zeros each, and those of the plain session.
fn large_capture(alloc: Global) -> Result<Vec<u8>, AllocError> {
    let mut bytes = header(alloc, true)?;
    let zeros = vec![in alloc; 0u8; 100_003]?;
    for _ in 0..170 {
        for number in [0, 0, 100_003, 100_003] {
            put_field(&mut bytes, true, number)?;
        }
        bytes.extend_from_slice(&zeros)?;
    }
    bytes.extend_from_slice(&PLAIN_SESSION[24..])?;
    Ok(bytes)
}

// Two workers load it, by reads that give no more than 65,537 bytes each.
#[test]
fn a_capture_of_three_blocks(rt: HostRuntime) {
    let capture = large_capture(rt.alloc()).expect(&rt, "memory");
    let mut disk = MemoryDisk::new(rt.alloc());
    disk.limit_reads(65_537);
    disk.put_first("large", &capture, 0).expect(&rt, "memory");
    let words = ["--capture=large", "--workers=2"];
    check_over(&rt, &mut disk, &words, (0, LARGE_REPORT, ""));
}
