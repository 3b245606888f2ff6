//! The program over the named files of a disk: each is loaded at its own path, and the first at fault is told.
ghost use Rattle.std.specs.Prelude.{◌≡◌, ◌-◌, ◌^◌, ◌<◌, IfOk};

use super::captures::PLAIN_REPORT;
use disks::{Disk, DiskFault, DiskFile, FileId, MemoryDisk, ReadDisk, ReadFiles};
use pcap_records::CAPTURE_LIMIT;
use std::alloc::{AllocError, AllocGlobal, Global};
use std::io::Read;
use std::process::Abort;
use std::sync::Wait;
use std::thread::Threads;
use toxicap::{Counted, RunFault, RunSummary, command_over};
use worked_sessions::sessions::PLAIN_SESSION;

// A proxy for the host `web` that holds the client's bytes for 100 ms.
const SLOW: &str =
    "[{\"name\":\"web\",\"upstream\":\"web:80\",\"toxics\":[{\"type\":\"latency\",\"stream\":\"upstream\",\"attributes\":{\"latency\":100}}]}]";

// The plain session's reports without a proxy, and with that one.
const BOTH_REPORTS: &str =
    "scenario 0 records 7 rest 0 segment 7 short 0 notipv4 0 badipv4 0 fragment 0 nottcp 0 cut 0 badtcp 0 sameends 0\nconnections 1 unopened 0\n0 10.0.0.1:40000 > 10.0.0.2:80 proxy - up 5/5/0 fin+2000 max 0 down 0/0/0 fin+3000 max 0\nscenario 1 records 7 rest 0 segment 7 short 0 notipv4 0 badipv4 0 fragment 0 nottcp 0 cut 0 badtcp 0 sameends 0\nconnections 1 unopened 0\n0 10.0.0.1:40000 > 10.0.0.2:80 proxy 0 up 5/5/0 fin+101000 max 100000 down 0/0/0 fin+3000 max 0\n";

// The program over a disk, of words and no standard input: its status, what it has written and told, and its outcome.
pub fn ended_over<H: AllocGlobal + Threads + Wait + Sync, D: ReadDisk + Sync>(
    rt: &H,
    disk: &mut D,
    words: &[&str],
) -> (u8, Vec<u8>, Vec<u8>, Result<Option<RunSummary>, RunFault>)
where
    D::File: Sync,
    D::Draft: Send,
    requires { D.faults disk.old < 2 ^ 64 - 1 }
{
    let mut input = Counted::new(b"".as_slice());
    let mut output = Counted::new(Vec::new(rt.alloc()));
    let mut faults = Counted::new(Vec::new(rt.alloc()));
    let (status, outcome) = command_over(
        rt,
        disk,
        rt.alloc(),
        words,
        &mut input,
        &mut output,
        &mut faults,
    );
    let (written, told) = (output.into_inner(), faults.into_inner());
    (status, written, told, outcome)
}

// It ends with this status, and has written and told these texts.
pub fn check_over<H: Abort + AllocGlobal + Threads + Wait + Sync, D: ReadDisk + Sync>(
    rt: &H,
    disk: &mut D,
    words: &[&str],
    ends: (u8, &str, &str),
)
where
    D::File: Sync,
    D::Draft: Send,
    requires { D.faults disk.old < 2 ^ 64 - 1 }
{
    let (status, written, told) = ends;
    let ended = ended_over(rt, disk, words);
    let good = ended.0 == status
        && ended.1.as_slice() == written.as_bytes()
        && ended.2.as_slice() == told.as_bytes();
    assert!(rt; good, "{words:?}");
}

// A text of over 300 KB, which begins and ends with these.
fn wide(alloc: Global, begin: &str, end: &str) -> Result<Vec<u8>, AllocError> {
    let mut text = Vec::from_slice(alloc, begin.as_bytes())?;
    text.extend_from_slice(&vec![in alloc; b' '; 400_000]?)?;
    text.extend_from_slice(end.as_bytes())?;
    Ok(text)
}

// A disk in memory with four files, of which one cannot be read to its end.
fn listed(alloc: Global) -> Result<MemoryDisk, AllocError>
    ensures { IfOk result (λ disk. disk.failed ≡ 0) }
{
    let mut disk = MemoryDisk::new(alloc);
    disk.put_first("bare", b"[]", 0)?;
    disk.put_first("unread", b"[]", 1)?;
    disk.put_first("slow", &wide(alloc, "", SLOW)?, 0)?;
    disk.put_first("session", &PLAIN_SESSION, 0)?;
    Ok(disk)
}

// The program over that disk.
fn check_listed(
    rt: &(impl Abort + AllocGlobal + Threads + Wait + Sync),
    words: &[&str],
    expected: (u8, &str, &str),
) {
    let mut disk = listed(rt.alloc()).expect(rt, "memory");
    check_over(rt, &mut disk, words, expected);
}

#[test]
fn each_file_at_its_path(rt: HostRuntime) {
    let host = "--host=web=10.0.0.2";
    let both = [
        "--scenario=bare",
        host,
        "--scenario=slow",
        "--capture=session",
    ];
    check_listed(&rt, &both, (0, BOTH_REPORTS, ""));
    check_listed(&rt, &["--capture=session"], (0, PLAIN_REPORT, ""));
    let unread = (1, "", "refused 61 ReadFailed\n");
    check_listed(&rt, &["--capture=unread"], unread);
    check_listed(&rt, &["--capture=nothing"], unread);
    let scenario = ["--capture=bare", "--scenario=slow", "--scenario=unread"];
    check_listed(&rt, &scenario, unread);
    let slow_first = ["--capture=session", "--scenario=slow", "--scenario=bare"];
    let unknown = (1, "", "refused 15 UnknownHost scenario 0 proxy 0\n");
    check_listed(&rt, &slow_first, unknown);
    let no_json = (1, "", "refused 10 NotJson scenario 0\n");
    check_listed(&rt, &["--capture=session", "--scenario=session"], no_json);
}

/// A disk on which one file is too long, one is out of memory, one cannot be opened, and all others hold `[]`. It tells nothing of
/// them, and of a draft it keeps only the path.
#[derive(Drop)]
struct Faulty {
    failed: u64,
}

impl Disk for Faulty {
    ghost use Rattle.std.specs.Prelude.{None};
    ghost use Rattle.std.specs.String.{string_bytes};

    type Draft = String;

    ghost history = { λ _. None };

    ghost faults = { λ d. d.failed };

    ghost holds = { λ _ _. Unit {0} };

    ghost path_of = { λ path. string_bytes path };

    ghost standing = { λ _. None };

    ghost input = { λ _. None };

    ghost is_held = { λ _ _. Unit {0} };

    ghost is_swept = { λ _ _ _. Unit {0} };

    fn hold(&mut self, _folder: &str, read: &ReadFiles) -> Result<(), DiskFault> {
        if read.are_known() {
            return Ok(());
        }
        self.failed += 1;
        Err(DiskFault::Failed)
    }

    fn sweep(&self, _alloc: Global, _folder: &str, _read: &ReadFiles) -> Result<(), AllocError> {
        Ok(())
    }

    fn draft(&self, path: String) -> String {
        path
    }

    fn append(_draft: &mut String, _bytes: &[u8]) {}

    fn has_failed(_draft: &String) -> bool {
        false
    }

    fn allow_publishing(&mut self, _path: &str, _read: &ReadFiles) -> Result<(), DiskFault> {
        Ok(())
    }

    fn publish(&mut self, _draft: String, _path: &str) -> Result<(), DiskFault> {
        Ok(())
    }

    fn see_published(&mut self) -> Result<(), usize> {
        Ok(())
    }

    fn input_id(&self) -> Result<Option<FileId>, DiskFault> {
        Ok(None)
    }

    ghost told = { λ _. tt };
}

impl ReadDisk for Faulty {
    type File = FaultyFile;

    fn open(&self, _alloc: Global, path: &str) -> Result<FaultyFile, DiskFault> {
        match path {
            "long" => Ok(FaultyFile::Zeros(CAPTURE_LIMIT + 1)),
            "wanting" => Err(DiskFault::Memory),
            "unread" => Err(DiskFault::Failed),
            _ => Ok(FaultyFile::Bytes(b"[]")),
        }
    }
}

/// What is left of a file: these bytes, or this number of zeros.
#[derive(Drop)]
enum FaultyFile {
    Bytes(&'static [u8]),
    Zeros(usize),
}

impl DiskFile for FaultyFile {
    ghost use Rattle.std.specs.Prelude.{None};

    ghost contents = { λ _. None };

    ghost place = { λ _. 0 };

    ghost identity = { λ _. None };

    fn id(&self) -> Result<Option<FileId>, DiskFault> {
        Ok(None)
    }

    fn len(&self) -> Option<u64> {
        None
    }

    fn read_at(&self, _room: &mut [u8], _at: usize) -> Result<usize, DiskFault> {
        Err(DiskFault::Failed)
    }

    // What it is handed to read into is zeros already.
    fn read(&mut self, room: &mut [u8]) -> Result<usize, DiskFault> {
        match self {
            FaultyFile::Bytes(rest) => Ok(rest.read(room)?),
            FaultyFile::Zeros(left) => {
                let len = room.len().min(*left);
                *left -= len;
                Ok(len)
            }
        }
    }
}

// The program over that disk.
fn check_faulty(
    rt: &(impl Abort + AllocGlobal + Threads + Wait + Sync),
    words: &[&str],
    told: &str,
) {
    check_over(rt, &mut Faulty { failed: 0 }, words, (1, "", told));
}

// Hosts come first, then scenario files in their order, then the capture, and then what the files hold.
#[test]
fn the_first_file_at_fault(rt: HostRuntime) {
    let memory = "refused 40 Memory\n";
    let unread = "refused 61 ReadFailed\n";
    let host = ["--capture=unread", "--scenario=wanting", "--host=x"];
    check_faulty(&rt, &host, "refused 23 BadHost host 0\n");
    let [bare, first, second] = ["--scenario=bare", "--scenario=wanting", "--scenario=unread"];
    check_faulty(&rt, &[bare, first, second], memory);
    check_faulty(&rt, &[bare, second, first], unread);
    check_faulty(&rt, &["--capture=unread", bare, first], memory);
    check_faulty(&rt, &["--capture=wanting", bare, second], unread);
    check_faulty(&rt, &["--capture=wanting", bare], memory);
    check_faulty(&rt, &["--capture=unread", bare], unread);
    check_faulty(&rt, &["--capture=bare", bare], "refused 1 ShortHeader\n");
}

#[test]
fn a_file_that_is_too_long(rt: HostRuntime) {
    let long = "refused 6 CaptureTooLong\n";
    let [scenario, second] = ["--scenario=long", "--scenario=unread"];
    check_faulty(&rt, &["--capture=unread", scenario, second], long);
    check_faulty(&rt, &["--capture=long", "--scenario=bare"], long);
}
