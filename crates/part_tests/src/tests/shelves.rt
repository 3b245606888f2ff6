//! The files of a rehearsal on shelves: one that fails, and one in memory.
ghost use Rattle.std.specs.Prelude.{◌≡◌, ◌≤◌};

use pcap_records::Values;
use run_files::{
    MemoryFile, MemoryShelf, Output, Outputs, RunFault, Shelf, ShelfError, StoreFault, store_all,
};
use std::alloc::{AllocError, AllocGlobal, Global};
use std::process::Abort;

// The files of two outputs, in the order in which they are stored.
const FILES: [(&str, &[u8]); 4] = [
    ("0000.pcap", b"first capture"),
    ("0000.txt", b"first report\n"),
    ("0001.pcap", b"\x00\xff\r\n\x80"),
    ("0001.txt", b""),
];

fn two_outputs(alloc: Global) -> Result<Outputs, AllocError> {
    let [a, b, c, d] = FILES;
    let mut outputs = Vec::new(alloc);
    for (capture, report) in [(a.1, b.1), (c.1, d.1)] {
        outputs.push(Output {
            capture: Values::of(capture.to_vec(alloc)?),
            report: Values::of(report.to_vec(alloc)?),
        })?;
    }
    Ok(Values::of(outputs))
}

// Whether a shelf's files have these names and bytes.
fn are_files(files: &[MemoryFile], expected: &[(&str, &[u8])]) -> bool {
    for (file, (name, bytes)) in files.iter().zip(expected) {
        if file.name() != *name || file.bytes() != *bytes {
            return false;
        }
    }
    files.len() == expected.len()
}

/// Keeps files in memory, except the one that comes after `calls_before` calls: whoever tries again gets rid of it.
#[derive(Drop)]
struct FailsOnce {
    kept: MemoryShelf,
    calls_before: u64,
    failed: u64,
    ghost counted: { kept.failed ≤ failed },
}

impl Shelf for FailsOnce {
    ghost use Rattle.std.specs.Prelude.{Some};

    ghost files = { λ s. Some s.kept.files };

    ghost failures = { λ s. s.failed };

    fn put(&mut self, name: &str, bytes: &[u8]) -> Result<(), ShelfError> {
        if self.calls_before == 0 {
            self.calls_before = u64::MAX;
            self.failed += 1;
            return Err(ShelfError);
        }
        self.calls_before -= 1;
        let kept = self.kept.put(name, bytes);
        if kept.is_err() {
            self.failed += 1;
        }
        kept
    }
}

// Two outputs to a shelf that fails at its put after `after` others put the first files on it, and none after the failed one.
fn check_failing(rt: &(impl Abort + AllocGlobal), after: u64, first: &[(&str, &[u8])]) {
    let outputs = two_outputs(rt.alloc()).expect(rt, "memory");
    let mut shelf = FailsOnce {
        kept: MemoryShelf::new(rt.alloc()),
        calls_before: after,
        failed: 0,
    };
    let stored = store_all(rt.alloc(), &outputs, &mut shelf);
    let refused = stored == Err(StoreFault::ShelfFailed { after })
        && shelf.failed == 1
        && shelf.calls_before == u64::MAX;
    let all = stored == Ok(()) && shelf.failed == 0 && first.len() == FILES.len();
    let good = (refused || all) && are_files(shelf.kept.files(), first);
    assert!(rt; good, "{after}");
}

// A file that is not taken is not tried again.
#[test]
fn a_shelf_that_fails_once(rt: HostRuntime) {
    let [a, b, c, d] = FILES;
    check_failing(&rt, 0, &[]);
    check_failing(&rt, 1, &[a]);
    check_failing(&rt, 2, &[a, b]);
    check_failing(&rt, 3, &[a, b, c]);
    check_failing(&rt, 4, &[a, b, c, d]);
}

// A shelf with the files of 10,001 empty outputs.
fn many_files(alloc: Global) -> Result<Vec<MemoryFile>, RunFault> {
    let mut outputs = Vec::new(alloc);
    for _ in 0..10_001 {
        let output = Output {
            capture: Values::of(Vec::new(alloc)),
            report: Values::of(Vec::new(alloc)),
        };
        outputs.push(output).map_err(AllocError::from)?;
    }
    let mut shelf = MemoryShelf::new(alloc);
    store_all(alloc, &Values::of(outputs), &mut shelf)?;
    Ok(shelf.into_files())
}

// Whether the file at this place has this name.
fn is_named(files: &[MemoryFile], place: usize, name: &str) -> bool {
    match files.get(place) {
        Some(file) => file.name() == name,
        None => false,
    }
}

// A number has four digits at least, and more where it needs them.
#[test]
fn names_of_files(rt: HostRuntime) {
    let files = many_files(rt.alloc()).expect(&rt, "memory");
    let good = is_named(&files, 18, "0009.pcap")
        && is_named(&files, 21, "0010.txt")
        && is_named(&files, 511, "0255.txt")
        && is_named(&files, 19_998, "9999.pcap")
        && is_named(&files, 20_001, "10000.txt");
    assert!(rt; good);
}

#[test]
fn a_shelf_in_memory(rt: HostRuntime) {
    let mut shelf = MemoryShelf::new(rt.alloc());
    let first = shelf.put("one", b"1") == Ok(());
    let second = shelf.put("one", b"\x00") == Ok(());
    let good = are_files(shelf.files(), &[("one", b"1"), ("one", b"\x00")]);
    assert!(rt; first && second && good && shelf.failed() == 0);
}
