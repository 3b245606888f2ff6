//! How the program ends: its status, a fault of the command line, texts that cannot be written, and words that cannot be had.
use super::readers::Pieces;
use super::running::{STORED_REPORT, STORED_RUN};
use super::writers::{RefusesOnce, Sips};
use disks::Lockable;
use std::alloc::{AllocGlobal, Global};
use std::io::{Error, ErrorKind};
use std::os::unix::fs::FileExt;
use std::process::Abort;
use std::rt::Files;
use std::sync::Wait;
use std::thread::Threads;
use toxicap::{Counted, command, refuse_words};

// The program ends with this status, and has written and told these texts, of words and a text as its standard input, which it reads
// none of where the words are at fault.
fn check<H: Abort + AllocGlobal + Files + Threads + Wait + Sync>(
    rt: &H,
    words: &[&str],
    text: &[u8],
    (status, written, told): (u8, &str, &str),
)
where
    H::File: FileExt + Lockable + Send + Sync,
    H::Dir: Send,
{
    let mut input = Counted::new(text);
    let mut output = Counted::new(Vec::new(rt.alloc()));
    let mut faults = Counted::new(Vec::new(rt.alloc()));
    let ended = command(rt, rt.alloc(), words, &mut input, &mut output, &mut faults);
    let good = ended == status
        && output.into_inner().as_slice() == written.as_bytes()
        && faults.into_inner().as_slice() == told.as_bytes()
        && (status != 2 || input.into_inner().len() == text.len());
    assert!(rt; good, "{words:?}");
}

#[test]
fn statuses(rt: HostRuntime) {
    check(&rt, &[], STORED_RUN.as_bytes(), (0, STORED_REPORT, ""));
    check(&rt, &[], b"", (1, "", "refused 1 ShortHeader\n"));
    let workers =
        "error: invalid value '17' for '--workers <N>': 17 is not in 1..=16\n\nFor more information, try '--help'.\n";
    check(&rt, &["--workers", "17"], b"unread", (2, "", workers));
    check(&rt, &["-V"], b"unread", (0, "toxicap 1.0.0\n", ""));
}

// A writer that takes at most `most` bytes a call, in at most `calls` calls.
fn sips(alloc: Global, (most, calls): (usize, u32)) -> Sips {
    Sips {
        taken: Vec::new(alloc),
        most,
        calls,
    }
}

// The program under these words, with a reader that fails, and with writers that take a number of bytes a call and a number of calls:
// its status, how much it wrote, what it told, and how often that failed.
fn check_failing<H: Abort + AllocGlobal + Files + Threads + Wait + Sync>(
    rt: &H,
    words: &[&str],
    (output, faults): ((usize, u32), (usize, u32)),
    (status, written, told, failed): (u8, usize, &str, u64),
)
where
    H::File: FileExt + Lockable + Send + Sync,
    H::Dir: Send,
{
    let mut input = Counted::new(Pieces {
        rest: b"d4",
        most: 1,
        calls: 1,
    });
    let mut output = Counted::new(sips(rt.alloc(), output));
    let mut faults = Counted::new(sips(rt.alloc(), faults));
    let ended = command(rt, rt.alloc(), words, &mut input, &mut output, &mut faults);
    let good = ended == status
        && faults.failed() == failed
        && output.into_inner().taken.len() == written
        && faults.into_inner().taken.as_slice() == told.as_bytes();
    assert!(rt; good, "{words:?}");
}

// A write that fails on standard error ends the line there, and leaves the status as it is; help that cannot be written is refused.
#[test]
fn texts_that_cannot_be_written(rt: HostRuntime) {
    let once = (10, 1);
    check_failing(&rt, &[], (once, once), (1, 0, "refused 61", 1));
    check_failing(&rt, &["--cut=0"], (once, once), (2, 0, "error: inv", 1));
    let lost = (1, 100, "refused 62 WriteFailed\n", 0);
    check_failing(&rt, &["--help"], ((100, 1), (100, 9)), lost);
}

// A report whose first write takes nothing is refused, and no write is tried again.
#[test]
fn an_output_that_refuses_once(rt: HostRuntime) {
    let mut output = Counted::new(RefusesOnce {
        taken: Vec::new(rt.alloc()),
        calls_before: 0,
        takes_nothing: true,
    });
    let mut input = Counted::new(STORED_RUN.as_bytes());
    let mut faults = Counted::new(Vec::new(rt.alloc()));
    let words: [&str; 0] = [];
    let status = command(
        &rt,
        rt.alloc(),
        &words,
        &mut input,
        &mut output,
        &mut faults,
    );
    let refused = status == 1 && output.into_inner().taken.is_empty();
    let told = faults.into_inner().as_slice() == b"refused 62 WriteFailed\n".as_slice();
    assert!(rt; refused && told);
}

// A command line that cannot be had for this cause: its status, and what is told.
fn check_words(rt: &(impl Abort + AllocGlobal), cause: ErrorKind, status: u8, told: &str) {
    let mut faults = Counted::new(Vec::new(rt.alloc()));
    let ended = refuse_words(&Error::from(cause), &mut faults);
    let good = ended == status && faults.into_inner().as_slice() == told.as_bytes();
    assert!(rt; good, "{told}");
}

// There is no memory for it, or a word of it is no text.
#[test]
fn words_that_cannot_be_had(rt: HostRuntime) {
    let no_text = "error: a word of the command line is not text in UTF-8\n";
    check_words(&rt, ErrorKind::OutOfMemory, 1, "refused 40 Memory\n");
    check_words(&rt, ErrorKind::InvalidData, 2, no_text);
}
