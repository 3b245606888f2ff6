//! Writers that fail, or take little.
use run_files::{write_bytes, write_texts};
use std::alloc::AllocGlobal;
use std::io;
use std::io::{ErrorKind, Write};
use std::process::Abort;
use toxicap::{Counted, RunFault};

/// Takes at most `most` bytes a call, and fails once `calls` calls were made.
#[derive(Drop)]
pub struct Sips {
    pub taken: Vec<u8>,
    pub most: usize,
    pub calls: u32,
}

impl Write for Sips {
    fn write(&mut self, buf: &[u8]) -> io::Result<usize> {
        if self.calls == 0 {
            return Err(io::Error::from(ErrorKind::BrokenPipe));
        }
        self.calls -= 1;
        let len = buf.len().min(self.most);
        self.taken.extend_from_slice(&buf[..len])?;
        Ok(len)
    }

    fn flush(&mut self) -> io::Result<()> {
        Ok(())
    }
}

// Whether a write's answer, the count of failures and the bytes taken are those expected: all of them, or a failure after some.
fn is_written(
    (answer, failed): (Result<(), RunFault>, u64),
    taken: &[u8],
    expected: Result<&str, &str>,
) -> bool {
    match expected {
        Ok(bytes) => answer == Ok(()) && failed == 0 && taken == bytes.as_bytes(),
        Err(part) => {
            answer == Err(RunFault::WriteFailed) && failed == 1 && taken == part.as_bytes()
        }
    }
}

// A text to a writer that takes at most `most` bytes a call, in at most `calls` calls.
fn check_sips(
    rt: &(impl Abort + AllocGlobal),
    text: &str,
    (most, calls): (usize, u32),
    expected: Result<&str, &str>,
) {
    let mut writer = Counted::new(Sips {
        taken: Vec::new(rt.alloc()),
        most,
        calls,
    });
    let answer = write_bytes(&mut writer, text.as_bytes());
    let failed = writer.failed();
    let good = is_written((answer, failed), &writer.into_inner().taken, expected);
    assert!(rt; good, "{most} bytes a call, {calls} calls");
}

#[test]
fn writers(rt: HostRuntime) {
    check_sips(&rt, "reports", (100, 1), Ok("reports"));
    check_sips(&rt, "reports", (1, 7), Ok("reports"));
    check_sips(&rt, "reports", (1, 6), Err("report"));
    check_sips(&rt, "reports", (3, 2), Err("report"));
    check_sips(&rt, "reports", (3, 0), Err(""));
    check_sips(&rt, "reports", (0, 9), Err(""));
    check_sips(&rt, "", (0, 0), Ok(""));
}

// The cause of a failed write by such a writer.
fn check_cause(rt: &(impl Abort + AllocGlobal), (most, calls): (usize, u32), cause: ErrorKind) {
    let mut writer = Counted::new(Sips {
        taken: Vec::new(rt.alloc()),
        most,
        calls,
    });
    let told = match writer.write_some(b"reports") {
        Ok(_) => false,
        Err(error) => error.kind() == cause,
    };
    assert!(rt; told, "{most} bytes a call, {calls} calls");
}

// The cause of a failed call is the writer's own; that of a write which takes no byte is `WriteZero`.
#[test]
fn causes_of_failed_writes(rt: HostRuntime) {
    check_cause(&rt, (3, 0), ErrorKind::BrokenPipe);
    check_cause(&rt, (0, 1), ErrorKind::WriteZero);
}

/// Takes four bytes a call but at one call, which fails, or takes nothing: whoever tries again gets rid of them.
#[derive(Drop)]
pub struct RefusesOnce {
    pub taken: Vec<u8>,
    pub calls_before: u32,
    pub takes_nothing: bool,
}

impl Write for RefusesOnce {
    fn write(&mut self, buf: &[u8]) -> io::Result<usize> {
        if self.calls_before == 0 {
            self.calls_before = u32::MAX;
            if self.takes_nothing {
                return Ok(0);
            }
            return Err(io::Error::from(ErrorKind::Interrupted));
        }
        self.calls_before -= 1;
        let len = buf.len().min(4);
        self.taken.extend_from_slice(&buf[..len])?;
        Ok(len)
    }

    fn flush(&mut self) -> io::Result<()> {
        Ok(())
    }
}

// A text to a writer that refuses once, after `calls_before` calls.
fn check_refusing(
    rt: &(impl Abort + AllocGlobal),
    (calls_before, takes_nothing): (u32, bool),
    expected: Result<&str, &str>,
) {
    let mut writer = Counted::new(RefusesOnce {
        taken: Vec::new(rt.alloc()),
        calls_before,
        takes_nothing,
    });
    let answer = write_bytes(&mut writer, b"reports");
    let failed = writer.failed();
    let good = is_written((answer, failed), &writer.into_inner().taken, expected);
    assert!(rt;
        good,
        "after {calls_before} calls, nothing taken: {takes_nothing}"
    );
}

// A failed write is not tried again: what was written before it is all that went out.
#[test]
fn a_write_that_fails_once(rt: HostRuntime) {
    check_refusing(&rt, (0, false), Err(""));
    check_refusing(&rt, (0, true), Err(""));
    check_refusing(&rt, (1, false), Err("repo"));
    check_refusing(&rt, (1, true), Err("repo"));
}

// Three texts to a writer that refuses once, after `calls_before` calls.
fn check_refused_texts(
    rt: &(impl Abort + AllocGlobal),
    calls_before: u32,
    expected: Result<&str, &str>,
) {
    let mut writer = Counted::new(RefusesOnce {
        taken: Vec::new(rt.alloc()),
        calls_before,
        takes_nothing: false,
    });
    let texts: [&[u8]; 3] = [b"rep", b"", b"orts"];
    let answer = write_texts(&mut writer, &texts);
    let failed = writer.failed();
    let good = is_written((answer, failed), &writer.into_inner().taken, expected);
    assert!(rt; good, "texts, after {calls_before} calls");
}

// The texts after one that was not written whole are not written.
#[test]
fn texts_of_which_a_write_fails_once(rt: HostRuntime) {
    check_refused_texts(&rt, 0, Err(""));
    check_refused_texts(&rt, 1, Err("rep"));
    check_refused_texts(&rt, 2, Ok("reports"));
}
