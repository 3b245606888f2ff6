//! Readers that fail, or give little.
use std::alloc::AllocGlobal;
use std::io;
use std::io::{ErrorKind, Read};
use std::process::Abort;
use toxicap::{Counted, RunFault, load};

/// Gives at most `most` bytes a call, and fails once `calls` calls were made.
#[derive(Drop)]
pub struct Pieces<'a> {
    pub rest: &'a [u8],
    pub most: usize,
    pub calls: u32,
}

impl Read for Pieces<'_> {
    fn read(&mut self, buf: &mut [u8]) -> io::Result<usize> {
        if self.calls == 0 {
            return Err(io::Error::from(ErrorKind::Interrupted));
        }
        self.calls -= 1;
        let room = buf.len().min(self.most);
        self.rest.read(&mut buf[..room])
    }
}

// A reader that gives at most `most` bytes a call gives all its bytes in `calls` calls, of which only the last gives none.
fn check_pieces(rt: &(impl Abort + AllocGlobal), most: usize, calls: u32) {
    let mut reader = Counted::new(Pieces {
        rest: b"recorded sessions",
        most,
        calls,
    });
    let loaded = load(rt.alloc(), &mut reader);
    let good = match loaded {
        Ok(bytes) => bytes.as_slice() == b"recorded sessions".as_slice() && reader.failed() == 0,
        Err(_) => false,
    };
    assert!(rt;
        good && reader.into_inner().calls == 0,
        "{most} bytes a call"
    );
}

#[test]
fn readers_of_few_bytes(rt: HostRuntime) {
    check_pieces(&rt, 1, 18);
    check_pieces(&rt, 3, 7);
    check_pieces(&rt, 17, 2);
    check_pieces(&rt, 100, 2);
}

// A reader that fails at its second call fails at each further one, and each is counted.
#[test]
fn reader_that_fails(rt: HostRuntime) {
    let mut reader = Counted::new(Pieces {
        rest: b"recorded",
        most: 3,
        calls: 1,
    });
    let first = load(rt.alloc(), &mut reader) == Err(RunFault::ReadFailed);
    let counted = reader.failed() == 1;
    let second = load(rt.alloc(), &mut reader) == Err(RunFault::ReadFailed);
    let twice = reader.failed() == 2;
    let good = first && counted && second && twice;
    assert!(rt; good && reader.into_inner().rest == b"orded".as_slice());
}

// Gives this many zeros: what it is handed to read into is zeros already.
#[derive(Drop)]
struct Zeros {
    left: usize,
}

impl Read for Zeros {
    fn read(&mut self, buf: &mut [u8]) -> io::Result<usize> {
        let len = buf.len().min(self.left);
        self.left -= len;
        Ok(len)
    }
}

#[test]
fn reader_of_too_many_bytes(rt: HostRuntime) {
    let mut reader = Counted::new(Zeros {
        left: (1 << 30) + 1,
    });
    let refused = load(rt.alloc(), &mut reader) == Err(RunFault::CaptureTooLong);
    assert!(rt; refused && reader.failed() == 0);
}

// The cause of a failed call is the reader's own.
#[test]
fn cause_of_a_failed_read(rt: HostRuntime) {
    let mut reader = Counted::new(Pieces {
        rest: b"recorded",
        most: 3,
        calls: 0,
    });
    let mut buf = [0u8; 4];
    let told = match reader.read_some(&mut buf) {
        Ok(_) => false,
        Err(error) => error.kind() == ErrorKind::Interrupted,
    };
    assert!(rt; told);
}

/// Gives all its bytes but at one call, which is interrupted: whoever tries again gets them.
#[derive(Drop)]
pub struct InterruptedOnce<'a> {
    pub rest: &'a [u8],
    pub calls_before: u32,
}

impl Read for InterruptedOnce<'_> {
    fn read(&mut self, buf: &mut [u8]) -> io::Result<usize> {
        if self.calls_before == 0 {
            self.calls_before = u32::MAX;
            return Err(io::Error::from(ErrorKind::Interrupted));
        }
        self.calls_before -= 1;
        let room = buf.len().min(4);
        self.rest.read(&mut buf[..room])
    }
}

// A reader that is interrupted after `calls_before` calls leaves `rest` bytes unread.
fn check_interrupted(rt: &(impl Abort + AllocGlobal), calls_before: u32, rest: usize) {
    let mut reader = Counted::new(InterruptedOnce {
        rest: b"recorded",
        calls_before,
    });
    let refused = load(rt.alloc(), &mut reader) == Err(RunFault::ReadFailed);
    let good = refused && reader.failed() == 1 && reader.into_inner().rest.len() == rest;
    assert!(rt; good, "after {calls_before} calls");
}

// A failed read is not tried again: what it would have given stays unread.
#[test]
fn a_read_that_fails_once(rt: HostRuntime) {
    check_interrupted(&rt, 0, 8);
    check_interrupted(&rt, 1, 4);
}
