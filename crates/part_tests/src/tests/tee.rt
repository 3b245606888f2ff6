//! A reader that copies what passes.
ghost use Rattle.std.specs.Prelude.{◌≤◌, IfOk};

use run_files::TeeReader;
use std::io::{self, Cursor, ErrorKind, Read, Write};

// Gives or takes at most four bytes a call, except one call, which fails.
#[derive(Drop)]
struct FailsOnce {
    calls_before: u32,
}

impl FailsOnce {
    fn call(&mut self, len: usize) -> io::Result<usize>
        ensures within { IfOk result (λ given. given ≤ len) }
        ensures few { IfOk result (λ given. given ≤ 4) }
    {
        if self.calls_before == 0 {
            self.calls_before = u32::MAX;
            return Err(io::Error::from(ErrorKind::Interrupted));
        }
        self.calls_before -= 1;
        Ok(len.min(4))
    }
}

impl Read for FailsOnce {
    fn read(&mut self, buf: &mut [u8]) -> io::Result<usize> {
        let len = self.call(buf.len())?;
        buf[..len].copy_from_slice(&b"read"[..len]);
        Ok(len)
    }
}

impl Write for FailsOnce {
    fn write(&mut self, buf: &[u8]) -> io::Result<usize> {
        self.call(buf.len())
    }

    fn flush(&mut self) -> io::Result<()> {
        Ok(())
    }
}

fn told<T>(answer: io::Result<T>) -> Result<T, ErrorKind> {
    answer.map_err(|error| error.kind())
}

// A failed read is not tried again, and no other fails, although the copy has room for six bytes only.
#[test]
fn reads_copied(rt: HostRuntime) {
    let mut reader = TeeReader {
        inner: FailsOnce { calls_before: 1 },
        copy: Cursor::new([0u8; 6]),
    };
    let mut buf = [0u8; 9];
    assert!(rt; told(reader.read(&mut buf)) == Ok(4));
    assert!(rt; told(reader.read(&mut buf)) == Err(ErrorKind::Interrupted));
    assert!(rt; told(reader.read(&mut buf)) == Ok(4));
    assert!(rt; told(reader.read(&mut buf)) == Ok(4));
    assert!(rt; buf.starts_with(b"read") && reader.copy.get_ref() == b"readre");
}

// If a copy fails, the read does not.
#[test]
fn failed_copy(rt: HostRuntime) {
    let mut reader = TeeReader {
        inner: FailsOnce { calls_before: 9 },
        copy: FailsOnce { calls_before: 0 },
    };
    let mut buf = [0u8; 9];
    assert!(rt; told(reader.read(&mut buf)) == Ok(4));
}
