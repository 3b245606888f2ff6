//! Readers and writers that count their failed calls, and a reader whose bytes a writer gets too.
ghost use Rattle.std.specs.Prelude.{◌≡◌, ◌+◌, ◌-◌, ◌^◌, ◌<◌, length, IfOk, is_ok, if◌then◌else◌, ℕ, ◌≤◌, List, OnOk, IfErr, IfSome, take, OnErr};
ghost use Rattle.run_files.specs.{ReadsAtMost, WritesAtMost, ReadConsumes, WriteAppends, Consumes, IsAtEnd, Appends, capture_limit, StopsLoading, joined};

use crate::error::RunFault;
use crate::inputs::load_rest;
use disks::count_failure;
use std::alloc::{AllocError, Global};
use std::io;
use std::io::{ErrorKind, Read, Write};
use std::marker::Model;

/// A reader or a writer that counts its failed calls, from 0. No other code can raise the number. Contracts see the inner reader or writer and
/// the number.
#[derive(Drop)]
pub struct Counted<T> {
    inner: T,
    failed: u64,
}

impl<T> Model for Counted<T> {
    ghost use Rattle.run_files.specs.Streams.{CountedView};

    ghost Value = { CountedView T };

    ghost view = { λ c. record { inner = c.inner; failed = c.failed } };
}

impl<T> Counted<T> {
    /// Wraps a reader or a writer, of which no call is counted as failed yet.
    pub fn new(inner: T) -> Self
        ensures { result ≡ record { inner = inner; failed = 0 } }
    {
        Counted { inner, failed: 0 }
    }

    /// The number of failed calls.
    pub fn failed(&self) -> u64
        ensures { result ≡ self.now.failed }
    {
        self.failed
    }

    /// The reader or writer.
    pub fn into_inner(self) -> T
        ensures { result ≡ self.inner }
    {
        self.inner
    }
}

impl<R: Read> Counted<R> {
    /// Reads once, at most as many bytes as `buf` has room for; 0 of them only at the end or into an empty `buf`. Each error is a failed
    /// call, [`ErrorKind::Interrupted`] too, and takes no byte.
    pub fn read_some(&mut self, buf: &mut [u8]) -> io::Result<usize>
        requires { self.old.failed < 2 ^ 64 - 1 }
        ensures bound { ReadsAtMost result buf.new }
        ensures bytes { ReadConsumes (R.remaining self.old.inner) (R.remaining self.new.inner) result buf.new }
        ensures failed { self.new.failed ≡ (if is_ok result then self.old.failed else self.old.failed + 1) }
    {
        let result = self.inner.read(buf);
        count_failure(&result, &mut self.failed);
        result
    }
}

impl<W: Write> Counted<W> {
    /// Writes once, a first part of `buf`. Each error is a failed call, and so is a call that takes none of the bytes, which is answered as
    /// [`ErrorKind::WriteZero`].
    pub fn write_some(&mut self, buf: &[u8]) -> io::Result<usize>
        requires { self.old.failed < 2 ^ 64 - 1 }
        ensures bound { WritesAtMost result buf.now }
        ensures takes_some { IfOk result (λ n. 0 < length buf.now → 0 < n) }
        ensures bytes { WriteAppends (W.contents self.old.inner) (W.contents self.new.inner) result buf.now }
        ensures failed { self.new.failed ≡ (if is_ok result then self.old.failed else self.old.failed + 1) }
    {
        let result = match self.inner.write(buf) {
            Ok(0) if !buf.is_empty() => Err(io::Error::from(ErrorKind::WriteZero)),
            other => other,
        };
        count_failure(&result, &mut self.failed);
        result
    }
}

// The number of bytes that are asked for at once.
pub(crate) const READ_LEN: usize = 1 << 18;

/// Reads all that the reader has, up to 2^30 bytes, by at most 2^30 + 1 reads.
///
/// # Errors
/// [`RunFault::CaptureTooLong`] as soon as more bytes came, [`RunFault::ReadFailed`] at the first read that fails, and [`RunFault::Memory`].
pub fn load<R: Read>(alloc: Global, reader: &mut Counted<R>) -> Result<Vec<u8>, RunFault>
    requires { reader.old.failed < 2 ^ 64 - 1 }

    ensures whole { IfOk result (λ bytes. IfSome (R.remaining reader.old.inner) (λ all. bytes.items ≡ all)) }
    ensures consumed { IfOk result (λ bytes. Consumes (R.remaining reader.old.inner) (R.remaining reader.new.inner) bytes.items) }
    ensures at_end { OnOk result (IsAtEnd (R.remaining reader.new.inner)) }
    ensures within { IfOk result (λ bytes. length bytes.items ≤ capture_limit) }
    ensures none_failed { OnOk result (reader.new.failed ≡ reader.old.failed) }

    ensures refused { IfErr result (λ fault. (given : List ℕ)
        × Consumes (R.remaining reader.old.inner) (R.remaining reader.new.inner) given
        × StopsLoading fault (length given) reader.old.failed reader.new.failed) }
{
    let mut room = room_to_read(alloc)?;
    let bytes = load_rest(reader, Vec::new(alloc), room.as_mut_slice())?;
    Ok(bytes)
}

// Room for one read. It stands apart so that no other proof meets this list of zeros.
pub(crate) fn room_to_read(alloc: Global) -> Result<Vec<u8>, AllocError>
    ensures { IfOk result (λ room. 0 < length room.items) }
{
    vec![in alloc; 0u8; READ_LEN]
}

/// Writes all the bytes, by as many writes as the writer needs.
///
/// # Errors
/// [`RunFault::WriteFailed`] at the first write that fails or takes no byte. The writer then has a first part of the bytes.
pub fn write_bytes<W: Write>(writer: &mut Counted<W>, bytes: &[u8]) -> Result<(), RunFault>
    requires { writer.old.failed < 2 ^ 64 - 1 }

    ensures whole { OnOk result (Appends (W.contents writer.old.inner) (W.contents writer.new.inner) bytes.now) }
    ensures none_failed { OnOk result (writer.new.failed ≡ writer.old.failed) }

    ensures refused { IfErr result (λ fault. fault ≡ RunFault.WriteFailed) }
    ensures one_failed { OnErr result (writer.new.failed ≡ writer.old.failed + 1) }
    ensures first_part { OnErr result ((written : ℕ) × (written < length bytes.now)
        × Appends (W.contents writer.old.inner) (W.contents writer.new.inner) (take written bytes.now)) }
{
    let mut written = 0;
    while written < bytes.len() {
        let Ok(len) = writer.write_some(&bytes[written..]) else {
            return Err(RunFault::WriteFailed);
        };
        written += len;
    }
    Ok(())
}

/// Writes some texts, one after another, as [`write_bytes`] does.
pub fn write_texts<W: Write>(writer: &mut Counted<W>, texts: &[&[u8]]) -> Result<(), RunFault>
    requires { writer.old.failed < 2 ^ 64 - 1 }

    ensures whole { OnOk result (Appends (W.contents writer.old.inner) (W.contents writer.new.inner) (joined texts.now)) }
    ensures none_failed { OnOk result (writer.new.failed ≡ writer.old.failed) }

    ensures refused { IfErr result (λ fault. fault ≡ RunFault.WriteFailed) }
    ensures one_failed { OnErr result (writer.new.failed ≡ writer.old.failed + 1) }
    ensures first_part { OnErr result ((written : ℕ) × (written < length (joined texts.now))
        × Appends (W.contents writer.old.inner) (W.contents writer.new.inner) (take written (joined texts.now))) }
{
    for text in texts {
        write_bytes(writer, text)?;
    }
    Ok(())
}

/// A reader that copies what it gives to a writer. Contracts see the reader only: the copy may be short.
#[derive(Drop)]
pub struct TeeReader<R, W> {
    /// The reader that is read.
    pub inner: R,
    /// The writer that gets a copy. If a write fails or takes only a part, the rest of that read is not copied.
    pub copy: W,
}

impl<R: Read, W: Write> Read for TeeReader<R, W> {
    ghost remaining = { λ t. R.remaining t.inner };

    fn read(&mut self, buf: &mut [u8]) -> io::Result<usize> {
        let len = self.inner.read(buf)?;
        let _ = self.copy.write(&buf[..len]);
        Ok(len)
    }
}
