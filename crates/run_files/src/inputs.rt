//! Loading all of an input, a reader or a file of a disk by its path: a large file by workers, block by block.
ghost use Rattle.std.specs.Prelude.{◌≡◌, ◌≤◌, ◌<◌, ◌+◌, ◌++◌, ℕ, List, length, take, IfErr, IfOk, IfSome, Some, OnOk, Err, Ok};
ghost use Rattle.run_files.specs.{AgreesUnlessMemory, capture_limit, ComesOn, LoadsAfter, Stops, IsOfFile, text_of_file, run_refusal, held_now, text_at};
ghost use Rattle.run_files.specs.{IsFileAt, with_file, id_of};

use crate::block_loading::load_text;
use crate::dumps::Text;
use crate::error::RunFault;
use crate::streams::{Counted, room_to_read};
use disks::{DiskFault, DiskFile, ReadDisk, ReadFiles};
use job_matrix::Plan;
use pcap_records::CAPTURE_LIMIT;
use std::alloc::Global;
use std::io::Read;
use std::thread::Threads;

pub(crate) trait Input {
    ghost use Rattle.std.specs.Prelude.{◌≡◌, ◌<◌, ◌≤◌, ◌++◌, ℕ, List, length, take, IfNone, IfSome};
    ghost use Rattle.run_files.specs.Loading.{ComesOn};

    ghost can_read: { Self → Type 0 };

    // Since it was in the first state it gave these bytes, and no read failed.
    ghost gives: { Self → Self → List ℕ → Type 0 };

    // It gave them, and then a read failed.
    ghost fails: { Self → Self → List ℕ → Type 0 };

    ghost is_at_end: { Self → Type 0 };

    /// Reads once, at most as many bytes as `room` has; 0 of them only at the end or into an empty `room`. None if the read failed.
    fn read_more(&mut self, room: &mut [u8]) -> Option<usize>
        requires { can_read self.old }
        ensures within { IfSome result (λ n. n ≤ length room.new) }
        ensures again { IfSome result (λ n. can_read self.new) }
        ensures came { IfSome result (λ n. (bytes : List ℕ) → ComesOn gives self.old bytes self.new (bytes ++ take n room.new)) }
        ensures at_end { IfSome result (λ n. n ≡ 0 → 0 < length room.new → is_at_end self.new) }
        ensures failed { IfNone result ((before : Self) (bytes : List ℕ) → gives before self.old bytes → fails before self.new bytes) };
}

impl<R: Read> Input for Counted<R> {
    ghost use Rattle.std.specs.Prelude.{◌≡◌, ◌+◌, ◌-◌, ◌<◌, ◌^◌};
    ghost use Rattle.run_files.specs.Words.{Consumes, IsAtEnd};

    ghost can_read = { λ c. c.failed < 2 ^ 64 - 1 };

    ghost gives = { λ before now bytes. Consumes (R.remaining before.inner) (R.remaining now.inner) bytes × (now.failed ≡ before.failed) };

    ghost fails = { λ before now bytes. Consumes (R.remaining before.inner) (R.remaining now.inner) bytes × (now.failed ≡ before.failed + 1) };

    ghost is_at_end = { λ c. IsAtEnd (R.remaining c.inner) };

    fn read_more(&mut self, room: &mut [u8]) -> Option<usize> {
        match self.read_some(room) {
            Ok(len) => Some(len),
            Err(_) => None,
        }
    }
}

/// A file that is read from where it is.
#[derive(Drop)]
pub(crate) struct OpenFile<F> {
    pub(crate) file: F,
}

impl<F: DiskFile> Input for OpenFile<F> {
    ghost use Rattle.run_files.specs.Loading.{CameOf, FailedOf, IsPast};

    ghost can_read = { λ o. Unit {0} };

    ghost gives = { λ before now bytes. CameOf (F.contents before.file) (F.contents now.file) (F.place now.file) bytes };

    ghost fails = { λ before now bytes. FailedOf (F.contents before.file) (F.contents now.file) (F.place now.file) bytes };

    ghost is_at_end = { λ o. IsPast (F.contents o.file) (F.place o.file) };

    fn read_more(&mut self, room: &mut [u8]) -> Option<usize> {
        match self.file.read(room) {
            Ok(len) => Some(len),
            Err(_) => None,
        }
    }
}

// Reads once more after `came` bytes. Gives the number of bytes that came then, 0 only at the end or into an empty `room`.
pub(crate) fn read_next<I: Input>(
    input: &mut I,
    room: &mut [u8],
    came: usize,
) -> Result<usize, RunFault>
    requires can { I.can_read input.old }
    requires short { came ≤ capture_limit }
    ensures within { IfOk result (λ n. (n ≤ length room.new) × (came + n ≤ capture_limit)) }
    ensures again { IfOk result (λ n. I.can_read input.new) }
    ensures came { IfOk result (λ n. (bytes : List ℕ) → ComesOn I.gives input.old bytes input.new (bytes ++ take n room.new)) }
    ensures at_end { IfOk result (λ n. n ≡ 0 → 0 < length room.new → I.is_at_end input.new) }
    ensures stops { IfErr result (λ fault. (before : I) (bytes : List ℕ) → length bytes ≡ came → I.gives before input.old bytes
        → Stops (I.gives before input.new) (I.fails before input.new) fault) }
{
    let Some(len) = input.read_more(room) else {
        return Err(RunFault::ReadFailed);
    };
    if len > CAPTURE_LIMIT - came {
        return Err(RunFault::CaptureTooLong);
    }
    Ok(len)
}

/// Loads all bytes of an input after its first ones, which came already.
pub(crate) fn load_rest<I: Input>(
    input: &mut I,
    came: Vec<u8>,
    buffer: &mut [u8],
) -> Result<Vec<u8>, RunFault>
    requires can { I.can_read input.old }
    requires short { length came.items ≤ capture_limit }
    requires room { 0 < length buffer.old }
    ensures loads { LoadsAfter I.gives I.fails I.is_at_end input.old came.items input.new (λ bytes. bytes.items) result }
    ensures first { IfOk result (λ bytes. (rest : List ℕ) × (bytes.items ≡ came.items ++ rest)) }
    ensures within { IfOk result (λ bytes. length bytes.items ≤ capture_limit) }
{
    let mut bytes = came;
    'reads: loop {
        let len = read_next(input, buffer, bytes.len())?;
        if len == 0 {
            return Ok(bytes);
        }
        bytes.extend_from_slice(&buffer[..len])?;
    }
}

pub(crate) fn load_whole<F: DiskFile + Drop>(alloc: Global, file: F) -> Result<Vec<u8>, RunFault>
    requires { F.place file ≡ 0 }
    ensures contents { IfSome (F.contents file) (λ f. AgreesUnlessMemory run_refusal (λ bytes. bytes.items) result (text_of_file (Some f))) }
    ensures within { IfOk result (λ bytes. length bytes.items ≤ capture_limit) }
    ensures of_file { IfErr result IsOfFile }
{
    let mut room = room_to_read(alloc)?;
    load_rest(&mut OpenFile { file }, Vec::new(alloc), room.as_mut_slice())
}

/// Loads all bytes of the file at a path, and adds it to those that were read.
///
/// # Errors
/// [`RunFault::ReadFailed`] if no file can be opened and read there, [`RunFault::CaptureTooLong`], and [`RunFault::Memory`].
pub fn load_file<D: ReadDisk>(
    alloc: Global,
    disk: &D,
    path: &str,
    read: &mut ReadFiles,
) -> Result<Vec<u8>, RunFault>
    ensures contents { IfSome (D.history disk.now) (λ h.
        AgreesUnlessMemory run_refusal (λ bytes. bytes.items) result (text_at (held_now h) path.now)) }
    ensures read { IfSome (D.standing disk.now) (λ stood. OnOk result (read.new ≡ with_file read.old (Ok (id_of (stood path.now))))) }
    ensures within { IfOk result (λ bytes. length bytes.items ≤ capture_limit) }
    ensures of_file { IfErr result IsOfFile }
{
    let file = opened(alloc, disk, path)?;
    read.add(file.id())?;
    load_whole(alloc, file)
}

/// Loads the file at a path as [`load_file`] does, one of several blocks by the workers of a plan. What is written to the file meanwhile may
/// be loaded or not. The errors are those of [`load_file`].
pub fn load_by_workers<R: Threads + Sync, D: ReadDisk>(
    rt: &R,
    alloc: Global,
    disk: &D,
    path: &str,
    plan: Plan,
    read: &mut ReadFiles,
) -> Result<Text<'static>, RunFault>
where
    D::File: Sync,
    ensures contents { IfSome (D.history disk.now) (λ h.
        AgreesUnlessMemory run_refusal (λ text. text) result (text_at (held_now h) path.now)) }
    ensures read { IfSome (D.standing disk.now) (λ stood. OnOk result (read.new ≡ with_file read.old (Ok (id_of (stood path.now))))) }
    ensures within { IfOk result (λ text. length text ≤ capture_limit) }
    ensures of_file { IfErr result IsOfFile }
{
    let file = opened(alloc, disk, path)?;
    read.add(file.id())?;
    load_text(rt, alloc, file, plan)
}

pub(crate) fn opened<D: ReadDisk>(alloc: Global, disk: &D, path: &str) -> Result<D::File, RunFault>
    ensures contents { IfSome (D.history disk.now) (λ h. IfOk result (λ file. IsFileAt (held_now h path.now) (D.File.contents file))) }
    ensures place { IfOk result (λ file. D.File.place file ≡ 0) }
    ensures identity { IfSome (D.standing disk.now) (λ stood. IfOk result (λ file. D.File.identity file ≡ Some (id_of (stood path.now)))) }
    ensures untold { IfSome (D.history disk.now) (λ h. IfErr result (λ fault.
        IfSome (run_refusal fault) (λ refused. text_at (held_now h) path.now ≡ Err refused))) }
    ensures of_file { IfErr result IsOfFile }
{
    match disk.open(alloc, path) {
        Ok(file) => Ok(file),
        Err(DiskFault::Failed) => Err(RunFault::ReadFailed),
        Err(DiskFault::Memory) => Err(RunFault::Memory),
    }
}
