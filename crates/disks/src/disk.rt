//! What is asked of a disk: to open files and read them, and to keep drafts of files until they are published.
ghost use Rattle.std.specs.Prelude.{◌≡◌, ◌+◌, ◌-◌, ◌^◌, ◌<◌, is_ok, if◌then◌else◌};
ghost use Rattle.disks.specs.Histories.{failures};

use crate::read_files::ReadFiles;
use std::alloc::{AllocError, Global};
use std::io;
use thiserror::Error;

/// Why a disk did not do what it was asked.
#[derive(Clone, Copy, Debug, PartialEq, Eq, Error)]
pub enum DiskFault {
    #[error("the disk failed")]
    Failed,
    #[error("out of memory")]
    Memory,
}

impl From<io::Error> for DiskFault {
    ghost use Rattle.disks.specs.declared.disk.DiskFault.TheVariants.{Failed};

    ghost from_gives = { λ _ r. r ≡ Failed };

    fn from(_refused: io::Error) -> DiskFault {
        DiskFault::Failed
    }
}

impl From<AllocError> for DiskFault {
    ghost use Rattle.disks.specs.declared.disk.DiskFault.TheVariants.{Memory};

    ghost from_gives = { λ _ r. r ≡ Memory };

    fn from(_refused: AllocError) -> DiskFault {
        DiskFault::Memory
    }
}

/// Counts a call if it failed.
pub fn count_failure<T, E>(outcome: &Result<T, E>, failed: &mut u64)
    requires { failed.old < 2 ^ 64 - 1 }
    ensures { failed.new ≡ (if is_ok outcome.now then failed.old else failed.old + 1) }
{
    if outcome.is_err() {
        *failed += 1;
    }
}

/// Counts a call of a disk if it failed. Out of memory is no failure of the disk.
pub(crate) fn count_fault(outcome: &Result<(), DiskFault>, failed: &mut u64)
    requires { failed.old < 2 ^ 64 - 1 }
    ensures { failed.new ≡ failed.old + failures outcome.now }
{
    if let Err(DiskFault::Failed) = outcome {
        *failed += 1;
    }
}

/// Identifies a file of a disk, whatever its paths: on Linux by its device, and its inode number there.
#[derive(Clone, Copy, Debug, PartialEq, Eq)]
pub struct FileId {
    pub device: u64,
    pub inode: u64,
}

/// A file that is open to be read. `contents` is what it holds, or `None` if the disk does not tell that.
/// `identity` is the id of the file, `Some None` if no path leads to it, or `None` if the disk does not tell that.
/// `place` is the number of bytes that [`read`](DiskFile::read) has gone past.
pub trait DiskFile {
    ghost use Rattle.std.specs.Prelude.{◌≡◌, ℕ, ◌+◌, ◌≤◌, Option, length, IfErr, IfOk, IfSome, OnErr, Ok};
    ghost use Rattle.disks.specs.FileContents.{Reads, FileContents, file_len};
    ghost use Rattle.disks.specs.declared.disk.DiskFault.TheVariants.{Failed};
    ghost use Rattle.disks.specs.declared.disk.FileId.{FileId};

    ghost contents: { Self → Option FileContents };

    ghost place: { Self → ℕ };

    ghost identity: { Self → Option (Option FileId) };

    /// Identifies the file, or returns `None` if no path leads to it, or [`DiskFault::Failed`] if that cannot be known.
    fn id(&self) -> Result<Option<FileId>, DiskFault>
        ensures { IfSome (identity self.now) (λ told. result ≡ Ok told) };

    /// The number of bytes, or `None` if it is not known, such as that of a pipe.
    fn len(&self) -> Option<u64>
        ensures { IfSome (contents self.now) (λ file. IfSome result (λ len. len ≡ file_len file)) };

    /// Reads once from a place on, at most as many bytes as `room` has. It reads 0 bytes only at the end or into an empty `room`.
    fn read_at(&self, room: &mut [u8], at: usize) -> Result<usize, DiskFault>
        ensures within { IfOk result (λ n. n ≤ length room.new) }
        ensures len { length room.new ≡ length room.old }
        ensures contents { IfSome (contents self.now) (λ file. Reads result file at room.new) }
        ensures failed { IfErr result (λ fault. fault ≡ Failed) };

    /// Reads once from where the last read ended. If it fails, the place stays as it was.
    fn read(&mut self, room: &mut [u8]) -> Result<usize, DiskFault>
        ensures within { IfOk result (λ n. n ≤ length room.new) }
        ensures len { length room.new ≡ length room.old }
        ensures contents { IfSome (contents self.old) (λ file. Reads result file (place self.old) room.new) }
        ensures same { contents self.new ≡ contents self.old }
        ensures identity { identity self.new ≡ identity self.old }
        ensures place { IfSome (contents self.old) (λ _. IfOk result (λ n. place self.new ≡ place self.old + n)) }
        ensures failed { IfErr result (λ fault. fault ≡ Failed) }
        ensures as_before { OnErr result (place self.new ≡ place self.old) };
}

/// Where files are written: each as a draft, which is published when it is whole. If the disk is `Sync`, threads write drafts side by side.
/// `history` is what the paths held at first and the files that were published since, or `None` if the disk does not tell that.
/// `faults` is the number of failed calls; those that ran out of memory are none. A draft `holds` some bytes, and one that has failed holds whatever is asked.
/// A draft begins at its `path_of`, at which no file may be published. Drafts that are begun side by side need paths of their own.
/// `standing` is the file that stands at each path, by its id, and `input` the id of standard input, or `None` if the disk does not tell that.
pub trait Disk {
    ghost use Rattle.std.specs.Prelude.{◌≡◌, ℕ, ◌+◌, ◌-◌, ◌^◌, ◌<◌, [], ◌∷◌, ◌++◌, List, Option, Ok, OnErr, OnOk, is_ok, if◌then◌else◌, IfSome, IsSome, IsTrue, true};
    ghost use Rattle.std.specs.String.{string_bytes};
    ghost use Rattle.disks.specs.DraftPaths.{IsDraftPath};
    ghost use Rattle.disks.specs.Histories.{History, Publishes, failures, held_now, published_file};
    ghost use Rattle.disks.specs.ReadFiles.{ReadFilesView};
    ghost use Rattle.disks.specs.Standing.{Agree, ChangesAt, HasRead, Standing};
    ghost use Rattle.disks.specs.declared.disk.FileId.{FileId};

    /// A file that is written and not yet published. If it is dropped, it leaves nothing.
    type Draft: Drop;

    ghost history: { Self → Option History };

    ghost faults: { Self → ℕ };

    ghost holds: { Self.Draft → List ℕ → Type 0 };

    ghost path_of: { Self.Draft → List ℕ };

    ghost standing: { Self → Option Standing };

    ghost input: { Self → Option (Option FileId) };

    ghost is_held: { Self → List ℕ → Type 0 };

    ghost is_swept: { Self → List ℕ → ReadFilesView → Type 0 };

    /// Holds a folder for the drafts of this run until the disk is dropped.
    /// If the folder's file system has no locks, it succeeds and the folder is not held.
    /// It fails if the folder cannot be opened, if another run holds it, or if not all files that this run has read are known.
    fn hold(&mut self, folder: &str, read: &ReadFiles) -> Result<(), DiskFault>
        requires { faults self.old < 2 ^ 64 - 1 }
        ensures known { OnOk result (read.now.are_known ≡ true) }
        ensures held { OnOk result (is_held self.new folder.now) }
        ensures as_before { history self.new ≡ history self.old }
        ensures stands { standing self.new ≡ standing self.old }
        ensures counted { faults self.new ≡ faults self.old + failures result };

    /// Removes drafts that earlier runs left in a held folder, except files that this run has read. It may leave some of them.
    fn sweep(&self, alloc: Global, folder: &str, read: &ReadFiles) -> Result<(), AllocError>
        requires { is_held self.now folder.now }
        ensures { OnOk result (is_swept self.now folder.now read.now) };

    /// Begins an empty draft at a path. It may have failed, and it has if something stands at the path.
    fn draft(&self, path: String) -> Self::Draft
        requires { IsDraftPath (string_bytes path) }
        ensures empty { holds result [] }
        ensures path { path_of result ≡ string_bytes path }
        ensures taken { IfSome (history self.now) (λ h. IsSome (held_now h (string_bytes path)) → (bytes : List ℕ) → holds result bytes) };

    /// Appends bytes to a draft. A draft that fails stays so, and is not published.
    fn append(draft: &mut Self::Draft, bytes: &[u8])
        ensures appended { (had : List ℕ) → holds draft.old had → holds draft.new (had ++ bytes.now) }
        ensures path { path_of draft.new ≡ path_of draft.old };

    /// Whether a draft has failed: such a draft is not published, and takes no room of the disk.
    fn has_failed(draft: &Self::Draft) -> bool
        ensures { IsTrue result → (bytes : List ℕ) → holds draft.now bytes };

    /// Refuses a path at which something except a file stands, or a file that may not be written, or one that this run has read.
    fn allow_publishing(&mut self, path: &str, read: &ReadFiles) -> Result<(), DiskFault>
        requires { faults self.old < 2 ^ 64 - 1 }
        ensures unread { OnOk result (IfSome (standing self.old) (λ stood. HasRead read.now (stood path.now) → ⊥)) }
        ensures as_before { history self.new ≡ history self.old }
        ensures stands { standing self.new ≡ standing self.old }
        ensures swept { (folder : List ℕ) (read : ReadFilesView) → is_swept self.old folder read → is_swept self.new folder read }
        ensures counted { faults self.new ≡ faults self.old + failures result };

    /// Publishes a draft as the file of a path, in place of the one that stood there. If it fails, the disk's files are as they were.
    fn publish(&mut self, draft: Self::Draft, path: &str) -> Result<(), DiskFault>
        requires count { faults self.old < 2 ^ 64 - 1 }
        requires apart { IsDraftPath path.now → ⊥ }
        ensures published { (bytes : List ℕ) → holds draft bytes → OnOk result (Publishes (history self.old) (history self.new) (published_file path.now bytes ∷ [])) }
        ensures as_before { OnErr result (history self.new ≡ history self.old) }
        ensures others { ChangesAt (standing self.old) (standing self.new) path.now }
        ensures stands { OnErr result (standing self.new ≡ standing self.old) }
        ensures swept { (folder : List ℕ) (read : ReadFilesView) → is_swept self.old folder read → is_swept self.new folder read }
        ensures counted { faults self.new ≡ faults self.old + failures result };

    /// Looks whether each file that was published stands at its path still.
    /// It fails with the number of those that were published before the first that does not.
    fn see_published(&mut self) -> Result<(), usize>
        requires { faults self.old < 2 ^ 64 - 1 }
        ensures told { IfSome (history self.old) (λ _. is_ok result ≡ true) }
        ensures as_before { history self.new ≡ history self.old }
        ensures stands { standing self.new ≡ standing self.old }
        ensures swept { (folder : List ℕ) (read : ReadFilesView) → is_swept self.old folder read → is_swept self.new folder read }
        ensures counted { faults self.new ≡ (if is_ok result then faults self.old else faults self.old + 1) };

    /// Identifies the file of standard input: `None` if it is none of the disk, [`DiskFault::Failed`] if that cannot be known.
    fn input_id(&self) -> Result<Option<FileId>, DiskFault>
        ensures { IfSome (input self.now) (λ told. result ≡ Ok told) };

    ghost told: { (disk : Self) → Agree (history disk) (standing disk) };
}

/// A disk whose files can be read.
pub trait ReadDisk: Disk {
    ghost use Rattle.std.specs.Prelude.{◌≡◌, IfOk, IfSome, Some};
    ghost use Rattle.disks.specs.FileContents.{Opens};
    ghost use Rattle.disks.specs.Histories.{held_now};
    ghost use Rattle.disks.specs.Standing.{id_of};

    /// An open file.
    type File: DiskFile + Drop;

    /// Opens the file at a path, to be read from its first byte on.
    fn open(&self, alloc: Global, path: &str) -> Result<Self::File, DiskFault>
        ensures contents { IfSome (Self.history self.now) (λ h. Opens Self.File.contents (held_now h path.now) result) }
        ensures place { IfOk result (λ file. Self.File.place file ≡ 0) }
        ensures identity { IfSome (Self.standing self.now) (λ stood. IfOk result (λ file. Self.File.identity file ≡ Some (id_of (stood path.now)))) };
}
