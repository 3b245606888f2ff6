//! The disk of the host: each method is a few calls of its files. It tells nothing of what its paths hold, since others may change them.
ghost use Rattle.std.specs.Prelude.{◌≡◌, true, None, IsTrue};
ghost use Rattle.disks.specs.DraftPaths.{is_draft_name, IsDraftPath};

use crate::disk::{Disk, DiskFault, DiskFile, FileId, ReadDisk, count_failure, count_fault};
use crate::host_drafts::HostDraft;
use crate::host_files::{FoundFile, HostFiles, WrittenFile, id_of};
use crate::read_files::ReadFiles;
use std::alloc::{AllocError, Global};
use std::fs::{DirEntry, File, OpenFile, TryLockError};
use std::io::{Error, ErrorKind, Read};
use std::os::unix::fs::FileExt;
use std::rt::Files;

/// A file that one process can hold while it has the file open.
pub trait Lockable {
    /// Tries to hold the file and waits for nobody. [`TryLockError::WouldBlock`] means that another process holds it.
    /// Any other error means that its file system has no locks.
    fn try_hold(&self) -> Result<(), TryLockError>;
}

impl Lockable for File {
    fn try_hold(&self) -> Result<(), TryLockError> {
        self.try_lock()
    }
}

/// A file that was published, and its path.
#[derive(Drop)]
struct PublishedFile {
    path: String,
    file: WrittenFile,
}

/// The file system that a runtime opens files of.
#[derive(Drop)]
pub struct HostDisk<'a, F: Files> {
    alloc: Global,
    files: HostFiles<'a, F>,
    held: Option<F::File>,
    published: Vec<PublishedFile>,
    failed: u64,
}

impl<'a, F: Files> HostDisk<'a, F> {
    ghost use Rattle.std.specs.Prelude.{◌≡◌};

    /// A disk of a runtime's files, of which no call has failed yet. It allocates nothing.
    pub fn new(alloc: Global, files: &'a F) -> Self
        ensures { result.failed ≡ 0 }
    {
        HostDisk {
            alloc,
            files: HostFiles::of(files),
            held: None,
            published: Vec::new(alloc),
            failed: 0,
        }
    }

    // Refuses a path of anything except a file, of a file that may not be written, or of one that was read. A pipe is not opened: it would wait.
    fn look_at(&self, path: &str, read: &ReadFiles) -> Result<(), DiskFault> {
        match self.files.found(path)? {
            None => Ok(()),
            Some(found) if !found.was_read(read) => found.try_writing(&self.files, read),
            Some(_) => Err(DiskFault::Failed),
        }
    }

    fn publish_draft(&mut self, draft: HostDraft<'a, F>, path: &str) -> Result<(), DiskFault>
        ensures { self.new.failed ≡ self.old.failed }
    {
        let file = draft.written().ok_or(DiskFault::Failed)?;
        let kept = String::from_str(self.alloc, path)?;
        self.published
            .push(PublishedFile { path: kept, file })
            .map_err(AllocError::from)?;
        let published = draft.publish(path);
        if published.is_err() {
            self.published.pop();
        }
        published
    }

    // Removes an entry of a folder if it is a draft that was left. Only a file is: a run leaves no link, pipe or folder.
    fn remove_left(&self, entry: &DirEntry<(&'a F, Global), Global>, read: &ReadFiles) {
        if is_numbered_draft(entry.file_name().as_bytes())
            && let Some(found) = FoundFile::in_folder(entry)
            && !found.was_read(read)
        {
            found.remove(&self.files, read);
        }
    }
}

impl<'a, F: Files> HostDisk<'a, F>
where
    F::File: Lockable,
{
    ghost use Rattle.std.specs.Prelude.{◌≡◌, true, OnOk};

    // Without locks drafts of other runs may be there, so `sweep` removes none if nothing is held.
    fn hold_folder(&mut self, folder: &str, read: &ReadFiles) -> Result<(), DiskFault>
        ensures known { OnOk result (read.now.are_known ≡ true) }
        ensures same { self.new.failed ≡ self.old.failed }
    {
        if !read.are_known() {
            return Err(DiskFault::Failed);
        }
        let opened = self.files.open_folder(folder)?;
        self.held = match opened.try_hold() {
            Ok(()) => Some(opened),
            Err(TryLockError::WouldBlock) => return Err(DiskFault::Failed),
            Err(TryLockError::Error(_)) => None,
        };
        Ok(())
    }
}

impl<F: Files> HostDisk<'_, F> {
    // Whether the folder that is held stands at the path still.
    fn holds(&self, folder: &str) -> bool {
        match (&self.held, self.files.id(folder)) {
            (Some(held), Ok(id)) => held.metadata().is_ok_and(|metadata| id_of(&metadata) == id),
            _ => false,
        }
    }
}

// The name of each draft begins with it; a number without leading zeros follows.
const DRAFT_NAME: &[u8] = b"toxicap.unfinished-";

fn is_numbered_draft(name: &[u8]) -> bool
    ensures { IsTrue result → is_draft_name name.now ≡ true }
{
    match name.strip_prefix(DRAFT_NAME) {
        None | Some([] | [b'0', _, ..]) => false,
        Some(number) => number.iter().all(|digit| digit.is_ascii_digit()),
    }
}

const STANDARD_INPUT: &str = "/dev/stdin";

impl<'a, F: Files> Disk for HostDisk<'a, F>
where
    F::File: Lockable,
{
    ghost use Rattle.std.specs.String.{string_bytes};

    type Draft = HostDraft<'a, F>;

    ghost history = { λ _. None };

    ghost faults = { λ d. d.failed };

    ghost holds = { λ _ _. Unit {0} };

    ghost path_of = { λ d. string_bytes d.path };

    ghost standing = { λ _. None };

    ghost input = { λ _. None };

    ghost is_held = { λ _ _. Unit {0} };

    ghost is_swept = { λ _ _ _. Unit {0} };

    fn hold(&mut self, folder: &str, read: &ReadFiles) -> Result<(), DiskFault> {
        let held = self.hold_folder(folder, read);
        count_fault(&held, &mut self.failed);
        held
    }

    fn sweep(&self, alloc: Global, folder: &str, read: &ReadFiles) -> Result<(), AllocError> {
        if !self.holds(folder) {
            return Ok(());
        }
        let entries = match self.files.entries(alloc, folder) {
            Ok(entries) => entries,
            Err(error) => return unless_memory(error),
        };
        for entry in entries {
            match entry {
                Ok(entry) => self.remove_left(&entry, read),
                Err(error) => unless_memory(error)?,
            }
        }
        Ok(())
    }

    fn draft(&self, path: String) -> HostDraft<'a, F> {
        HostDraft::begun(self.files.again(), path)
    }

    fn append(draft: &mut HostDraft<'a, F>, bytes: &[u8]) {
        draft.append(bytes);
    }

    fn has_failed(draft: &HostDraft<'a, F>) -> bool {
        draft.id().is_none()
    }

    fn allow_publishing(&mut self, path: &str, read: &ReadFiles) -> Result<(), DiskFault> {
        let allowed = self.look_at(path, read);
        count_fault(&allowed, &mut self.failed);
        allowed
    }

    fn publish(&mut self, draft: HostDraft<'a, F>, path: &str) -> Result<(), DiskFault> {
        let published = self.publish_draft(draft, path);
        count_fault(&published, &mut self.failed);
        published
    }

    fn see_published(&mut self) -> Result<(), usize> {
        let replaced = self
            .published
            .iter()
            .position(|own| !self.files.is_written_at(&own.path, &own.file));
        let seen = replaced.map_or(Ok(()), Err);
        count_failure(&seen, &mut self.failed);
        seen
    }

    fn input_id(&self) -> Result<Option<FileId>, DiskFault> {
        Ok(Some(self.files.id(STANDARD_INPUT)?))
    }

    ghost told = { λ _. tt };
}

fn unless_memory(error: Error) -> Result<(), AllocError> {
    match error.kind() {
        ErrorKind::OutOfMemory => Err(AllocError),
        _ => Ok(()),
    }
}

/// An open file of the host.
#[derive(Drop)]
pub struct HostFile<F: OpenFile + FileExt + Read + Drop> {
    file: F,
}

impl<F: OpenFile + FileExt + Read + Drop> DiskFile for HostFile<F> {
    ghost contents = { λ _. None };

    ghost place = { λ _. 0 };

    ghost identity = { λ _. None };

    fn id(&self) -> Result<Option<FileId>, DiskFault> {
        let metadata = self.file.metadata()?;
        Ok(Some(id_of(&metadata)))
    }

    fn len(&self) -> Option<u64> {
        match self.file.metadata() {
            Ok(metadata) if metadata.is_file() => Some(metadata.len()),
            _ => None,
        }
    }

    fn read_at(&self, room: &mut [u8], at: usize) -> Result<usize, DiskFault> {
        Ok(self.file.read_at(room, at as u64)?)
    }

    fn read(&mut self, room: &mut [u8]) -> Result<usize, DiskFault> {
        Ok(self.file.read(room)?)
    }
}

impl<'a, F: Files> ReadDisk for HostDisk<'a, F>
where
    F::File: FileExt + Lockable,
{
    type File = HostFile<F::File>;

    fn open(&self, _alloc: Global, path: &str) -> Result<HostFile<F::File>, DiskFault> {
        let file = self.files.open(path)?;
        Ok(HostFile { file })
    }
}
