//! Files of the host by their paths. Only this file removes and renames them, and each such call has a guard in its `requires`.
ghost use Rattle.std.specs.Prelude.{◌≡◌, ◌↔◌, true, Contains, IfSome, IsTrue};
ghost use Rattle.std.specs.Fs.{dir_entry_name};
ghost use Rattle.disks.specs.DraftPaths.{is_draft_name, IsDraftPath};

use crate::disk::{DiskFault, FileId};
use crate::read_files::ReadFiles;
use std::alloc::Global;
use std::fs::{self, DirEntry, Metadata, OpenFile, OpenOptions, ReadDir};
use std::io::{self, ErrorKind};
use std::marker::Model;
use std::os::unix::fs::MetadataExt;
use std::path::Path;
use std::rt::Files;

/// The file system that a runtime opens files of.
#[derive(Drop)]
pub(crate) struct HostFiles<'a, F: Files> {
    files: &'a F,
}

impl<'a, F: Files> HostFiles<'a, F> {
    pub(crate) fn of(files: &'a F) -> Self {
        HostFiles { files }
    }

    pub(crate) fn again(&self) -> Self {
        HostFiles { files: self.files }
    }

    /// Opens a file to be read, or a folder.
    pub(crate) fn open(&self, path: &str) -> io::Result<F::File> {
        fs::open(self.files, path)
    }

    /// Opens a folder. Nothing else is opened: a pipe would wait.
    pub(crate) fn open_folder(&self, path: &str) -> Result<F::File, DiskFault> {
        if !fs::metadata(self.files, path)?.is_dir() {
            return Err(DiskFault::Failed);
        }
        Ok(self.open(path)?)
    }

    pub(crate) fn entries(
        &self,
        alloc: Global,
        folder: &str,
    ) -> io::Result<ReadDir<(&'a F, Global), Global>> {
        fs::read_dir(&(self.files, alloc), folder)
    }

    /// Identifies what stands at a path, or what a link there leads to.
    pub(crate) fn id(&self, path: &str) -> io::Result<FileId> {
        Ok(id_of(&fs::metadata(self.files, path)?))
    }

    // Whether this file, which is open, stands at a path. A link there is another file.
    fn is_at(&self, path: &str, id: FileId) -> bool {
        match fs::symlink_metadata(self.files, path) {
            Ok(metadata) => id_of(&metadata) == id,
            Err(_) => false,
        }
    }

    /// Whether this file stands at a path as it was written.
    pub(crate) fn is_written_at(&self, path: &str, file: &WrittenFile) -> bool {
        match fs::symlink_metadata(self.files, path) {
            Ok(metadata) => WrittenFile::of(&metadata) == *file,
            Err(_) => false,
        }
    }

    /// Creates a file at the path of a draft, if nothing stands there, not even a link.
    pub(crate) fn create(&self, path: &str) -> io::Result<(F::File, FileId)>
        requires { IsDraftPath path.now }
    {
        let file = OpenOptions::new()
            .write(true)
            .create_new(true)
            .open(self.files, path)?;
        match file.metadata() {
            Ok(metadata) => Ok((file, id_of(&metadata))),
            Err(error) => {
                let _ = fs::remove_file(self.files, path);
                Err(error)
            }
        }
    }

    /// Removes this file from the path of its draft, if it stands there and that can be done.
    pub(crate) fn remove_draft(&self, path: &str, id: FileId)
        requires { ∥ IsDraftPath path.now ∥₁ }
    {
        if self.is_at(path, id) {
            let _ = fs::remove_file(self.files, path);
        }
    }

    /// Renames this file from the path of its draft, if it stands there.
    pub(crate) fn rename_draft(&self, draft: &str, id: FileId, path: &str) -> Result<(), DiskFault>
        requires { ∥ IsDraftPath draft.now ∥₁ }
    {
        if !self.is_at(draft, id) {
            return Err(DiskFault::Failed);
        }
        fs::rename(self.files, draft, path)?;
        Ok(())
    }

    /// The file at a path, or `None` if nothing stands there. It fails if something else stands there, or if that cannot be known.
    pub(crate) fn found<'p>(&self, path: &'p str) -> Result<Option<FoundFile<'p>>, DiskFault> {
        match fs::metadata(self.files, path) {
            Ok(metadata) if metadata.is_file() => Ok(Some(FoundFile {
                path: Path::new(path),
                name: path,
                id: id_of(&metadata),
            })),
            Err(error) if error.kind() == ErrorKind::NotFound => Ok(None),
            _ => Err(DiskFault::Failed),
        }
    }
}

/// A file that was written. The length and the time of the last write tell it from a later one that got its id once it was removed.
#[derive(Clone, Copy, Debug, PartialEq, Eq)]
pub(crate) struct WrittenFile {
    id: FileId,
    len: u64,
    seconds: i64,
    nanoseconds: i64,
}

impl WrittenFile {
    pub(crate) fn of(metadata: &Metadata) -> WrittenFile {
        WrittenFile {
            id: id_of(metadata),
            len: metadata.len(),
            seconds: metadata.mtime(),
            nanoseconds: metadata.mtime_nsec(),
        }
    }
}

/// A file that was found at a path: no folder, link or pipe. Contracts see its last name, and its id as it was then.
#[derive(Drop)]
pub(crate) struct FoundFile<'p> {
    path: Path<'p>,
    name: &'p str,
    id: FileId,
}

impl<'p> Model for FoundFile<'p> {
    ghost use Rattle.disks.specs.FoundFiles.{FoundFileView};

    ghost Value = { FoundFileView };

    ghost view = { λ f. record { name = f.name.now; id = f.id } };
}

impl<'p> FoundFile<'p> {
    /// The file of an entry of a folder, or `None` if the entry is none, or is not known. A link is not followed.
    pub(crate) fn in_folder<F: Files>(
        entry: &'p DirEntry<(&F, Global), Global>,
    ) -> Option<FoundFile<'p>>
        ensures { IfSome result (λ f. f.name ≡ dir_entry_name entry.now) }
    {
        let metadata = entry.metadata().ok()?;
        if !metadata.is_file() {
            return None;
        }
        Some(FoundFile {
            path: entry.path(),
            name: entry.file_name(),
            id: id_of(&metadata),
        })
    }

    /// Whether the run has read it.
    pub(crate) fn was_read(&self, read: &ReadFiles) -> bool
        ensures { IsTrue result ↔ Contains read.now.ids self.now.id }
    {
        read.contains(self.id)
    }

    /// Removes it, if that can be done: a draft that was left.
    pub(crate) fn remove<F: Files>(&self, host: &HostFiles<'_, F>, _read: &ReadFiles)
        requires draft { is_draft_name self.now.name ≡ true }
        requires unread { Contains _read.now.ids self.now.id → ⊥ }
    {
        let _ = fs::remove_file(host.files, self.path);
    }

    /// Tries whether it may be written, so that another file may stand in its place. It is opened to be read too, if that is allowed: then a
    /// pipe that was put in its place does not wait.
    pub(crate) fn try_writing<F: Files>(
        &self,
        host: &HostFiles<'_, F>,
        _read: &ReadFiles,
    ) -> Result<(), DiskFault>
        requires { Contains _read.now.ids self.now.id → ⊥ }
    {
        let mut options = OpenOptions::new();
        options.write(true).read(true);
        match options.open(host.files, self.path) {
            Err(error) if error.kind() == ErrorKind::PermissionDenied => {
                options.read(false).open(host.files, self.path)?;
            }
            opened => drop(opened?),
        }
        Ok(())
    }
}

pub(crate) fn id_of(metadata: &Metadata) -> FileId {
    FileId {
        device: metadata.dev(),
        inode: metadata.ino(),
    }
}
