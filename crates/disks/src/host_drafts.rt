//! Drafts of the host.
ghost use Rattle.std.specs.Prelude.{◌≡◌};
ghost use Rattle.std.specs.String.{string_bytes};
ghost use Rattle.disks.specs.DraftPaths.{IsDraftPath};

use crate::disk::{DiskFault, FileId};
use crate::host_files::{HostFiles, WrittenFile};
use std::fs::OpenFile;
use std::io::Write;
use std::rt::Files;

/// A draft of the host: a file, which is removed at once if a write fails, or if the draft is dropped and was not published.
pub struct HostDraft<'a, F: Files> {
    files: HostFiles<'a, F>,
    pub(crate) path: String,
    // `None` once the draft has failed or is published: then no file of it is at its path.
    file: Option<(F::File, FileId)>,
    ghost of_draft: { ∥ IsDraftPath (string_bytes path) ∥₁ },
}

impl<'a, F: Files> HostDraft<'a, F> {
    ghost use Rattle.std.specs.Prelude.{◌≡◌};
    ghost use Rattle.std.specs.String.{string_bytes};
    ghost use Rattle.disks.specs.DraftPaths.{IsDraftPath};

    /// An empty draft at a path where nothing stands; a link there is not followed.
    pub(crate) fn begun(files: HostFiles<'a, F>, path: String) -> HostDraft<'a, F>
        requires { IsDraftPath (string_bytes path) }
        ensures { result.path ≡ path }
    {
        let file = files.create(&path).ok();
        HostDraft { files, path, file }
    }

    /// Identifies its file, or returns `None` once it has failed.
    pub(crate) fn id(&self) -> Option<FileId> {
        self.file.as_ref().map(|file| file.1)
    }

    /// Its file as it was written, or `None` once it has failed, or if that cannot be known.
    pub(crate) fn written(&self) -> Option<WrittenFile> {
        let (file, _) = self.file.as_ref()?;
        let metadata = file.metadata().ok()?;
        Some(WrittenFile::of(&metadata))
    }

    pub(crate) fn append(&mut self, bytes: &[u8])
        ensures { self.new.path ≡ self.old.path }
    {
        let Some((file, id)) = &mut self.file else {
            return;
        };
        if file.write_all(bytes).is_err() {
            self.files.remove_draft(&self.path, *id);
            self.file = None;
        }
    }

    /// Renames its file. If that fails, the file is removed.
    pub(crate) fn publish(mut self, path: &str) -> Result<(), DiskFault> {
        let Some((_, id)) = self.file else {
            return Err(DiskFault::Failed);
        };
        self.files.rename_draft(&self.path, id, path)?;
        self.file = None;
        Ok(())
    }
}

impl<F: Files> Drop for HostDraft<'_, F> {
    fn drop(self) {
        let HostDraft { files, path, file } = self;
        if let Some((_, id)) = file {
            files.remove_draft(&path, id);
        }
    }
}
