//! The files that a run has read, which no file of its own may replace.
use crate::disk::{DiskFault, FileId};
use std::alloc::{AllocError, Global};
use std::marker::Model;

/// The files that a run has read, each by its [`FileId`], and whether all of them are known.
#[derive(Drop)]
pub struct ReadFiles {
    ids: Vec<FileId>,
    are_known: bool,
}

impl Model for ReadFiles {
    ghost use Rattle.disks.specs.ReadFiles.{ReadFilesView};

    ghost Value = { ReadFilesView };

    ghost view = { λ r. record { ids = r.ids.items; are_known = r.are_known } };
}

impl ReadFiles {
    ghost use Rattle.std.specs.Prelude.{◌≡◌, ◌↔◌, [], true, Contains, IsTrue, OnErr, OnOk};
    ghost use Rattle.disks.specs.ReadFiles.{with_file};

    /// No files yet. It allocates nothing.
    pub fn new(alloc: Global) -> ReadFiles
        ensures { result ≡ record { ids = []; are_known = true } }
    {
        ReadFiles {
            ids: Vec::new(alloc),
            are_known: true,
        }
    }

    /// Adds a file, or nothing if no path leads to it. After one that is not known, not all are known.
    pub fn add(&mut self, id: Result<Option<FileId>, DiskFault>) -> Result<(), AllocError>
        ensures added { OnOk result (self.new ≡ with_file self.old id) }
        ensures as_before { OnErr result (self.new ≡ self.old) }
    {
        match id {
            Ok(Some(id)) => self.ids.push(id)?,
            Ok(None) => {}
            Err(_) => self.are_known = false,
        }
        Ok(())
    }

    /// Whether each file that was added is known.
    pub fn are_known(&self) -> bool
        ensures { result ≡ self.now.are_known }
    {
        self.are_known
    }

    /// Whether a file is one of them.
    pub fn contains(&self, id: FileId) -> bool
        ensures { IsTrue result ↔ Contains self.now.ids id }
    {
        self.ids.contains(&id)
    }
}
