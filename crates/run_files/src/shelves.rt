//! Shelves: where files are put, whole, one after another; and one in memory.
ghost use Rattle.std.specs.Prelude.{◌≡◌};

use crate::error::ShelfError;
use disks::count_failure;
use std::alloc::{AllocError, Global};
use std::marker::Model;

/// Where files are put, such as an archive or a list in memory.
///
/// Contracts see two things of a shelf. `files` are the files that it took whole, the oldest first, or `None` if it does not tell them.
/// `failures` is the number of its failed calls, which each shelf counts for itself.
pub trait Shelf {
    ghost use Rattle.std.specs.Prelude.{◌≡◌, ℕ, ◌+◌, ◌-◌, ◌^◌, ◌<◌, [], ◌∷◌, List, Option, OnOk, OnErr, is_ok, if◌then◌else◌};
    ghost use Rattle.run_files.specs.WrittenOutputs.{Takes, StoredFile, stored_file};

    ghost files: { Self → Option (List StoredFile) };

    ghost failures: { Self → ℕ };

    /// Puts a file on the shelf, under its name.
    ///
    /// # Errors
    /// The shelf failed, for whatever cause. It has the files that it had; what it keeps of this one is its own matter.
    fn put(&mut self, name: &str, bytes: &[u8]) -> Result<(), ShelfError>
        requires { failures self.old < 2 ^ 64 - 1 }
        ensures taken { OnOk result (Takes (files self.old) (files self.new) (stored_file name.now bytes.now ∷ [])) }
        ensures as_before { OnErr result (files self.new ≡ files self.old) }
        ensures counted { failures self.new ≡ (if is_ok result then failures self.old else failures self.old + 1) };
}

/// A file that a shelf in memory has taken.
#[derive(Drop)]
pub struct MemoryFile {
    name: String,
    bytes: Vec<u8>,
}

impl Model for MemoryFile {
    ghost use Rattle.run_files.specs.Words.{string_bytes};
    ghost use Rattle.run_files.specs.WrittenOutputs.{StoredFile, stored_file};

    ghost Value = { StoredFile };

    ghost view = { λ f. stored_file (string_bytes f.name) f.bytes.items };
}

impl MemoryFile {
    /// The name under which the file was put.
    pub fn name(&self) -> &str
        ensures { result.now ≡ self.now.name }
    {
        &self.name
    }

    /// All bytes of the file.
    pub fn bytes(&self) -> &[u8]
        ensures { result.now ≡ self.now.bytes }
    {
        &self.bytes
    }
}

/// A shelf in memory: it keeps copies of the files that are put, in order, under names that may stand twice. It fails if it is out of
/// memory, and keeps nothing of that file.
#[derive(Drop)]
pub struct MemoryShelf {
    alloc: Global,
    files: Vec<MemoryFile>,
    failed: u64,
}

impl Model for MemoryShelf {
    ghost use Rattle.run_files.specs.WrittenOutputs.{MemoryShelfView};

    ghost Value = { MemoryShelfView };

    ghost view = { λ s. record { files = s.files.items; failed = s.failed } };
}

impl MemoryShelf {
    ghost use Rattle.std.specs.Prelude.{◌≡◌, ◌++◌, [], ◌∷◌, is_ok, if◌then◌else◌};
    ghost use Rattle.run_files.specs.WrittenOutputs.{stored_file};

    /// A shelf without files, of which no call has failed.
    pub fn new(alloc: Global) -> MemoryShelf
        ensures { result ≡ record { files = []; failed = 0 } }
    {
        MemoryShelf {
            alloc,
            files: Vec::new(alloc),
            failed: 0,
        }
    }

    /// The files, the oldest first.
    pub fn files(&self) -> &[MemoryFile]
        ensures { result.now ≡ self.now.files }
    {
        &self.files
    }

    /// The files, as a vector of one's own.
    pub fn into_files(self) -> Vec<MemoryFile>
        ensures { result.items ≡ self.files }
    {
        self.files
    }

    /// The number of failed calls.
    pub fn failed(&self) -> u64
        ensures { result ≡ self.now.failed }
    {
        self.failed
    }

    fn keep(&mut self, name: &str, bytes: &[u8]) -> Result<(), AllocError>
        ensures files { self.new.files ≡ (if is_ok result then self.old.files ++ stored_file name.now bytes.now ∷ [] else self.old.files) }
        ensures failed { self.new.failed ≡ self.old.failed }
    {
        let name = String::from_str(self.alloc, name)?;
        let bytes = Vec::from_slice(self.alloc, bytes)?;
        self.files.push(MemoryFile { name, bytes })?;
        Ok(())
    }
}

impl Shelf for MemoryShelf {
    ghost use Rattle.std.specs.Prelude.{Some};

    ghost files = { λ s. Some s.files };

    ghost failures = { λ s. s.failed };

    fn put(&mut self, name: &str, bytes: &[u8]) -> Result<(), ShelfError> {
        let kept = self.keep(name, bytes);
        count_failure(&kept, &mut self.failed);
        Ok(kept?)
    }
}
