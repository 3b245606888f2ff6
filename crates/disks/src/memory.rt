//! A disk in memory, which tells what its paths hold, and fails when it is told to.
ghost use Rattle.std.specs.Prelude.{◌≡◌};

use crate::disk::{Disk, DiskFault, FileId, ReadDisk, count_fault};
use crate::memory_files::MemoryDiskFile;
use crate::read_files::ReadFiles;
use std::alloc::{AllocError, Global};
use std::marker::Model;

/// A file that stood at a path from the beginning. Some bytes after `bytes` may be lost.
#[derive(Drop)]
struct FirstFile {
    path: String,
    bytes: Vec<u8>,
    lost: u32,
}

impl Model for FirstFile {
    ghost use Rattle.std.specs.String.{string_bytes};
    ghost use Rattle.disks.specs.MemoryDisks.{PlacedFile};

    ghost Value = { PlacedFile };

    ghost view = { λ f. record { path = string_bytes f.path; file = record { bytes = f.bytes.items; lost = f.lost } } };
}

#[derive(Drop)]
struct WholeFile {
    path: String,
    bytes: Vec<u8>,
}

impl Model for WholeFile {
    ghost use Rattle.std.specs.String.{string_bytes};
    ghost use Rattle.disks.specs.Histories.{PublishedFile, published_file};

    ghost Value = { PublishedFile };

    ghost view = { λ f. published_file (string_bytes f.path) f.bytes.items };
}

/// A disk in memory. Contracts see its history and the number of failed calls.
/// It fails if it is out of memory, and as `fail_after`, `limit_drafts` and the lost bytes of `put_first` tell it.
#[derive(Drop)]
pub struct MemoryDisk {
    alloc: Global,
    first: Vec<FirstFile>,
    published: Vec<WholeFile>,
    failed: u64,
    good_calls: Option<u64>,
    draft_room: usize,
    read_len: usize,
}

impl Model for MemoryDisk {
    ghost use Rattle.disks.specs.MemoryDisks.{MemoryDiskView};

    ghost Value = { MemoryDiskView };

    ghost view = { λ d. record { first = d.first.items; published = d.published.items; failed = d.failed } };
}

/// A draft of a disk in memory.
#[derive(Drop)]
pub struct MemoryDraft {
    path: String,
    bytes: Vec<u8>,
    has_failed: bool,
    room: usize,
}

impl MemoryDisk {
    ghost use Rattle.std.specs.Prelude.{◌≡◌, [], ◌∷◌, ◌++◌, false, OnOk, OnErr, option_map};
    ghost use Rattle.disks.specs.Histories.{held_now, published_file};
    ghost use Rattle.disks.specs.MemoryDisks.{history_of, found_contents, found_file, standing_of};
    ghost use Rattle.disks.specs.Standing.{HasRead};

    /// A disk without files, of which no call has failed. It allocates nothing.
    pub fn new(alloc: Global) -> MemoryDisk
        ensures { result ≡ record { first = []; published = []; failed = 0 } }
    {
        MemoryDisk {
            alloc,
            first: Vec::new(alloc),
            published: Vec::new(alloc),
            failed: 0,
            good_calls: None,
            draft_room: usize::MAX,
            read_len: usize::MAX,
        }
    }

    /// Puts a file at a path from the beginning on: `bytes`, and `lost` bytes after them. If it is out of memory, the disk is as it was.
    pub fn put_first(&mut self, path: &str, bytes: &[u8], lost: u32) -> Result<(), AllocError>
        ensures put { OnOk result (self.new ≡ record {
          first = self.old.first ++ record { path = path.now; file = record { bytes = bytes.now; lost = lost } } ∷ [];
          published = self.old.published;
          failed = self.old.failed;
        }) }
        ensures as_before { OnErr result (self.new ≡ self.old) }
    {
        let path = String::from_str(self.alloc, path)?;
        let bytes = Vec::from_slice(self.alloc, bytes)?;
        self.first.push(FirstFile { path, bytes, lost })?;
        Ok(())
    }

    /// Makes one call of [`hold`](Disk::hold), [`publish`](Disk::publish) or [`allow_publishing`](Disk::allow_publishing) fail: the one
    /// after `calls` others.
    pub fn fail_after(&mut self, calls: u64)
        ensures { self.new ≡ self.old }
    {
        self.good_calls = Some(calls);
    }

    /// Makes a draft that is begun from now on fail if it would have more than `room` bytes.
    pub fn limit_drafts(&mut self, room: usize)
        ensures { self.new ≡ self.old }
    {
        self.draft_room = room;
    }

    /// Limits each read of a file that is opened from now on to `len` bytes, or to 1 if that is 0.
    pub fn limit_reads(&mut self, len: usize)
        ensures { self.new ≡ self.old }
    {
        self.read_len = len;
    }

    /// The number of failed calls.
    pub fn failed(&self) -> u64
        ensures { result ≡ self.now.failed }
    {
        self.failed
    }

    /// The bytes of the file at a path without those that are lost, or `None` if there is no file.
    pub fn bytes(&self, path: &str) -> Option<&[u8]>
        ensures { option_map (λ bytes. bytes.now) result ≡ option_map (λ file. file.bytes) (held_now (history_of self.now) path.now) }
    {
        self.find(path).map(|found| found.0)
    }

    // The bytes of the file at a path, the number of lost ones after them, and its id. That is its place among files that stand at paths, or did.
    fn find(&self, path: &str) -> Option<(&[u8], u32, FileId)>
        ensures contents { found_contents result ≡ held_now (history_of self.now) path.now }
        ensures file { found_file result ≡ standing_of self.now path.now }
    {
        let mut found: Option<(&[u8], u32, FileId)> = None;
        for place in 0..self.first.len() {
            let file = &self.first[place];
            if path == file.path.as_str() {
                found = Some((file.bytes.as_slice(), file.lost, id_at(0, place)));
            }
        }
        for place in 0..self.published.len() {
            let file = &self.published[place];
            if path == file.path.as_str() {
                found = Some((file.bytes.as_slice(), 0, id_at(1, place)));
            }
        }
        found
    }

    fn look_at(&mut self, path: &str, read: &ReadFiles) -> Result<(), DiskFault>
        ensures as_before { self.new ≡ self.old }
        ensures unread { OnOk result (HasRead read.now (standing_of self.old path.now) → ⊥) }
    {
        if self.fails_now() {
            return Err(DiskFault::Failed);
        }
        match self.find(path) {
            Some((_, _, id)) if read.contains(id) => Err(DiskFault::Failed),
            _ => Ok(()),
        }
    }

    fn fails_now(&mut self) -> bool
        ensures { self.new ≡ self.old }
    {
        let calls = self.good_calls;
        self.good_calls = calls.and_then(|left| left.checked_sub(1));
        calls == Some(0)
    }

    fn keep(&mut self, draft: MemoryDraft, path: &str) -> Result<(), DiskFault>
        ensures published { OnOk result (self.new ≡ record {
          first = self.old.first;
          published = self.old.published ++ published_file path.now draft.bytes.items ∷ [];
          failed = self.old.failed;
        }) }
        ensures whole { OnOk result (draft.has_failed ≡ false) }
        ensures as_before { OnErr result (self.new ≡ self.old) }
    {
        if self.fails_now() || draft.has_failed {
            return Err(DiskFault::Failed);
        }
        let path = String::from_str(self.alloc, path)?;
        self.published
            .push(WholeFile {
                path,
                bytes: draft.bytes,
            })
            .map_err(AllocError::from)?;
        Ok(())
    }
}

fn id_at(device: u64, place: usize) -> FileId
    ensures { result ≡ record { device = device; inode = place } }
{
    FileId {
        device,
        inode: place as u64,
    }
}

impl Disk for MemoryDisk {
    ghost use Rattle.std.specs.Prelude.{◌≡◌, false, None, Some};
    ghost use Rattle.std.specs.String.{string_bytes};
    ghost use Rattle.disks.specs.MemoryDisks.{history_of, standing_of};
    ghost use Rattle.disks.specs.ToldOfMemory.{told_of_memory};

    type Draft = MemoryDraft;

    ghost history = { λ d. Some (history_of d) };

    ghost faults = { λ d. d.failed };

    ghost holds = { λ d bytes. d.has_failed ≡ false → d.bytes.items ≡ bytes };

    ghost path_of = { λ d. string_bytes d.path };

    ghost standing = { λ d. Some (standing_of d) };

    ghost input = { λ _. Some None };

    ghost is_held = { λ _ _. Unit {0} };

    ghost is_swept = { λ _ _ _. Unit {0} };

    fn hold(&mut self, _folder: &str, read: &ReadFiles) -> Result<(), DiskFault> {
        let held = if self.fails_now() || !read.are_known() {
            Err(DiskFault::Failed)
        } else {
            Ok(())
        };
        count_fault(&held, &mut self.failed);
        held
    }

    // Drafts are no files of this disk, so none is left.
    fn sweep(&self, _alloc: Global, _folder: &str, _read: &ReadFiles) -> Result<(), AllocError> {
        Ok(())
    }

    fn draft(&self, path: String) -> MemoryDraft {
        let has_failed = self.find(&path).is_some();
        MemoryDraft {
            path,
            bytes: Vec::new(self.alloc),
            has_failed,
            room: self.draft_room,
        }
    }

    fn append(draft: &mut MemoryDraft, bytes: &[u8]) {
        let fits = bytes.len() <= draft.room.saturating_sub(draft.bytes.len());
        if !fits || draft.bytes.extend_from_slice(bytes).is_err() {
            draft.has_failed = true;
        }
    }

    fn has_failed(draft: &MemoryDraft) -> bool {
        draft.has_failed
    }

    fn allow_publishing(&mut self, path: &str, read: &ReadFiles) -> Result<(), DiskFault> {
        let allowed = self.look_at(path, read);
        count_fault(&allowed, &mut self.failed);
        allowed
    }

    fn publish(&mut self, draft: MemoryDraft, path: &str) -> Result<(), DiskFault> {
        let published = self.keep(draft, path);
        count_fault(&published, &mut self.failed);
        published
    }

    // No other run changes it.
    fn see_published(&mut self) -> Result<(), usize> {
        Ok(())
    }

    fn input_id(&self) -> Result<Option<FileId>, DiskFault> {
        Ok(None)
    }

    ghost told = { λ d. told_of_memory d };
}

impl ReadDisk for MemoryDisk {
    type File = MemoryDiskFile;

    fn open(&self, alloc: Global, path: &str) -> Result<MemoryDiskFile, DiskFault> {
        let Some((bytes, lost, id)) = self.find(path) else {
            return Err(DiskFault::Failed);
        };
        Ok(MemoryDiskFile {
            id,
            bytes: Vec::from_slice(alloc, bytes)?,
            lost,
            place: 0,
            read_len: self.read_len,
        })
    }
}
