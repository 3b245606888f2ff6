//! Folders of a disk, to which a file is committed when it is whole.
ghost use Rattle.std.specs.Prelude.{◌≡◌, Err, IfOk, false, ℕ, List, ◌+◌, ◌-◌, ◌^◌, ◌<◌, ◌≤◌, ◌*◌, ◌++◌, [], ◌∷◌, length, OnOk};
ghost use Rattle.run_files.specs.{string_bytes, path_in, failures, failed_puts, run_fault_of_storing, stored_before, IsDraftOf, has_slash, CommitsIn};
ghost use Rattle.run_files.specs.{failed_stores, Leaves, outcome_of_storing, stored_file, files_from, four_digits, PutsAfter, Stores};
ghost use Rattle.run_files.specs.declared.outputs.Output.{Output};

use crate::error::StoreFault;
use crate::outputs::file_name;
use disks::laws::drafts_are_named;
use disks::{Disk, DiskFault, ReadFiles};
use std::alloc::{AllocError, Global};
use std::marker::Model;

// The longest name that a file may have on Linux, in bytes.
const NAME_LIMIT: usize = 255;

const UNFINISHED: &str = "toxicap.unfinished";

/// A folder of a disk. Contracts see its path, and which files the run has read; what its files are follows from the disk's history.
///
/// A file is written as a draft beside the others, `toxicap.unfinished-0` at place 0, and is committed when it is whole. So the file of a
/// name is always the old one whole or the new one whole. That holds even if the program is killed or the disk is full. A run
/// [holds](Folder::hold) the folder first, and removes the drafts that killed runs left.
///
/// It refuses a name at which something except a file stands, and a file that may not be written or that the run has read. It also refuses
/// a name with a slash, one of more than 255 bytes, and one that begins as those of drafts do.
#[derive(Drop)]
pub struct Folder<'a> {
    path: &'a str,
    read: ReadFiles,
}

impl<'a> Model for Folder<'a> {
    ghost use Rattle.run_files.specs.Folders.{FolderView};

    ghost Value = { FolderView };

    ghost view = { λ f. record { path = f.path.now; read = f.read } };
}

impl<'a> Folder<'a> {
    ghost use Rattle.std.specs.Prelude.{◌≡◌, ◌||◌, ℕ, List, length, ◌+◌, ◌-◌, ◌^◌, ◌<◌, ◌∷◌, [], true, false, Err, IfErr, IfOk, IfSome, IsTrue, None, OnErr};
    ghost use Rattle.std.specs.Prelude.{OnOk};
    ghost use Rattle.run_files.specs.{string_bytes, IsDraftPath, ChangesAt, HasRead, draft_path, failed_stores, is_refused, CommitsIn, Leaves, failed_puts};
    ghost use Rattle.run_files.specs.{outcome_of_storing, stored_file, PutsAfter, stored_before};

    /// The folder at a path, for a run that has read these files: it replaces none of them.
    pub fn new(path: &'a str, read: ReadFiles) -> Self
        ensures { result ≡ record { path = path.now; read = read } }
    {
        Folder { path, read }
    }

    /// Holds the folder for the drafts of this run only, and removes drafts that earlier runs left there.
    /// If the folder's file system has no locks, it succeeds and does neither.
    ///
    /// # Errors
    /// The folder has no path, it is not there or cannot be opened, or another run holds it. Or not all files that this run has read are known.
    pub fn hold<D: Disk>(&self, alloc: Global, disk: &mut D) -> Result<(), StoreFault>
        requires { D.faults disk.old < 2 ^ 64 - 1 }
        ensures known { OnOk result (self.now.read.are_known ≡ true) }
        ensures held { OnOk result (D.is_held disk.new self.now.path) }
        ensures swept { OnOk result (D.is_swept disk.new self.now.path self.now.read) }
        ensures as_before { D.history disk.new ≡ D.history disk.old }
        ensures stands { D.standing disk.new ≡ D.standing disk.old }
        ensures faults { D.faults disk.new ≡ D.faults disk.old + failed_stores self.now.path (outcome_of_storing result) }
        ensures path { OnOk result (0 < length self.now.path) }
        ensures without_path { length self.now.path ≡ 0 → result ≡ Err (StoreFault.ShelfFailed 0) }
        ensures none { IfErr result (λ fault. stored_before fault ≡ 0) }
    {
        if self.path.is_empty() {
            return Err(StoreFault::ShelfFailed { after: 0 });
        }
        if let Err(fault) = disk.hold(self.path, &self.read) {
            return Err(unstored(fault, 0));
        }
        disk.sweep(alloc, self.path, &self.read)
            .map_err(|_| StoreFault::Memory { after: 0 })
    }

    /// Begins a draft without bytes, at the path of its place. Drafts that exist at once need places of their own: in a folder with a path
    /// they then have paths of their own ([`draft_paths_differ`](crate::laws::draft_paths_differ)). A draft that fails is not committed.
    pub fn draft<D: Disk>(
        &self,
        alloc: Global,
        disk: &D,
        place: usize,
    ) -> Result<D::Draft, AllocError>
        ensures empty { IfOk result (λ draft. D.holds draft []) }
        ensures path { IfOk result (λ draft. D.path_of draft ≡ draft_path self.now.path place) }
    {
        let path = self.draft_path(alloc, place)?;
        Ok(disk.draft(path))
    }

    // In a folder without a path it is the empty path, at which no file can be.
    fn draft_path(&self, alloc: Global, place: usize) -> Result<String, AllocError>
        ensures is { IfOk result (λ path. string_bytes path ≡ draft_path self.now.path place) }
        ensures unfinished { IfOk result (λ path. IsDraftPath (string_bytes path)) }
    {
        drafts_are_named();
        if self.path.is_empty() {
            return Ok(String::new(alloc));
        }
        let name = format!(in alloc; "{UNFINISHED}-{place}")?;
        let path = path_in(alloc, self.path, &name)?;
        Ok(path)
    }

    /// Commits a draft: publishes it under a name in the folder, after `after` other files.
    ///
    /// # Errors
    /// The folder refuses the name, or the disk or the draft failed. The disk's files are as they were.
    pub fn commit<D: Disk>(
        &self,
        alloc: Global,
        disk: &mut D,
        name: &str,
        draft: D::Draft,
        after: u64,
    ) -> Result<(), StoreFault>
        requires { D.faults disk.old < 2 ^ 64 - 1 }
        ensures puts { (bytes : List ℕ) → D.holds draft bytes → PutsAfter after
            (CommitsIn self.now.path (D.history disk.old) (D.history disk.new) (stored_file name.now bytes ∷ [])) (D.history disk.new ≡ D.history disk.old) result }
        ensures allowed { OnOk result (is_refused self.now.path name.now ≡ false) }
        ensures refused { IsTrue (is_refused self.now.path name.now) → result ≡ Err (StoreFault.ShelfFailed after) }
        ensures as_before { OnErr result (D.history disk.new ≡ D.history disk.old) }
        ensures unread { OnOk result (IfSome (D.standing disk.old) (λ stood. HasRead self.now.read (stood (path_in self.now.path name.now)) → ⊥)) }
        ensures others { ChangesAt (D.standing disk.old) (D.standing disk.new) (path_in self.now.path name.now) }
        ensures leaves { Leaves self.now (D.standing disk.old) (D.standing disk.new) }
        ensures swept { D.is_swept disk.old self.now.path self.now.read → D.is_swept disk.new self.now.path self.now.read }
        ensures faults { D.faults disk.new ≡ D.faults disk.old + failed_puts (is_refused self.now.path name.now) (outcome_of_storing result) }
    {
        drafts_are_named();
        if self.refuses(name) {
            return Err(StoreFault::ShelfFailed { after });
        }
        let Ok(path) = path_in(alloc, self.path, name) else {
            return Err(StoreFault::Memory { after });
        };
        if let Err(fault) = disk.allow_publishing(&path, &self.read) {
            return Err(unstored(fault, after));
        }
        match disk.publish(draft, &path) {
            Ok(()) => Ok(()),
            Err(fault) => Err(unstored(fault, after)),
        }
    }

    /// Looks whether each file of the disk's that was committed stands at its path still, after `files` of them. Without any it looks at none.
    ///
    /// # Errors
    /// One does not. `after` counts those that were committed before the first such, at most `files - 1`.
    pub fn see_committed<D: Disk>(&self, disk: &mut D, files: u64) -> Result<(), StoreFault>
        requires { D.faults disk.old < 2 ^ 64 - 1 }
        ensures replaced { IfErr result (λ fault. (stored_before fault < files) × (D.history disk.new ≡ None)) }
        ensures as_before { D.history disk.new ≡ D.history disk.old }
        ensures stands { D.standing disk.new ≡ D.standing disk.old }
        ensures swept { D.is_swept disk.old self.now.path self.now.read → D.is_swept disk.new self.now.path self.now.read }
        ensures faults { D.faults disk.new ≡ D.faults disk.old + failed_stores self.now.path (outcome_of_storing result) }
    {
        if files == 0 || self.path.is_empty() {
            return Ok(());
        }
        disk.see_published()
            .map_err(|before| StoreFault::ShelfFailed {
                after: (before as u64).min(files - 1),
            })
    }

    fn refuses(&self, name: &str) -> bool
        ensures { result ≡ is_refused self.now.path name.now }
    {
        let bytes = name.as_bytes();
        self.path.is_empty()
            || bytes.len() > NAME_LIMIT
            || bytes.contains(&b'/')
            || bytes.starts_with(UNFINISHED.as_bytes())
    }
}

// Why a file is not stored after `after` others, if a call of the disk ended so.
fn unstored(fault: DiskFault, after: u64) -> StoreFault
    ensures before { stored_before result ≡ after }
    ensures failures { failed_puts false (Err (run_fault_of_storing result)) ≡ failures (Err fault) }
{
    match fault {
        DiskFault::Failed => StoreFault::ShelfFailed { after },
        DiskFault::Memory => StoreFault::Memory { after },
    }
}

fn path_in(alloc: Global, folder: &str, name: &str) -> Result<String, AllocError>
    ensures { IfOk result (λ path. string_bytes path ≡ path_in folder.now name.now) }
{
    format!(in alloc; "{folder}/{name}")
}

/// What one scenario answers, as drafts: its capture, and its report.
pub type DraftedOutput<D> = (D, D);

/// Commits the drafts of an output to a folder: they become the files that [`store_all`](crate::store_all) puts of the output of
/// this number.
///
/// # Errors
/// The first file that cannot be stored ends it; none is tried again. `after` counts those before it, of outputs of lower numbers too.
pub fn store_draft<D: Disk>(
    alloc: Global,
    number: usize,
    drafts: DraftedOutput<D::Draft>,
    folder: &Folder<'_>,
    disk: &mut D,
) -> Result<(), StoreFault>
    requires faults { D.faults disk.old < 2 ^ 64 - 1 }
    requires number { number < 2 ^ 32 }
    ensures faults { D.faults disk.new ≡ D.faults disk.old + failed_stores folder.now.path (outcome_of_storing result) }
    ensures path { OnOk result (0 < length folder.now.path) }
    ensures leaves { Leaves folder.now (D.standing disk.old) (D.standing disk.new) }
    ensures swept { D.is_swept disk.old folder.now.path folder.now.read → D.is_swept disk.new folder.now.path folder.now.read }
    ensures stores { (output : Output) → IsDraftOf D.holds output drafts
        → Stores (2 * number) (files_from number (output ∷ [])) (CommitsIn folder.now.path (D.history disk.old) (D.history disk.new)) result }
{
    let (capture, report) = drafts;
    let after = 2 * number as u64;
    commit_file(alloc, number, ".pcap", capture, folder, disk, after)?;
    commit_file(alloc, number, ".txt", report, folder, disk, after + 1)
}

fn commit_file<D: Disk>(
    alloc: Global,
    number: usize,
    ending: &str,
    draft: D::Draft,
    folder: &Folder<'_>,
    disk: &mut D,
    after: u64,
) -> Result<(), StoreFault>
    requires faults { D.faults disk.old < 2 ^ 64 - 1 }
    requires number { number < 2 ^ 32 }
    requires ending { length ending.now ≤ 5 }
    requires slash { has_slash ending.now ≡ false }
    ensures faults { D.faults disk.new ≡ D.faults disk.old + failed_stores folder.now.path (outcome_of_storing result) }
    ensures path { OnOk result (0 < length folder.now.path) }
    ensures leaves { Leaves folder.now (D.standing disk.old) (D.standing disk.new) }
    ensures swept { D.is_swept disk.old folder.now.path folder.now.read → D.is_swept disk.new folder.now.path folder.now.read }
    ensures puts { (bytes : List ℕ) → D.holds draft bytes → PutsAfter after
        (CommitsIn folder.now.path (D.history disk.old) (D.history disk.new) (stored_file (four_digits number ++ ending.now) bytes ∷ []))
        (D.history disk.new ≡ D.history disk.old) result }
{
    let Ok(name) = file_name(alloc, number, ending) else {
        return Err(StoreFault::Memory { after });
    };
    folder.commit(alloc, disk, &name, draft, after)
}
