//! Drafts of outputs: on a disk in memory, which fails or has little room, and in folders of the host's, which one run holds.
ghost use Rattle.std.specs.Prelude.{◌≡◌, ◌-◌, ◌<◌, ◌^◌};

use disks::{Disk, DiskFault, FileId, HostDisk, Lockable, MemoryDisk, ReadFiles};
use run_files::{DraftedOutput, Folder, StoreFault, store_draft};
use std::alloc::{AllocError, AllocGlobal, Global};
use std::fs::{self, Metadata};
use std::os::unix::fs::{MetadataExt, symlink};
use std::process::Abort;
use std::rt::Files;

// The files of two outputs with the numbers 7 and 8, in the order in which they are stored.
const FILES: [(&str, &[u8]); 4] = [
    ("0007.pcap", b"first capture"),
    ("0007.txt", b"first report\n"),
    ("0008.pcap", b""),
    ("0008.txt", b"\x00\xff\r\n\x80"),
];

// The first file is refused.
const REFUSED: Result<(), StoreFault> = Err(StoreFault::ShelfFailed { after: 0 });

// The folder at a path, for a run that has read no file.
fn folder_at<'a>(rt: &impl AllocGlobal, path: &'a str) -> Folder<'a> {
    Folder::new(path, ReadFiles::new(rt.alloc()))
}

// Whether a folder has a file of this name with these bytes.
fn has_file(
    rt: &(impl Abort + AllocGlobal + Files),
    path: &str,
    (name, bytes): (&str, &[u8]),
) -> bool {
    let file = format!(in rt.alloc(); "{path}/{name}").expect(rt, "memory");
    match fs::read(rt, file.as_str()) {
        Ok(found) => found.as_slice() == bytes,
        Err(_) => false,
    }
}

// A folder has these four files, and no other.
fn check_files(
    rt: &(impl Abort + AllocGlobal + Files + Clone),
    path: &str,
    [a, b, c, d]: [(&str, &[u8]); 4],
) {
    let captures = has_file(rt, path, a) && has_file(rt, path, c);
    let reports = has_file(rt, path, b) && has_file(rt, path, d);
    let many = files_in(rt, path);
    assert!(rt; captures && reports && many == 4, "{path}");
}

// How many files a folder has.
fn files_in(rt: &(impl Abort + AllocGlobal + Files + Clone), path: &str) -> usize {
    fs::read_dir(rt, path).expect(rt, "a folder").count()
}

// A draft with these bytes.
fn draft_with<D: Disk>(
    alloc: Global,
    folder: &Folder<'_>,
    disk: &D,
    place: usize,
    bytes: &[u8],
) -> Result<D::Draft, AllocError> {
    let mut draft = folder.draft(alloc, disk, place)?;
    D::append(&mut draft, bytes);
    Ok(draft)
}

// Drafts of two outputs.
type TwoDrafts<D> = (DraftedOutput<D>, DraftedOutput<D>);

// Drafts of both, the later one begun first, and the first file written in turns of a byte.
fn two_drafts<D: Disk>(
    alloc: Global,
    folder: &Folder<'_>,
    disk: &D,
) -> Result<TwoDrafts<D::Draft>, AllocError> {
    let later = (
        folder.draft(alloc, disk, 2)?,
        draft_with(alloc, folder, disk, 3, FILES[3].1)?,
    );
    let mut capture = folder.draft(alloc, disk, 0)?;
    for place in 0..FILES[0].1.len() {
        D::append(&mut capture, &FILES[0].1[place..place + 1]);
    }
    let earlier = (capture, draft_with(alloc, folder, disk, 1, FILES[1].1)?);
    Ok((earlier, later))
}

// Has a folder take both.
fn store_both<D: Disk>(
    alloc: Global,
    drafts: TwoDrafts<D::Draft>,
    folder: &Folder<'_>,
    disk: &mut D,
) -> Result<(), StoreFault>
    requires { D.faults disk.old < 2 ^ 64 - 1 }
{
    store_draft(alloc, 7, drafts.0, folder, disk)?;
    store_draft(alloc, 8, drafts.1, folder, disk)
}

// Whether a disk has the first `many` files in its folder, and none of those after them.
fn has_first(alloc: Global, disk: &MemoryDisk, many: usize) -> Result<bool, AllocError> {
    for (place, (name, bytes)) in FILES.iter().enumerate() {
        let path = format!(in alloc; "drafts/{name}")?;
        let expected = if place < many { Some(*bytes) } else { None };
        if disk.bytes(&path) != expected {
            return Ok(false);
        }
    }
    Ok(true)
}

// Whether two drafts on a disk put `many` files in its folder, and the next one is refused and not tried again.
fn are_stored(rt: &(impl Abort + AllocGlobal), mut disk: MemoryDisk, many: u64) -> bool
    requires { disk.failed ≡ 0 }
{
    let folder = folder_at(rt, "drafts");
    let drafts = two_drafts(rt.alloc(), &folder, &disk).expect(rt, "memory");
    let stored = store_both(rt.alloc(), drafts, &folder, &mut disk);
    let expected = match many {
        4 => Ok(()),
        _ => Err(StoreFault::ShelfFailed {
            after: many.saturating_add(14),
        }),
    };
    let failed = u64::from(expected.is_err());
    stored == expected
        && disk.failed() == failed
        && has_first(rt.alloc(), &disk, many as usize) == Ok(true)
}

// The disk fails once, after `calls` calls: for each file it is asked whether it allows the name, and then to give it.
fn check_failing(rt: &(impl Abort + AllocGlobal), calls: u64) {
    let mut disk = MemoryDisk::new(rt.alloc());
    disk.fail_after(calls);
    let good = are_stored(rt, disk, calls / 2);
    assert!(rt; good, "{calls}");
}

#[test]
fn a_disk_that_fails_once(rt: HostRuntime) {
    check_failing(&rt, 0);
    check_failing(&rt, 1);
    check_failing(&rt, 2);
    check_failing(&rt, 3);
    check_failing(&rt, 4);
    check_failing(&rt, 5);
    check_failing(&rt, 6);
    check_failing(&rt, 7);
    check_failing(&rt, 8);
}

// No draft of the disk may have more bytes than this.
fn check_room(rt: &(impl Abort + AllocGlobal), room: usize, many: u64) {
    let mut disk = MemoryDisk::new(rt.alloc());
    disk.limit_drafts(room);
    let good = are_stored(rt, disk, many);
    assert!(rt; good, "{room}");
}

#[test]
fn drafts_of_little_room(rt: HostRuntime) {
    check_room(&rt, 0, 0);
    check_room(&rt, 12, 0);
    check_room(&rt, 13, 4);
}

// A draft for which there was no room is not committed, even if there is room for what comes next.
#[test]
fn a_draft_that_has_failed(rt: HostRuntime) {
    let mut disk = MemoryDisk::new(rt.alloc());
    disk.limit_drafts(12);
    let folder = folder_at(&rt, "drafts");
    let failing = draft_with(rt.alloc(), &folder, &disk, 0, FILES[0].1);
    let mut draft = failing.expect(&rt, "memory");
    MemoryDisk::append(&mut draft, FILES[3].1);
    let refused = folder.commit(rt.alloc(), &mut disk, "0007.pcap", draft, 0) == REFUSED;
    let none = has_first(rt.alloc(), &disk, 0) == Ok(true);
    assert!(rt; refused && none && disk.failed() == 1);
}

// Removes a folder that a failed test has left.
fn clear(rt: &(impl AllocGlobal + Files), path: &str) {
    let _ = fs::remove_dir_all(rt, path);
}

// Two drafts in a folder become its files, in place of older ones; drafts that are dropped leave nothing.
#[test]
fn a_folder_by_drafts(rt: HostRuntime) {
    clear(&rt, "drafts");
    fs::create_dir(&rt, "drafts").expect(&rt, "a folder");
    fs::write(&rt, "drafts/0008.txt", "an older file").expect(&rt, "a file");
    let mut disk = HostDisk::new(rt.alloc(), &rt);
    let folder = folder_at(&rt, "drafts");
    let dropped = two_drafts(rt.alloc(), &folder, &disk).expect(&rt, "memory");
    let begun = files_in(&rt, "drafts");
    drop(dropped);
    let left = files_in(&rt, "drafts");
    assert!(rt; begun == 5 && left == 1, "{begun} {left}");
    let drafts = two_drafts(rt.alloc(), &folder, &disk).expect(&rt, "memory");
    let stored = store_both(rt.alloc(), drafts, &folder, &mut disk);
    assert!(rt; stored == Ok(()));
    check_files(&rt, "drafts", FILES);
    fs::remove_dir_all(&rt, "drafts").expect(&rt, "removed");
}

// Where there is no folder a draft fails, and that shows when it is to be committed.
#[test]
fn no_folder_by_drafts(rt: HostRuntime) {
    let mut disk = HostDisk::new(rt.alloc(), &rt);
    let folder = folder_at(&rt, "nowhere");
    let drafts = two_drafts(rt.alloc(), &folder, &disk).expect(&rt, "memory");
    let stored = store_both(rt.alloc(), drafts, &folder, &mut disk);
    assert!(rt; stored == Err(StoreFault::ShelfFailed { after: 14 }));
}

// How a folder takes a file of this name with these bytes, written in place 0.
fn put_in<D: Disk>(
    rt: &(impl Abort + AllocGlobal),
    folder: &Folder<'_>,
    disk: &mut D,
    name: &str,
    bytes: &[u8],
) -> Result<(), StoreFault>
    requires { D.faults disk.old < 2 ^ 64 - 1 }
{
    let draft = draft_with(rt.alloc(), folder, disk, 0, bytes).expect(rt, "memory");
    folder.commit(rt.alloc(), disk, name, draft, 0)
}

// No file in the folder of this path can have this name.
fn check_no_name(rt: &(impl Abort + AllocGlobal + Files), path: &str, name: &str) {
    let folder = folder_at(rt, path);
    let mut disk = MemoryDisk::new(rt.alloc());
    let refused = put_in(rt, &folder, &mut disk, name, b"") == REFUSED;
    assert!(rt; refused && disk.failed() == 0, "{name:?}");
}

// A name of 260 bytes.
const LONG: &str =
    "toxicap-name-toxicap-name-toxicap-name-toxicap-name-toxicap-name-toxicap-name-toxicap-name-toxicap-name-toxicap-name-toxicap-name-toxicap-name-toxicap-name-toxicap-name-toxicap-name-toxicap-name-toxicap-name-toxicap-name-toxicap-name-toxicap-name-toxicap-name-";

#[test]
fn names_that_a_folder_refuses(rt: HostRuntime) {
    check_no_name(&rt, ".", "../toxicap-name");
    check_no_name(&rt, ".", LONG);
    check_no_name(&rt, ".", "toxicap.unfinished");
    check_no_name(&rt, ".", "toxicap.unfinished-name");
    check_no_name(&rt, "", "toxicap-name");
}

// Whether a folder takes a file whose name has this many bytes.
fn takes_name(rt: &(impl Abort + AllocGlobal), len: usize) -> bool {
    let mut disk = MemoryDisk::new(rt.alloc());
    let name = LONG.get(..len).expect(rt, "a name");
    put_in(rt, &folder_at(rt, "."), &mut disk, name, b"") == Ok(())
}

#[test]
fn names_of_the_greatest_length(rt: HostRuntime) {
    let good = takes_name(&rt, 254) && takes_name(&rt, 255) && !takes_name(&rt, 256);
    assert!(rt; good);
}

// Names that a folder allows and the host's disk refuses.
fn check_no_file<R: Abort + AllocGlobal + Files>(rt: &R, name: &str)
where
    R::File: Lockable,
{
    let folder = folder_at(rt, ".");
    let mut disk = HostDisk::new(rt.alloc(), rt);
    let refused = put_in(rt, &folder, &mut disk, name, b"") == REFUSED;
    assert!(rt; refused, "{name:?}");
}

#[test]
fn names_that_a_disk_refuses(rt: HostRuntime) {
    check_no_file(&rt, "");
    check_no_file(&rt, ".");
    check_no_file(&rt, "..");
    check_no_file(&rt, "toxicap\0name");
}

// How the folder `spared` takes a file of this name from a run that has read the file at a path.
fn put_after_reading<R: Abort + AllocGlobal + Files>(
    rt: &R,
    path: &str,
    name: &str,
) -> Result<(), StoreFault>
where
    R::File: Lockable,
{
    let mut disk = HostDisk::new(rt.alloc(), rt);
    let mut read = ReadFiles::new(rt.alloc());
    if let Ok(metadata) = fs::metadata(rt, path) {
        read.add(Ok(Some(id_of(&metadata)))).expect(rt, "memory");
    }
    let folder = Folder::new("spared", read);
    put_in(rt, &folder, &mut disk, name, b"1")
}

// What sets a file apart, by its metadata.
fn id_of(metadata: &Metadata) -> FileId {
    FileId {
        device: metadata.dev(),
        inode: metadata.ino(),
    }
}

// What the run has read stays, under its name and through a link.
#[test]
fn a_folder_spares_what_was_read(rt: HostRuntime) {
    clear(&rt, "spared");
    fs::create_dir(&rt, "spared").expect(&rt, "a folder");
    fs::write(&rt, "spared/input", "as recorded").expect(&rt, "a file");
    symlink(&rt, "input", "spared/link").expect(&rt, "a link");
    let refused = put_after_reading(&rt, "./spared/link", "input") == REFUSED;
    let followed = put_after_reading(&rt, "spared/input", "link") == REFUSED;
    let other = put_after_reading(&rt, "spared/input", "nowhere") == Ok(());
    let stays = has_file(&rt, "spared", ("input", b"as recorded"));
    assert!(rt; refused && followed && other && stays);
    fs::remove_dir_all(&rt, "spared").expect(&rt, "removed");
}

// How the folder at a path is held.
fn held<D: Disk>(
    rt: &(impl Abort + AllocGlobal),
    path: &str,
    disk: &mut D,
) -> Result<(), StoreFault>
    requires { D.faults disk.old < 2 ^ 64 - 1 }
{
    folder_at(rt, path).hold(rt.alloc(), disk)
}

// One run at once holds a folder, and removes what others have left there.
#[test]
fn a_folder_is_held_by_one(rt: HostRuntime) {
    clear(&rt, "held");
    let nowhere = held(&rt, "held", &mut HostDisk::new(rt.alloc(), &rt)) == REFUSED;
    fs::create_dir(&rt, "held").expect(&rt, "a folder");
    fs::write(&rt, "held/toxicap.unfinished-7", "left").expect(&rt, "a file");
    fs::write(&rt, "held/toxicap.unfinished-x", "a user's").expect(&rt, "a file");
    let mut first = HostDisk::new(rt.alloc(), &rt);
    let once = held(&rt, "held", &mut first) == Ok(()) && files_in(&rt, "held") == 1;
    let not_twice = held(&rt, "held", &mut HostDisk::new(rt.alloc(), &rt)) == REFUSED;
    drop(first);
    let again = held(&rt, "held", &mut HostDisk::new(rt.alloc(), &rt)) == Ok(());
    assert!(rt; nowhere && once && not_twice && again);
    fs::remove_dir_all(&rt, "held").expect(&rt, "removed");
}

// A folder is not held where not all is known that was read, nor where it has no path.
#[test]
fn a_folder_that_is_not_held(rt: HostRuntime) {
    let mut disk = MemoryDisk::new(rt.alloc());
    let mut read = ReadFiles::new(rt.alloc());
    read.add(Err(DiskFault::Failed)).expect(&rt, "memory");
    let folder = Folder::new("drafts", read);
    let unknown = folder.hold(rt.alloc(), &mut disk) == REFUSED && disk.failed() == 1;
    let no_path = held(&rt, "", &mut MemoryDisk::new(rt.alloc())) == REFUSED;
    let known = held(&rt, "drafts", &mut MemoryDisk::new(rt.alloc())) == Ok(());
    assert!(rt; unknown && no_path && known);
}

// A draft takes no path where a file stands.
#[test]
fn a_path_that_is_taken(rt: HostRuntime) {
    let path = "drafts/toxicap.unfinished-0";
    let mut disk = MemoryDisk::new(rt.alloc());
    disk.put_first(path, b"recorded", 0).expect(&rt, "memory");
    let folder = folder_at(&rt, "drafts");
    let refused = put_in(&rt, &folder, &mut disk, "0000.pcap", b"1") == REFUSED;
    let stays = disk.bytes(path) == Some(b"recorded".as_slice());
    assert!(rt; refused && stays && disk.bytes("drafts/0000.pcap").is_none());
}
