//! Loading the text of a file, of a large one block by block, by workers.
ghost use Rattle.std.specs.Prelude.{◌≡◌, ◌≤◌, ◌<◌, length, map, All, IfErr, IfOk, IfSome, Some};
ghost use Rattle.run_files.specs.{ForSome, file_len, AgreesUnlessMemory, block_len, block_limit, bytes_until_short, capture_limit, HasBlocks, blocks_of};
ghost use Rattle.run_files.specs.{part_at, IsOfFile, text_of_file, run_refusal};

use crate::dumps::Text;
use crate::error::RunFault;
use crate::inputs::load_whole;
use crate::streams::room_to_read;
use disks::DiskFile;
use job_matrix::{Phase, Plan, Through, Work, work_all};
use pcap_records::{BLOCK_LEN, Blocks, CAPTURE_LIMIT, SLICE_LIMIT, Values};
use std::alloc::{AllocError, Global};
use std::marker::Model;
use std::thread::Threads;

// The most blocks of a capture.
const BLOCK_LIMIT: usize = CAPTURE_LIMIT / BLOCK_LEN;

// Loads the text of a file from its first byte on, that of several blocks by the workers of a plan.
// A dump of several blocks is found only after that, and is then loaded again by one thread.
pub(crate) fn load_text<R: Threads + Sync, F: DiskFile + Sync + Drop>(
    rt: &R,
    alloc: Global,
    file: F,
    plan: Plan,
) -> Result<Text<'static>, RunFault>
    requires { F.place file ≡ 0 }
    ensures contents { IfSome (F.contents file) (λ f. AgreesUnlessMemory run_refusal (λ text. text) result (text_of_file (Some f))) }
    ensures within { IfOk result (λ text. length text ≤ capture_limit) }
    ensures of_file { IfErr result IsOfFile }
{
    let count = block_count(&file);
    if plan.workers() > 1 && count > 1 && count <= BLOCK_LIMIT {
        let blocks = blocks_by_workers(rt, alloc, &file, count, plan)?;
        if let Some(text) = Text::of_blocks(blocks) {
            return Ok(text);
        }
    }
    Ok(Text::of(load_whole(alloc, file)?))
}

// 0 if it is not known.
fn block_count<F: DiskFile>(file: &F) -> usize
    ensures { IfSome (F.contents file.now) (λ f. 0 < result → HasBlocks result f) }
{
    match file.len() {
        Some(len) => (len as usize).div_ceil(BLOCK_LEN),
        None => 0,
    }
}

// Each block has memory of its own: one buffer for all of them would first have to be filled with zeros.
fn blocks_by_workers<R: Threads + Sync, F: DiskFile + Sync>(
    rt: &R,
    alloc: Global,
    file: &F,
    count: usize,
    plan: Plan,
) -> Result<Blocks, RunFault>
    requires some { 0 < count }
    requires few { count ≤ block_limit }
    requires counted { IfSome (F.contents file.now) (HasBlocks count) }
    ensures contents { IfSome (F.contents file.now) (λ f. AgreesUnlessMemory run_refusal (λ blocks. blocks) result (text_of_file (Some f))) }
    ensures within { IfOk result (λ blocks. length blocks ≤ capture_limit) }
    ensures of_file { IfErr result IsOfFile }
{
    let jobs = BlockJobs { alloc, file, count };
    let workers = plan.workers() as u64;
    let blocks = work_all(
        rt,
        alloc,
        count as u64,
        workers,
        Phase::Ranges,
        &Through,
        &jobs,
    )?;
    let parts = parts_of(alloc, file, count, blocks)?;
    let blocks = Blocks::of_parts(alloc, parts)?;
    Ok(blocks)
}

#[derive(Drop)]
struct BlockJobs<'f, F: DiskFile + Sync> {
    alloc: Global,
    file: &'f F,
    count: usize,
    ghost few: { count ≤ block_limit },
    ghost counted: { ForSome (F.contents file.now) (HasBlocks count) },
}

impl<'f, F: DiskFile + Sync> Work for BlockJobs<'f, F> {
    type Out = LoadedBlock<'f, F>;

    ghost use Rattle.std.specs.Prelude.{◌≡◌, ◌<◌, ◌≤◌, IfOk, get_or, length};
    ghost use Rattle.run_files.specs.Words.{block_limit};
    ghost use Rattle.run_files.specs.Loading.{blocks_of};

    ghost values = { λ w. blocks_of (F.contents w.file.now) w.count };

    fn value(&self, job: u64) -> Result<LoadedBlock<'f, F>, AllocError> {
        let at = job as usize * BLOCK_LEN;
        let bytes = load_part(self.alloc, self.file, at);
        Ok(LoadedBlock {
            file: self.file,
            at,
            bytes,
        })
    }
}

// The bytes that a block has of its own, or why they were not loaded. Contracts see where it begins, and what its file holds.
#[derive(Drop)]
struct LoadedBlock<'f, F: DiskFile> {
    file: &'f F,
    at: usize,
    bytes: Result<Vec<u8>, RunFault>,
}

impl<'f, F: DiskFile> Model for LoadedBlock<'f, F> {
    ghost use Rattle.std.specs.Prelude.{◌≤◌, IfErr, IfOk, IfSome, length};
    ghost use Rattle.run_files.specs.Words.{AgreesUnlessMemory, block_len};
    ghost use Rattle.run_files.specs.Loading.{BlockView, block_view, part_at, IsOfFile};
    ghost use Rattle.run_files.specs.RunFault.{run_refusal};

    ghost Value = { BlockView };

    ghost view = { λ b. block_view (F.contents b.file.now) b.at };

    ghost invariant = { λ b. IfOk b.bytes (λ bytes. length bytes.items ≤ block_len) × IfErr b.bytes IsOfFile
        × IfSome (F.contents b.file.now) (λ f. AgreesUnlessMemory run_refusal (λ bytes. bytes.items) b.bytes (part_at f b.at)) };
}

impl<'f, F: DiskFile> LoadedBlock<'f, F> {
    fn into_bytes(self) -> Result<Vec<u8>, RunFault>
        ensures contents { IfSome self.entry.contents (λ f. AgreesUnlessMemory run_refusal (λ bytes. bytes.items) result (part_at f self.entry.at)) }
        ensures short { IfOk result (λ bytes. length bytes.items ≤ block_len) }
        ensures of_file { IfErr result IsOfFile }
    {
        self.bytes
    }
}

// The parts of blocks in order. Its fault is that of the first block that could not be loaded.
fn parts_of<F: DiskFile>(
    alloc: Global,
    file: &F,
    count: usize,
    blocks: Values<LoadedBlock<'_, F>>,
) -> Result<Vec<Vec<u8>>, RunFault>
    requires few { count ≤ block_limit }
    requires counted { IfSome (F.contents file.now) (HasBlocks count) }
    requires blocks { blocks ≡ blocks_of (F.contents file.now) count }
    ensures contents { IfSome (F.contents file.now) (λ f.
        AgreesUnlessMemory run_refusal (λ parts. bytes_until_short (map (λ part. part.items) parts.items)) result (text_of_file (Some f))) }
    ensures short { IfOk result (λ parts. All (λ part. length part.items ≤ block_len) parts.items) }
    ensures count { IfOk result (λ parts. length parts.items ≤ count) }
    ensures of_file { IfErr result IsOfFile }
{
    let blocks = blocks.into_vec();
    let mut parts = Vec::with_capacity(alloc, blocks.len())?;
    for block in blocks {
        let part = block.into_bytes()?;
        parts.push(part).map_err(AllocError::from)?;
    }
    Ok(parts)
}

// The bytes of a file from byte `start` on, as many as a block has of its own or up to the end of the file. There is room for those that
// a block has of the next one.
fn load_part<F: DiskFile>(alloc: Global, file: &F, start: usize) -> Result<Vec<u8>, RunFault>
    requires start { start ≤ capture_limit }
    requires within { IfSome (F.contents file.now) (λ f. start < file_len f) }
    ensures contents { IfSome (F.contents file.now) (λ f. AgreesUnlessMemory run_refusal (λ part. part.items) result (part_at f start)) }
    ensures short { IfOk result (λ part. length part.items ≤ block_len) }
    ensures of_file { IfErr result IsOfFile }
{
    let mut room = room_to_read(alloc)?;
    let buffer = room.as_mut_slice();
    let mut part = Vec::with_capacity(alloc, BLOCK_LEN + SLICE_LIMIT)?;
    'reads: loop {
        if part.len() == BLOCK_LEN {
            return Ok(part);
        }
        let Ok(len) = file.read_at(buffer, start + part.len()) else {
            return Err(RunFault::ReadFailed);
        };
        if len == 0 {
            return Ok(part);
        }
        let own = len.min(BLOCK_LEN - part.len());
        part.extend_from_slice(&buffer[..own])?;
    }
}
