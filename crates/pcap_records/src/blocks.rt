//! A file in blocks, which threads can load side by side.
ghost use Rattle.std.specs.Prelude.{◌≡◌, ◌+◌, ◌≤◌, ◌<◌, length, map, drop, take, IfOk, OnOk, All};
ghost use Rattle.pcap_records.specs.Blocks.{block_len, block_limit, slice_limit, bytes_until_short, with_last_extended, AreFull, IsGrown};

use std::alloc::{AllocError, Global};
use std::marker::Model;

/// The number of bytes that are a block's own. The last block may have fewer.
pub const BLOCK_LEN: usize = 1 << 23;

/// The most bytes of a slice of a file that is loaded in blocks: those of the longest record, its header and its packet.
pub const SLICE_LIMIT: usize = 262_160;

/// A file in blocks. After its own bytes each block has the first of the next one, so that a record that begins in it lies in it whole.
#[derive(Debug, Drop)]
pub struct Blocks {
    blocks: Vec<Vec<u8>>,
    len: usize,
}

impl Model for Blocks {
    ghost use Rattle.std.specs.Prelude.{ℕ, List, map};
    ghost use Rattle.pcap_records.specs.Blocks.{bytes_in, IsInBlocks};

    ghost Value = { List ℕ };

    ghost view = { λ b. bytes_in (map (λ block. block.items) b.blocks.items) };

    ghost invariant = { λ b. IsInBlocks b.len (map (λ block. block.items) b.blocks.items) };
}

impl Blocks {
    /// Makes a file of its parts in order, up to the first with fewer than [`BLOCK_LEN`] bytes. Parts after it are dropped.
    pub fn of_parts(alloc: Global, parts: Vec<Vec<u8>>) -> Result<Blocks, AllocError>
        requires few { length parts.items ≤ block_limit }
        requires short { All (λ part. length part.items ≤ block_len) parts.items }
        ensures { IfOk result (λ blocks. blocks ≡ bytes_until_short (map (λ part. part.items) parts.items)) }
    {
        let mut blocks = Vec::new(alloc);
        let mut len = 0;
        for part in parts {
            let count = part.len();
            push_part(&mut blocks, part)?;
            len += count;
            if count < BLOCK_LEN {
                break;
            }
        }
        Ok(Blocks { blocks, len })
    }

    /// The number of bytes of the file.
    pub fn len(&self) -> usize
        ensures { result ≡ length self.now }
    {
        self.len
    }

    /// The `len` bytes of the file from byte `start` on.
    pub fn slice(&self, start: usize, len: usize) -> &[u8]
        requires within { start + len ≤ length self.now }
        requires short { len ≤ slice_limit }
        ensures { result.now ≡ take len (drop start self.now) }
    {
        match self.blocks.get(start / BLOCK_LEN) {
            Some(block) => {
                let from = start % BLOCK_LEN;
                &block[from..from + len]
            }
            None => &[],
        }
    }
}

// Appends a part of a file as a block, and its first bytes to the block before it.
fn push_part(blocks: &mut Vec<Vec<u8>>, part: Vec<u8>) -> Result<(), AllocError>
    requires full { AreFull (map (λ block. block.items) blocks.old.items) }
    requires short { length part.items ≤ block_len }
    ensures { OnOk result (IsGrown (map (λ block. block.items) blocks.old.items) part.items (map (λ block. block.items) blocks.new.items)) }
{
    extend_last(blocks, &part[..part.len().min(SLICE_LIMIT)])?;
    blocks.push(part)?;
    Ok(())
}

fn extend_last(blocks: &mut Vec<Vec<u8>>, bytes: &[u8]) -> Result<(), AllocError>
    ensures { OnOk result (map (λ block. block.items) blocks.new.items
        ≡ with_last_extended (map (λ block. block.items) blocks.old.items) bytes.now) }
{
    if let Some(last) = blocks.last_mut() {
        last.extend_from_slice(bytes)?;
    }
    Ok(())
}
