//! The bytes of a file, in one piece or in blocks.
ghost use Rattle.std.specs.Prelude.{◌≡◌, ◌+◌, ◌≤◌, length, drop, take};
ghost use Rattle.pcap_records.specs.Blocks.{slice_limit};
ghost use Rattle.pcap_records.specs.CaptureView.{bytes_of};

use crate::blocks::Blocks;

/// All bytes of a file, borrowed in one piece or in blocks.
#[derive(Clone, Copy, Debug)]
pub enum FileBytes<'a> {
    Whole(&'a [u8]),
    InBlocks(&'a Blocks),
}

impl<'a> FileBytes<'a> {
    /// The number of bytes.
    pub fn len(self) -> usize
        ensures { result ≡ length (bytes_of self.entry) }
    {
        match self {
            FileBytes::Whole(bytes) => bytes.len(),
            FileBytes::InBlocks(blocks) => blocks.len(),
        }
    }

    /// The `len` bytes from byte `start` on.
    pub fn slice(self, start: usize, len: usize) -> &'a [u8]
        requires within { start + len ≤ length (bytes_of self) }
        requires short { len ≤ slice_limit }
        ensures { result.now ≡ take len (drop start (bytes_of self.entry)) }
    {
        match self {
            FileBytes::Whole(bytes) => &bytes[start..start + len],
            FileBytes::InBlocks(blocks) => blocks.slice(start, len),
        }
    }
}
