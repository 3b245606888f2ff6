//! Files of a disk in memory as they are read.
use crate::disk::{DiskFault, DiskFile, FileId};

/// A file of a disk in memory, which is open to be read.
#[derive(Drop)]
pub struct MemoryDiskFile {
    pub(crate) id: FileId,
    pub(crate) bytes: Vec<u8>,
    // The number of lost bytes after these.
    pub(crate) lost: u32,
    pub(crate) place: usize,
    // The most bytes that a read gives; 0 counts as 1.
    pub(crate) read_len: usize,
}

impl DiskFile for MemoryDiskFile {
    ghost use Rattle.std.specs.Prelude.{Some};

    ghost contents = { λ f. Some (record { bytes = f.bytes.items; lost = f.lost }) };

    ghost place = { λ f. f.place };

    ghost identity = { λ f. Some (Some f.id) };

    fn id(&self) -> Result<Option<FileId>, DiskFault> {
        Ok(Some(self.id))
    }

    fn len(&self) -> Option<u64> {
        Some(self.bytes.len() as u64 + u64::from(self.lost))
    }

    fn read_at(&self, room: &mut [u8], at: usize) -> Result<usize, DiskFault> {
        let len = self.bytes.len();
        if at >= len {
            return if (at - len) < self.lost as usize {
                Err(DiskFault::Failed)
            } else {
                Ok(0)
            };
        }
        let count = room.len().min(len - at).min(self.read_len.max(1));
        room[..count].copy_from_slice(&self.bytes[at..at + count]);
        Ok(count)
    }

    fn read(&mut self, room: &mut [u8]) -> Result<usize, DiskFault> {
        let count = self.read_at(room, self.place)?;
        self.place += count;
        Ok(count)
    }
}
