//! Disks: they read files by their paths, and write a file whole before it is published. Only a disk in memory tells what it holds.
#![tactic(auto)]

mod disk;
mod host;
mod host_drafts;
mod host_files;
pub mod laws;
mod memory;
mod memory_files;
mod read_files;

pub use disk::{Disk, DiskFault, DiskFile, FileId, ReadDisk, count_failure};
pub use host::{HostDisk, HostFile, Lockable};
pub use host_drafts::HostDraft;
pub use memory::{MemoryDisk, MemoryDraft};
pub use memory_files::MemoryDiskFile;
pub use read_files::ReadFiles;
