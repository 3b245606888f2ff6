//! The files of a run: captures and scenarios are loaded, and reports are printed, or outputs stored in a folder.
#![tactic(auto)]

mod block_loading;
mod dumps;
mod error;
mod fault_lines;
mod folders;
mod head_loading;
mod inputs;
pub mod laws;
mod outputs;
mod shelves;
mod streams;

pub use dumps::{Text, is_dump, undump};
pub use error::{RunFault, ShelfError, StoreFault};
pub use fault_lines::{fault_line, memory_line};
pub use folders::{DraftedOutput, Folder, store_draft};
pub use head_loading::{SeenText, see_file, see_input};
pub use inputs::{load_by_workers, load_file};
pub use outputs::{Output, Outputs, print_reports, store_all};
pub use shelves::{MemoryFile, MemoryShelf, Shelf};
pub use streams::{Counted, TeeReader, load, write_bytes, write_texts};
