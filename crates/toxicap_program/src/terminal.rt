//! What the program says on a terminal, beside its outputs and refusals: that it reads standard input, and how many scenarios are stored.
use std::alloc::Allocator;
use std::fs::{Metadata, OpenOptions};
use std::io::{self, Eprint, Read, Stderr};
use std::rt::Files;
use std::sync::Wait;
use std::sync::atomic::{AtomicU64, Ordering};
use std::thread::Threads;

/// Standard input. Standard error announces the first read, which may wait, unless `is_announced`.
#[derive(Drop)]
pub struct Announced<R> {
    pub input: R,
    pub faults: Stderr,
    pub is_announced: bool,
}

impl<R: Read> Read for Announced<R> {
    ghost remaining = { λ r. R.remaining r.input };

    fn read(&mut self, buf: &mut [u8]) -> io::Result<usize> {
        if !self.is_announced {
            self.is_announced = true;
            let _ = eprintln!(self.faults;
                "toxicap: reading the capture from standard input; --capture names a file"
            );
        }
        self.input.read(buf)
    }
}

/// The files of a runtime. If `all` is at least two, standard error counts the stored scenarios: one more when its second file is published.
#[derive(Drop)]
pub struct Counting<'a, R> {
    pub rt: &'a R,
    pub all: u64,
    pub published: AtomicU64,
}

impl<R: Threads> Threads for Counting<'_, R> {}

impl<R: Wait> Wait for Counting<'_, R> {}

impl<R: Files + Eprint> Files for Counting<'_, R> {
    type File = R::File;

    type Dir = R::Dir;

    fn open_file(&self, how: &OpenOptions, path: &str) -> io::Result<R::File> {
        self.rt.open_file(how, path)
    }

    fn open_dir(&self, path: &str) -> io::Result<R::Dir> {
        self.rt.open_dir(path)
    }

    fn metadata(&self, path: &str) -> io::Result<Metadata> {
        self.rt.metadata(path)
    }

    fn symlink_metadata(&self, path: &str) -> io::Result<Metadata> {
        self.rt.symlink_metadata(path)
    }

    fn copy(&self, from: &str, to: &str) -> io::Result<u64> {
        self.rt.copy(from, to)
    }

    fn rename(&self, from: &str, to: &str) -> io::Result<()> {
        self.rt.rename(from, to)?;
        let published = self
            .published
            .fetch_add(1, Ordering::SeqCst)
            .wrapping_add(1);
        let (stored, all) = (published / 2, self.all);
        if all >= 2 && published % 2 == 0 {
            // what comes next is written over each count except the last
            let end = if stored < all { "\r" } else { "\n" };
            let _ = eprint!(self.rt; "stored {stored} of {all}{end}");
        }
        Ok(())
    }

    fn remove_file(&self, path: &str) -> io::Result<()> {
        self.rt.remove_file(path)
    }

    fn create_dir(&self, path: &str) -> io::Result<()> {
        self.rt.create_dir(path)
    }

    fn remove_dir(&self, path: &str) -> io::Result<()> {
        self.rt.remove_dir(path)
    }

    fn remove_dir_all<B: Allocator>(&self, alloc: B, path: &str) -> io::Result<()> {
        self.rt.remove_dir_all(alloc, path)
    }
}
