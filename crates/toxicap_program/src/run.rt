//! A run that has ended, and its files looked at again. Only regular files and folders are opened: to open another file could wait.
use command_line::Asked;
use hints::Said;
use pcap_records::{CAPTURE_LIMIT, FILE_HEADER_LEN};
use std::alloc::{AllocError, Global};
use std::fs::{self, Metadata};
use std::io::{self, Read};
use std::os::unix::fs::MetadataExt;
use std::rt::Files;

#[derive(Drop)]
pub struct Run<'a, R> {
    pub files: &'a R,
    pub alloc: Global,
    /// What it was asked for.
    pub asked: &'a Asked<'a>,
    /// The first bytes that it read of standard input.
    pub first_bytes: &'a [u8],
    /// The number of files that it stored.
    pub stored: u64,
}

impl<R: Files> Run<'_, R> {
    /// The first bytes of the file at a path; none if it is neither a regular file nor a folder.
    pub fn first_bytes_of(&self, path: &str) -> io::Result<Vec<u8>> {
        let mut first_bytes = Vec::new(self.alloc);
        let metadata = fs::metadata(self.files, path)?;
        if metadata.is_file() || metadata.is_dir() {
            let file = fs::open(self.files, path)?;
            file.take(FILE_HEADER_LEN as u64)
                .read_to_end(&mut first_bytes)?;
        }
        Ok(first_bytes)
    }

    /// The first bytes of the capture; none if they cannot be read again.
    pub fn capture_start(&self) -> Result<Vec<u8>, AllocError> {
        match self.asked.capture {
            Some(path) => Ok(self.first_bytes_of(path).unwrap_or(Vec::new(self.alloc))),
            None => self.first_bytes.to_vec(self.alloc),
        }
    }

    pub fn len_of(&self, path: &str) -> Option<u64> {
        let metadata = fs::metadata(self.files, path).ok()?;
        metadata.is_file().then(|| metadata.len())
    }

    /// The bytes of a regular file, unless they are too many or cannot be read.
    pub fn text_of(&self, path: &str) -> Option<Vec<u8>> {
        self.len_of(path)
            .filter(|len| *len <= CAPTURE_LIMIT as u64)?;
        let mut text = Vec::new(self.alloc);
        let mut file = fs::open(self.files, path).ok()?;
        file.read_to_end(&mut text).ok()?;
        Some(text)
    }

    /// Whether a path leads to a file.
    pub fn leads_to(&self, path: &str, file: &Metadata) -> bool {
        let found = fs::metadata(self.files, path);
        found.is_ok_and(|found| found.dev() == file.dev() && found.ino() == file.ino())
    }

    pub fn is_scenario(&self, file: &Metadata) -> bool {
        let mut paths = self.asked.scenarios.iter();
        paths.any(|path| self.leads_to(path, file))
    }
}

/// What an error of the system says, without its number.
pub fn said_by(alloc: Global, error: &io::Error) -> Said {
    let text = error.to_string(alloc)?;
    let cause = text.split_once(" (os error");
    String::from_str(alloc, cause.map_or(text.as_str(), |(cause, _)| cause))
}
