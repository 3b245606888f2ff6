//! What helps after a refusal, in one line: `hints` says it of what is looked up again. What only a run has to do with, files and memory, is said here.
use crate::run::{Run, said_by};
use hints::{
    Said, Speaker, capture_hint, count_hint, host_hint, length_hint, scenario_hint, shown_path,
};
use pcap_records::CAPTURE_LIMIT;
use run_files::RunFault;
use std::fs::{self, OpenOptions};
use std::rt::Files;

// How many drafts a folder has if those of one output are made alone, as they are after drafts of several failed.
const DRAFT_LIMIT: u32 = 2;

impl<R: Files> Run<'_, R> {
    pub fn remedy(&self, fault: RunFault) -> Said {
        let (alloc, asked) = (self.alloc, self.asked);
        match fault {
            RunFault::BadScenario { number, refusal } => {
                let path = asked
                    .scenarios
                    .as_slice()
                    .get(number)
                    .copied()
                    .unwrap_or("");
                let name = shown_path(alloc, path)?;
                match self.text_of(path) {
                    Some(text) => scenario_hint(alloc, Speaker::Program, &name, &text, &refusal),
                    None => {
                        say!(alloc; "{name} is read once, and what is wrong is not known: keep the scenario in a file")
                    }
                }
            }
            RunFault::TooManyScenarios => count_hint(
                alloc,
                Speaker::Program,
                asked.scenarios.len(),
            ),
            RunFault::BadHost { at } => host_hint(alloc, Speaker::Program, &asked.hosts, at),
            RunFault::Memory => self.memory_remedy(),
            RunFault::ShelfFailed { after } => self.folder_remedy(after),
            RunFault::ReadFailed => self.reading_remedy(),
            RunFault::WriteFailed =>
                say!(alloc; "standard output took no more: the disk is full, or what read it has ended"),
            RunFault::CaptureTooLong => self.length_remedy(),
            _ => self.capture_remedy(&fault),
        }
    }

    fn memory_remedy(&self) -> Said {
        let remedy =
            say!(self.alloc; "memory was refused: fewer --workers, or a smaller capture, take less")?;
        match self.asked.out {
            Some(_) => say!(self.alloc; "{remedy}; {} files were stored", self.stored),
            None => Ok(remedy),
        }
    }

    // Names the first scenario above the limit. If the capture's length is known and within it, a scenario of unknown length is taken to be above.
    fn length_remedy(&self) -> Said {
        let capture_len = self.asked.capture.and_then(|path| self.len_of(path));
        let is_capture = capture_len.is_none_or(|len| len > CAPTURE_LIMIT as u64);
        for path in self.asked.scenarios.iter() {
            if self
                .len_of(path)
                .map_or(!is_capture, |len| len > CAPTURE_LIMIT as u64)
            {
                return length_hint(self.alloc, &shown_path(self.alloc, path)?);
            }
        }
        self.capture_remedy(&RunFault::CaptureTooLong)
    }

    // The first named file that cannot be read now, and why; or the first that is no regular file, since only those are read again.
    fn reading_remedy(&self) -> Said {
        let (alloc, asked) = (self.alloc, self.asked);
        for path in asked.scenarios.iter().copied().chain(asked.capture) {
            if let Err(error) = self.first_bytes_of(path) {
                let (name, cause) = (shown_path(alloc, path)?, said_by(alloc, &error)?);
                if path == "-" && asked.capture == Some(path) {
                    return say!(alloc; "{name}: {cause}; without --capture the capture is read from standard input");
                }
                return say!(alloc; "{name}: {cause}");
            }
        }
        let mut named = asked.scenarios.iter().copied().chain(asked.capture);
        if let Some(path) = named.find(|path| self.len_of(path).is_none()) {
            let path = shown_path(alloc, path)?;
            return say!(alloc; "{path} is no regular file, and may be what cannot be read: name a regular file in its place");
        }
        if asked.capture.is_some() {
            return say!(alloc; "each file that was named can be read now: run it again");
        }
        say!(alloc; "standard input cannot be read: --capture names a file")
    }

    fn capture_remedy(&self, fault: &RunFault) -> Said {
        let name = shown_path(self.alloc, self.asked.capture.unwrap_or("standard input"))?;
        if matches!(fault, RunFault::ShortHeader) && self.is_scenario_too() {
            return say!(self.alloc; "{name} was read as a scenario, and is read once: --capture names a file");
        }
        let bytes = match fault {
            RunFault::BadDump { .. } => self.asked.capture.and_then(|path| self.text_of(path)),
            _ => Some(self.capture_start()?),
        };
        let bytes = bytes.unwrap_or(Vec::new(self.alloc));
        capture_hint(self.alloc, Speaker::Program, &name, &bytes, fault)
    }

    // Whether the capture is read once, as a pipe is, and a scenario was the same.
    fn is_scenario_too(&self) -> bool {
        let capture = fs::metadata(self.files, self.asked.capture.unwrap_or("/dev/stdin"));
        capture.is_ok_and(|capture| !capture.is_file() && self.is_scenario(&capture))
    }

    // What helps if a file of the folder could not be stored after `after` files that were.
    fn folder_remedy(&self, after: u64) -> Said {
        let folder = self.asked.out.unwrap_or("");
        let name = shown_path(self.alloc, folder)?;
        match fs::metadata(self.files, folder) {
            Err(error) => {
                let cause = said_by(self.alloc, &error)?;
                say!(self.alloc; "{name}: {cause}; --out names a folder that exists: mkdir makes one")
            }
            Ok(metadata) if !metadata.is_dir() => {
                say!(self.alloc; "{name} is no folder: choose another --out")
            }
            Ok(_) => self.output_remedy(folder, after),
        }
    }

    fn output_remedy(&self, folder: &str, after: u64) -> Said {
        let number = after / 2;
        let kind = if after % 2 == 0 { "pcap" } else { "txt" };
        let path = say!(self.alloc; "{folder}/{number:04}.{kind}")?;
        let name = shown_path(self.alloc, &path)?;
        match fs::metadata(self.files, &path) {
            Ok(file) if !file.is_file() => {
                let kind = if file.is_dir() { "a folder" } else { "no file" };
                say!(self.alloc; "{name} is {kind}: move it, or choose another --out")
            }
            Ok(file)
                if self.is_scenario(&file)
                    || self.leads_to(self.asked.capture.unwrap_or("/dev/stdin"), &file) =>
                say!(self.alloc; "{name}: the run has read it, and it is not replaced: choose another --out"),
            Ok(_) => match OpenOptions::new().write(true).open(self.files, &path) {
                Err(error) => {
                    let cause = said_by(self.alloc, &error)?;
                    say!(self.alloc; "{name}: {cause}; choose another --out, or give the right to write it")
                }
                Ok(_) => self.draft_remedy(folder, &name),
            }
            Err(_) => self.draft_remedy(folder, &name),
        }
    }

    fn draft_remedy(&self, folder: &str, name: &str) -> Said {
        for place in 0..DRAFT_LIMIT {
            let draft = say!(self.alloc; "{folder}/toxicap.unfinished-{place}")?;
            if fs::symlink_metadata(self.files, &draft).is_ok() {
                let draft = shown_path(self.alloc, &draft)?;
                return say!(self.alloc; "{draft} stands where files are first written: wait for other runs of this folder, then move it, or choose another --out");
            }
        }
        say!(self.alloc; "{name} could not be written: wait for other runs of this folder, or look at its rights, and at the room that is left")
    }
}
