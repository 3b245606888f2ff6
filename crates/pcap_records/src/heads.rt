//! A reader of heads of packets, which takes a file part by part.
ghost use Rattle.std.specs.Prelude.{◌≡◌, ◌≤◌, ◌<◌, ◌+◌, ◌-◌, length, drop, OnOk};
ghost use Rattle.lists.specs.Agreement.{AgreesUnlessMemory};
ghost use Rattle.pcap_records.specs.Blocks.{slice_limit};
ghost use Rattle.pcap_records.specs.CaptureView.{capture_refusal};
ghost use Rattle.pcap_records.specs.Instants.{ticks_of};
ghost use Rattle.pcap_records.specs.Reading.{capture_limit};
ghost use Rattle.pcap_records.specs.Heads.{IsSpent, Takes, no_header, read_on};
ghost use Rattle.pcap_records.specs.HeadLists.{AreKept, IsSoundIn, seen};
ghost use Rattle.pcap_records.specs.declared.heads.State.TheVariants.{Header, Records};

use crate::fault::CaptureFault;
use crate::file_bytes::FileBytes;
use crate::head_list::{HeadList, Stop, take_records};
use crate::heading::{FILE_HEADER_LEN, Heading, read_heading};
use crate::kept_heads::{KeptHeads, heads_of_list};
use std::alloc::{AllocError, Global};
use std::marker::Model;

/// What a reader of heads has found so far.
#[derive(Drop)]
pub(crate) enum State {
    /// No whole file header yet.
    Header,
    /// The file header and whole records.
    Records(Heading),
    Refused(CaptureFault),
}

#[derive(Drop)]
pub(crate) struct Progress {
    pub state: State,
    pub list: HeadList,
}

/// Takes a file in parts and keeps of each packet its stamp, its length and its first bytes ([`head_len`](crate::head_len)).
/// Pass unconsumed bytes again at the start of the next part. After an `Ok` they are fewer than 262,160.
#[derive(Drop)]
pub struct HeadReader {
    progress: Progress,
}

impl Model for HeadReader {
    ghost use Rattle.pcap_records.specs.Heads.{HeadReaderView};
    ghost use Rattle.pcap_records.specs.HeadLists.{IsSoundIn, seen};

    ghost Value = { HeadReaderView };

    ghost view = { λ r. seen r.progress.state r.progress.list };

    ghost invariant = { λ r. IsSoundIn r.progress.state r.progress.list };
}

impl HeadReader {
    /// A reader that has taken nothing yet.
    pub fn new(alloc: Global) -> HeadReader
        ensures taken { result.taken ≡ 0 }
        ensures found { result.found ≡ no_header }
    {
        let list = HeadList {
            bytes: Vec::new(alloc),
            records: Vec::new(alloc),
            need: 0,
            taken: 0,
        };
        let state = State::Header;
        HeadReader {
            progress: Progress { state, list },
        }
    }

    /// The number of bytes of the file that it has taken.
    pub fn taken(&self) -> usize
        ensures { result ≡ self.now.taken }
    {
        self.progress.list.taken
    }

    /// Takes a file header and whole records from the bytes after those that were taken. If the file has a fault, it takes all.
    /// If it is out of memory, it has taken the records before the one that found none, and can go on from there.
    pub fn take(&mut self, bytes: &[u8]) -> Result<(), AllocError>
        requires { self.old.taken + length bytes.now ≤ capture_limit }
        ensures takes { Takes self.old self.new bytes.now }
        ensures spent { OnOk result (IsSpent self.new.found (drop (self.new.taken - self.old.taken) bytes.now)) }
        ensures few { OnOk result (self.old.taken + length bytes.now < self.new.taken + slice_limit) }
    {
        take_part(&mut self.progress, bytes)
    }

    /// Takes the last bytes of the file and returns its heads, or its first fault, in the order of [`CaptureFault`].
    /// If it is out of memory, it returns `Memory`, whatever fault the file may have.
    pub fn finish(self, bytes: &[u8]) -> Result<KeptHeads, CaptureFault>
        requires { self.taken + length bytes.now ≤ capture_limit }
        ensures { AgreesUnlessMemory capture_refusal (λ heads. heads) result (read_on self.found bytes.now) }
    {
        let HeadReader { mut progress } = self;
        let end = progress.list.taken + bytes.len();
        take_part(&mut progress, bytes)?;
        let Progress { state, list } = progress;
        match state {
            State::Header => Err(CaptureFault::ShortHeader),
            State::Records(heading) => {
                let rest = (end - list.taken) as u32;
                Ok(heads_of_list(list, heading, rest)?)
            }
            State::Refused(fault) => Err(fault),
        }
    }
}

fn take_part(progress: &mut Progress, bytes: &[u8]) -> Result<(), AllocError>
    requires sound { IsSoundIn progress.old.state progress.old.list }
    requires limited { progress.old.list.taken + length bytes.now ≤ capture_limit }
    ensures sound { IsSoundIn progress.new.state progress.new.list }
    ensures takes { Takes (seen progress.old.state progress.old.list) (seen progress.new.state progress.new.list) bytes.now }
    ensures spent { OnOk result (IsSpent (seen progress.new.state progress.new.list).found
        (drop (progress.new.list.taken - progress.old.list.taken) bytes.now)) }
{
    match progress.state {
        State::Header => take_header(progress, bytes),
        State::Records(heading) => take_on(progress, heading, bytes),
        State::Refused(_) => {
            progress.list.taken += bytes.len();
            Ok(())
        }
    }
}

// Takes the file header if these bytes have it whole, and what can be read after it.
fn take_header(progress: &mut Progress, bytes: &[u8]) -> Result<(), AllocError>
    requires header { progress.old.state ≡ Header }
    requires sound { IsSoundIn Header progress.old.list }
    requires limited { progress.old.list.taken + length bytes.now ≤ capture_limit }
    ensures sound { IsSoundIn progress.new.state progress.new.list }
    ensures takes { Takes (seen Header progress.old.list) (seen progress.new.state progress.new.list) bytes.now }
    ensures spent { OnOk result (IsSpent (seen progress.new.state progress.new.list).found
        (drop (progress.new.list.taken - progress.old.list.taken) bytes.now)) }
{
    if bytes.len() < FILE_HEADER_LEN {
        return Ok(());
    }
    match read_heading(FileBytes::Whole(&bytes[..FILE_HEADER_LEN])) {
        Ok(heading) => {
            progress.state = State::Records(heading);
            progress.list.taken += FILE_HEADER_LEN;
            take_on(progress, heading, &bytes[FILE_HEADER_LEN..])
        }
        Err(fault) => {
            progress.state = State::Refused(fault);
            progress.list.taken += bytes.len();
            Ok(())
        }
    }
}

fn take_on(progress: &mut Progress, heading: Heading, bytes: &[u8]) -> Result<(), AllocError>
    requires records { progress.old.state ≡ Records heading }
    requires kept { AreKept (ticks_of heading.unit) progress.old.list }
    requires limited { progress.old.list.taken + length bytes.now ≤ capture_limit }
    ensures sound { IsSoundIn progress.new.state progress.new.list }
    ensures takes { Takes (seen (Records heading) progress.old.list) (seen progress.new.state progress.new.list) bytes.now }
    ensures spent { OnOk result (IsSpent (seen progress.new.state progress.new.list).found
        (drop (progress.new.list.taken - progress.old.list.taken) bytes.now)) }
{
    let end = progress.list.taken + bytes.len();
    match take_records(&mut progress.list, heading, bytes) {
        Stop::Torn => Ok(()),
        Stop::TooLong => {
            let at = progress.list.records.len() as u32;
            progress.state = State::Refused(CaptureFault::RecordTooLong { at });
            progress.list.taken = end;
            Ok(())
        }
        Stop::NoMemory => Err(AllocError),
    }
}
