//! A run that a command line asks for.
ghost use Rattle.std.specs.Prelude.{◌≡◌, ◌+◌, ◌-◌, ◌^◌, ◌<◌, ◌≤◌, ℕ, List, Result, map, IfErr, [], length, IfOk, IfSome, OnOk, Ok};
ghost use Rattle.toxicap.specs.{IsOfFiles, LoadedBy, LoadsCapture, texts_from, texts_or_no_proxies, held_now, InputsStand, ReadsCapture, SweptFor, with_files};
ghost use Rattle.toxicap.specs.{AgreesUnlessMemory, PrintsOf, IsPlanInRange, RunFault, without_value, written, summary_of_texts, answer_of_texts, StoresIn};
ghost use Rattle.toxicap.specs.{disk_histories, capture_limit, failed_stores, Leaves, IsSeenOf, SeesAs, RunsBy, failed_calls, streams, run_refusal};

use crate::crews::Workers;
use crate::host_lines::read_hosts;
use crate::reading::read_inputs;
use crate::rehearsal::Options;
use crate::reports::seen_reports;
use crate::storing::store_rehearsal;
use command_line::Asked;
use conn_workers::RunSummary;
use disks::laws::publishing_leaves_whole;
use disks::{Disk, ReadDisk, ReadFiles};
use job_matrix::Plan;
use run_files::{
    Counted, Folder, RunFault, SeenText, Text, load, load_by_workers, load_file, see_file,
    see_input, write_texts,
};
use std::alloc::{AllocError, Global};
use std::io::{Read, Write};
use std::thread::Threads;

/// Reads first the hosts of a command line, then its scenario files, then the capture, from `reader` if no file is named. The answers are
/// stored in its folder; if it names none, the reports are printed on `writer`. Then it returns the summary of the run.
pub(crate) fn run_asked<H: Threads + Sync, D: ReadDisk + Sync, R: Read, W: Write>(
    rt: &H,
    disk: &mut D,
    alloc: Global,
    asked: &Asked<'_>,
    reader: &mut Counted<R>,
    writer: &mut Counted<W>,
) -> Result<RunSummary, RunFault>
where
    D::File: Sync,
    D::Draft: Send,
    requires asked { IsPlanInRange asked.now }
    requires faults { D.faults disk.old < 2 ^ 64 - 1 }
    requires reads { reader.old.failed < 2 ^ 64 - 1 }
    requires writes { writer.old.failed < 2 ^ 64 - 1 }
    ensures runs { RunsBy asked.now result (disk_histories (D.history disk.old) (D.history disk.new))
        (streams R.remaining reader.old reader.new W.contents writer.old writer.new) }
    ensures swept { OnOk result (SweptFor asked.now.out (D.is_swept disk.new)) }
    ensures inputs { InputsStand asked.now (D.input disk.old) (D.standing disk.old) (D.standing disk.new) }
    ensures failed_calls { D.faults disk.new ≡ D.faults disk.old + failed_calls asked.now.out (without_value result) }
{
    let hosts = read_hosts(alloc, &asked.hosts)?;
    let mut read = ReadFiles::new(alloc);
    let files = load_files(alloc, disk, &asked.scenarios, &mut read)?;
    let texts = texts_of(alloc, &files)?;
    let options = Options {
        hosts,
        seed: asked.seed,
        plan: Plan::new(asked.workers, asked.cut).unwrap(),
    };
    let Some(folder) = asked.out else {
        let seen = see_capture(alloc, disk, asked, reader)?;
        return print_answers(rt, alloc, writer, seen, &texts, &options);
    };
    let text = load_capture(rt, alloc, disk, asked, options.plan, reader, &mut read)?;
    let folder = Folder::new(folder, read);
    store_answers(rt, disk, alloc, text, &folder, &texts, &options)
}

// All reports are made before the first byte is written.
fn print_answers<H: Threads + Sync, W: Write>(
    rt: &H,
    alloc: Global,
    writer: &mut Counted<W>,
    seen: SeenText,
    texts: &[&[u8]],
    options: &Options,
) -> Result<RunSummary, RunFault>
    requires { writer.old.failed < 2 ^ 64 - 1 }
    ensures prints { (text : List ℕ) → length text ≤ capture_limit → IsSeenOf seen text
        → PrintsOf (without_value result) (answer_of_texts options.now.hosts (map (λ t. t.now) texts.now) options.now.seed text) (written W.contents writer.old writer.new) }
    ensures summary { (text : List ℕ) → length text ≤ capture_limit → IsSeenOf seen text
        → IfOk result (λ summary. summary_of_texts options.now.hosts (map (λ t. t.now) texts.now) text ≡ Ok summary) }
{
    let crew = Workers {
        rt,
        plan: options.plan,
    };
    let (reports, summary) = seen_reports(&crew, alloc, seen, texts, &options.hosts, options.seed)?;
    let texts = reports.texts(alloc)?;
    write_texts(writer, &texts)?;
    Ok(summary)
}

fn see_capture<D: ReadDisk, R: Read>(
    alloc: Global,
    disk: &D,
    asked: &Asked<'_>,
    reader: &mut Counted<R>,
) -> Result<SeenText, RunFault>
    requires { reader.old.failed < 2 ^ 64 - 1 }
    ensures { (loaded : Result (List ℕ) RunFault) × SeesAs result loaded × IfOk loaded (λ text. length text ≤ capture_limit)
        × LoadsCapture (D.history disk.now) asked.now.capture (reader.new ≡ reader.old) (LoadedBy R.remaining reader.old reader.new) loaded }
{
    match asked.capture {
        Some(path) => see_file(alloc, disk, path),
        None => see_input(alloc, reader),
    }
}

fn store_answers<H: Threads + Sync, D: Disk + Sync>(
    rt: &H,
    disk: &mut D,
    alloc: Global,
    text: Text<'_>,
    folder: &Folder<'_>,
    texts: &[&[u8]],
    options: &Options,
) -> Result<RunSummary, RunFault>
where
    D::Draft: Send,
    requires { D.faults disk.old < 2 ^ 64 - 1 }
    ensures leaves { Leaves folder.now (D.standing disk.old) (D.standing disk.new) }
    ensures swept { OnOk result (0 < length texts.now → D.is_swept disk.new folder.now.path folder.now.read) }
    ensures stored { StoresIn folder.now.path (without_value result) (answer_of_texts options.now.hosts (map (λ t. t.now) texts.now) options.now.seed text.entry)
        (disk_histories (D.history disk.old) (D.history disk.new)) }
    ensures faults { D.faults disk.new ≡ D.faults disk.old + failed_stores folder.now.path (without_value result) }
    ensures summary { IfOk result (λ summary. summary_of_texts options.now.hosts (map (λ t. t.now) texts.now) text.entry ≡ Ok summary) }
{
    publishing_leaves_whole();
    let inputs = read_inputs(alloc, text, texts, &options.hosts, options.seed)?;
    let crew = Workers {
        rt,
        plan: options.plan,
    };
    store_rehearsal(&crew, alloc, &inputs, folder, disk)
}

// A scenario without proxies.
const BARE: &[u8] = b"[]";

// The texts of the files at some paths, in order. They are added to those that were read.
#[tactic(auto, unfolding(crate::specs::Inputs::texts_from))]
fn load_files<D: ReadDisk>(
    alloc: Global,
    disk: &D,
    named: &[&str],
    read: &mut ReadFiles,
) -> Result<Vec<Vec<u8>>, RunFault>
    ensures contents { IfSome (D.history disk.now) (λ h. AgreesUnlessMemory run_refusal (λ files. map (λ f. f.items) files.items) result
        (texts_from (held_now h) [] (map (λ path. path.now) named.now))) }
    ensures read { IfSome (D.standing disk.now) (λ stood. OnOk result (read.new ≡ with_files stood read.old (map (λ path. path.now) named.now))) }
    ensures one_each { IfOk result (λ files. length files.items ≡ length named.now) }
    ensures of_file { IfErr result (IsOfFiles (length named.now)) }
{
    let mut files = Vec::new(alloc);
    for path in named {
        let file = load_file(alloc, disk, path, read)?;
        files.push(file).map_err(AllocError::from)?;
    }
    Ok(files)
}

// The file of the capture, or the one that standard input is read from, is added to those that were read.
fn load_capture<H: Threads + Sync, D: ReadDisk, R: Read>(
    rt: &H,
    alloc: Global,
    disk: &D,
    asked: &Asked<'_>,
    plan: Plan,
    reader: &mut Counted<R>,
    read: &mut ReadFiles,
) -> Result<Text<'static>, RunFault>
where
    D::File: Sync,
    requires { reader.old.failed < 2 ^ 64 - 1 }
    ensures loads { LoadsCapture (D.history disk.now) asked.now.capture (reader.new ≡ reader.old) (LoadedBy R.remaining reader.old reader.new) result }
    ensures read { OnOk result (ReadsCapture asked.now.capture (D.input disk.now) (D.standing disk.now) read.old read.new) }
{
    match asked.capture {
        Some(path) => load_by_workers(rt, alloc, disk, path, plan, read),
        None => {
            read.add(disk.input_id())?;
            Ok(Text::of(load(alloc, reader)?))
        }
    }
}

fn texts_of<'a>(alloc: Global, files: &'a [Vec<u8>]) -> Result<Vec<&'a [u8]>, AllocError>
    ensures some { IfOk result (λ texts. 0 < length texts.items) }
    ensures are { IfOk result (λ texts. map (λ t. t.now) texts.items ≡ texts_or_no_proxies (map (λ f. f.items) files.now)) }
{
    let mut texts = Vec::new(alloc);
    for file in files {
        texts.push(file.as_slice())?;
    }
    if texts.is_empty() {
        texts.push(BARE)?;
    }
    Ok(texts)
}
