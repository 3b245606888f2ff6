//! The program: from the words of its command line to an exit status.
ghost use Rattle.std.specs.Prelude.{◌≡◌, ◌≢◌, ◌+◌, ◌-◌, ◌^◌, ◌<◌, ◌≤◌, map, IfOk, None, Option, Result};
ghost use Rattle.toxicap.specs.{error_kind, ReadsAs, Asked, Stop, RunSummary, fault_text, ProgramEnds, failed_calls, folder_of, of_run, streams, StandAfter};
ghost use Rattle.toxicap.specs.{SweptAfter, Tells, WritesText, WrittenSoFar, no_text, status_of, text_with_line_feed, usage_status, without_value, written};
ghost use Rattle.toxicap.specs.{disk_histories};

mod runs;

use command_line::{Stop, read_arguments};
use conn_workers::RunSummary;
use disks::{HostDisk, Lockable, ReadDisk};
use run_files::{Counted, RunFault, fault_line, memory_line, write_bytes, write_texts};
use runs::run_asked;
use std::alloc::Global;
use std::convert::AsStr;
use std::io::{Error, ErrorKind, Read, Write};
use std::os::unix::fs::FileExt;
use std::rt::Files;
use std::sync::Wait;
use std::thread::Threads;

const NO_TEXT: &[u8] = b"error: a word of the command line is not text in UTF-8";

/// The whole program on the arguments after its name, with the host's disk; [`command_over`] takes any disk. It reads what they name, and the
/// capture from `input` if they name none. Then it rehearses, and prints or stores the outputs. It prints a refusal on `faults`, and returns
/// the exit status.
///
/// The status is 0, 1 for a refusal, or 2 for a fault of the command line, of which only the text is written, and nothing is read. A refusal's
/// line is written with a line feed. `--help` and `--version` are written on `output`. Refusals come in this order: hosts, scenario files as
/// bytes, the capture's bytes, its dump, the scenarios, their number, the capture's own faults, and last a write or a file that fails.
/// Out of memory comes when an allocation fails. If that is one for a refusal's line, the line of out of memory stands in its place. A write
/// on `faults` that fails ends the line early and leaves the status as it is. The call waits for the threads of the rehearsal: its clauses
/// hold if it returns.
pub fn command<H: Files + Threads + Wait + Sync, S: AsStr, I: Read, O: Write, E: Write>(
    rt: &H,
    alloc: Global,
    words: &[S],
    input: &mut Counted<I>,
    output: &mut Counted<O>,
    faults: &mut Counted<E>,
) -> u8
where
    H::File: FileExt + Lockable + Send + Sync,
    H::Dir: Send,
    requires reads { input.old.failed < 2 ^ 64 - 1 }
    requires writes { output.old.failed < 2 ^ 64 - 1 }
    requires tells { faults.old.failed < 2 ^ 64 - 1 }

    ensures status { result ≤ 2 }
    ensures quiet { result ≡ 0 → faults.new ≡ faults.old }
    ensures usage { result ≡ 2 → (input.new ≡ input.old) × (output.new ≡ output.old) }

    ensures ends { (line : Result Asked Stop) × (outcome : Result (Option RunSummary) RunFault) × ReadsAs (map S.text words.now) line
        × ProgramEnds line result outcome (disk_histories None None)
        (streams I.remaining input.old input.new O.contents output.old output.new) (written E.contents faults.old faults.new) }
{
    let mut disk = HostDisk::new(alloc, rt);
    command_over(rt, &mut disk, alloc, words, input, output, faults).0
}

/// [`command`] over any disk: its scenario files and its capture are loaded from there, and its outputs stored there. Beside the status
/// stands the outcome that it is the status of. A run that ended well has its summary. Help or the version, once it is written, and a fault
/// of the command line have `Ok(None)`.
///
/// If the disk tells its history, the outcome follows from it. Each scenario is the text at its own path, and the capture that at its path.
/// Of several files at fault the first counts, in the order of the scenarios, and then the capture. After a run of status 0 the files of the
/// outputs stand in the folder, and no others were published. If the folder fails or memory runs out, a first part of them was. At any
/// other refusal, and without `--out`, the disk is as it was. Of the calls that hold a folder, check a path or publish a draft, at most one
/// fails. One has failed exactly if a file could not be stored in a folder that has a path. Whenever the run is cut off, each path holds what
/// it held before it, or the whole file that was to be published there. If the disk tells what stands, the scenario files and the capture stand
/// as they did, each the same file: no input is replaced. After a run of status 0 its folder had been held, and swept of drafts.
pub fn command_over<
    H: Threads + Wait + Sync,
    D: ReadDisk + Sync,
    S: AsStr,
    I: Read,
    O: Write,
    E: Write,
>(
    rt: &H,
    disk: &mut D,
    alloc: Global,
    words: &[S],
    input: &mut Counted<I>,
    output: &mut Counted<O>,
    faults: &mut Counted<E>,
) -> (u8, Result<Option<RunSummary>, RunFault>)
where
    D::File: Sync,
    D::Draft: Send,
    requires disk_faults { D.faults disk.old < 2 ^ 64 - 1 }
    requires reads { input.old.failed < 2 ^ 64 - 1 }
    requires writes { output.old.failed < 2 ^ 64 - 1 }
    requires tells { faults.old.failed < 2 ^ 64 - 1 }
    ensures status { result.0 ≤ 2 }
    ensures quiet { result.0 ≡ 0 → faults.new ≡ faults.old }
    ensures usage { result.0 ≡ 2 → (input.new ≡ input.old) × (output.new ≡ output.old) }
    ensures ends { (line : Result Asked Stop) × ReadsAs (map S.text words.now) line
        × ProgramEnds line result.0 result.1 (disk_histories (D.history disk.old) (D.history disk.new))
        (streams I.remaining input.old input.new O.contents output.old output.new) (written E.contents faults.old faults.new)
        × (D.faults disk.new ≡ D.faults disk.old + failed_calls (folder_of line) (without_value result.1))
        × StandAfter line (D.input disk.old) (D.standing disk.old) (D.standing disk.new)
        × SweptAfter line result.1 (D.is_swept disk.new) }
{
    match read_arguments(alloc, words) {
        Ok(asked) => {
            let outcome = of_run(run_asked(rt, disk, alloc, &asked, input, output));
            (report_outcome(alloc, &outcome, faults), outcome)
        }
        Err(Stop::Shown(text)) => {
            let outcome = show(output, text.as_bytes());
            (report_outcome(alloc, &outcome, faults), outcome)
        }
        Err(Stop::Memory) => {
            let outcome = Err(RunFault::Memory);
            (report_outcome(alloc, &outcome, faults), outcome)
        }
        Err(Stop::Usage(text)) => {
            write_text(faults, text.as_bytes());
            (2, Ok(None))
        }
    }
}

/// What the program answers if its command line cannot be had, for this error. Out of memory gives 1, and its line. Any other error gives 2,
/// and a line that says that a word is no text.
pub fn refuse_words<E: Write>(error: &Error, faults: &mut Counted<E>) -> u8
    requires { faults.old.failed < 2 ^ 64 - 1 }
    ensures memory { error_kind error.now ≡ ErrorKind.OutOfMemory → (result ≡ 1)
        × WrittenSoFar (text_with_line_feed (fault_text RunFault.Memory)) (written E.contents faults.old faults.new) }
    ensures no_text { error_kind error.now ≢ ErrorKind.OutOfMemory → (result ≡ usage_status)
        × WrittenSoFar (text_with_line_feed no_text) (written E.contents faults.old faults.new) }
{
    if error.kind() == ErrorKind::OutOfMemory {
        write_line(faults, memory_line().as_bytes());
        return 1;
    }
    write_line(faults, NO_TEXT);
    2
}

fn of_run(run: Result<RunSummary, RunFault>) -> Result<Option<RunSummary>, RunFault>
    ensures { result ≡ of_run run }
{
    Ok(Some(run?))
}

fn show<W: Write>(writer: &mut Counted<W>, text: &[u8]) -> Result<Option<RunSummary>, RunFault>
    requires { writer.old.failed < 2 ^ 64 - 1 }
    ensures writes { WritesText (without_value result) text.now (written W.contents writer.old writer.new) }
    ensures none { IfOk result (λ summary. summary ≡ None) }
{
    write_bytes(writer, text)?;
    Ok(None)
}

fn report_outcome<A, W: Write>(
    alloc: Global,
    outcome: &Result<A, RunFault>,
    faults: &mut Counted<W>,
) -> u8
    requires { faults.old.failed < 2 ^ 64 - 1 }
    ensures status { result ≡ status_of outcome.now }
    ensures told { Tells outcome.now (written W.contents faults.old faults.new) }
{
    let Err(fault) = outcome else {
        return 0;
    };
    match fault_line(alloc, fault) {
        Ok(line) => write_line(faults, line.as_bytes()),
        Err(_) => write_line(faults, memory_line().as_bytes()),
    }
    1
}

fn write_text<W: Write>(writer: &mut Counted<W>, text: &[u8])
    requires { writer.old.failed < 2 ^ 64 - 1 }
    ensures { WrittenSoFar text.now (written W.contents writer.old writer.new) }
{
    let _ = write_bytes(writer, text);
}

fn write_line<W: Write>(writer: &mut Counted<W>, line: &[u8])
    requires { writer.old.failed < 2 ^ 64 - 1 }
    ensures { WrittenSoFar (text_with_line_feed line.now) (written W.contents writer.old writer.new) }
{
    let _ = write_texts(writer, &[line, b"\n"]);
}
