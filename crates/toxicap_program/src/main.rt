//! The program `toxicap`: the library's `command_over` on the command line, the host's disk and the standard streams.
//! On a terminal it also says that it reads standard input, and how many scenarios are stored. Last it says what helps after a refusal, or
//! is missed in a report, also without a terminal if `TOXICAP_HINTS` of the environment is 1.
#![tactic(auto)]

macro_rules! say {
    ($alloc:expr; $($text:tt)*) => { format!(in $alloc; $($text)*) };
}

mod remedies;
mod run;
mod summary;
mod terminal;
mod tips;

use command_line::{Asked, Stop, read_arguments};
use disks::HostDisk;
use pcap_records::FILE_HEADER_LEN;
use run::Run;
use run_files::TeeReader;
use std::io::{Cursor, IsTerminal};
use std::process::ExitCode;
use std::sync::atomic::{AtomicU64, Ordering};
use std::{env, io};
use terminal::{Announced, Counting};
use tips::tip_of;
use toxicap::{Counted, RunFault, RunSummary, command_over, refuse_words};

fn main(rt: HostRuntime) -> ExitCode {
    let mut faults = Counted::new(rt.stderr());
    let words = match words_of(&rt) {
        Ok(words) => words,
        Err(error) => return ExitCode::from(refuse_words(&error, &mut faults)),
    };
    let is_terminal = rt.stderr().is_terminal();
    let is_hinted = env::var(&rt, "TOXICAP_HINTS").is_ok_and(|word| word.as_str() == "1");
    let read = (is_terminal || is_hinted).then(|| read_arguments(rt.alloc(), &words));
    let asked = read.as_ref().and_then(|read| read.as_ref().ok());
    let on_terminal = asked.filter(|_| is_terminal);
    let mut input = Counted::new(TeeReader {
        inner: Announced {
            input: rt.stdin(),
            faults: rt.stderr(),
            is_announced: on_terminal.is_none() || !rt.stdin().is_terminal(),
        },
        copy: Cursor::new([0; FILE_HEADER_LEN]),
    });
    let files = Counting {
        rt: &rt,
        all: on_terminal.map_or(0, |asked| asked.scenarios.len() as u64),
        published: AtomicU64::new(0),
    };
    let (status, outcome) = command_over(
        &files,
        &mut HostDisk::new(rt.alloc(), &files),
        rt.alloc(),
        &words,
        &mut input,
        &mut Counted::new(rt.stdout()),
        &mut faults,
    );
    if let Some(asked) = asked {
        let start = input.into_inner().copy;
        let first_bytes = start.get_ref().get(..start.position() as usize);
        let stored = files.published.load(Ordering::SeqCst);
        print_line(&rt, asked, first_bytes.unwrap_or(&[]), stored, outcome);
    } else if let Some(Err(Stop::Usage(told))) = &read {
        print_tip(&rt, &words, told);
    }
    ExitCode::from(status)
}

fn words_of(rt: &HostRuntime) -> io::Result<Vec<String>> {
    Ok(env::args(rt)?.skip(1).collect(rt.alloc())?)
}

fn print_line(
    rt: &HostRuntime,
    asked: &Asked<'_>,
    first_bytes: &[u8],
    stored: u64,
    outcome: Result<Option<RunSummary>, RunFault>,
) {
    let run = Run {
        files: rt,
        alloc: rt.alloc(),
        asked,
        first_bytes,
        stored,
    };
    let line = match outcome {
        Ok(None) => return,
        Ok(Some(summary)) => run.summed_up(&summary),
        Err(fault) => run.remedy(fault),
    };
    if let Ok(line) = line {
        let _ = eprintln!(rt; "toxicap: {line}");
    }
}

fn print_tip(rt: &HostRuntime, words: &[String], told: &str) {
    let has_capture = words.iter().any(|word| word.starts_with("--capture"));
    if let Ok(Some(tip)) = tip_of(rt.alloc(), told, has_capture) {
        let _ = eprintln!(rt; "tip: {tip}");
    }
}
