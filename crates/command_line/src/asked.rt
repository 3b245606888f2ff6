//! What the arguments of a command line ask for.
ghost use Rattle.std.specs.Prelude.{◌≡◌, ◌≤◌, [], map, option_map, unwrap_or, IfOk};
ghost use Rattle.clap.specs.Words.{found_of, kind_of, rows_of};
ghost use Rattle.command_line.specs.Asking.{Asks, IsPlanInRange, ReadsAs, StopsFor, number_to};

use crate::error::Stop;
use crate::options::{DEFAULT_CUT, DEFAULT_WORKERS, MOST_CUT, MOST_WORKERS, program};
use clap::error::ErrorKind;
use clap::{ArgMatches, Error};
use std::alloc::{AllocError, Global};
use std::convert::AsStr;

/// What a command line asks for.
#[derive(Debug, Drop)]
pub struct Asked<'a> {
    /// The path of the capture, or `None` for standard input.
    pub capture: Option<&'a str>,
    /// The paths of the scenario files, in order.
    pub scenarios: Vec<&'a str>,
    /// The hosts as they were written, `NAME=ADDR`, in order and not checked.
    pub hosts: Vec<&'a str>,
    /// What random words are drawn from.
    pub seed: u64,
    /// The number of threads, 1 to 16.
    pub workers: u32,
    /// The number of records of a range that one worker reads, 1 to 2^20.
    pub cut: u32,
    /// The folder for the outputs, or `None` for the reports on standard output.
    pub out: Option<&'a str>,
}

/// Reads the arguments after the program's name. [`Stop::Shown`] means that they ask for the help or the version.
/// [`Stop::Usage`] means a fault: an unknown option or argument, an option without its value or given twice, or a bad number.
pub fn read_arguments<'a, S: AsStr>(alloc: Global, arguments: &'a [S]) -> Result<Asked<'a>, Stop>
    ensures { ReadsAs (map S.text arguments.entry.now) result }
{
    match program(alloc)?.try_get_matches_from(arguments) {
        Ok(matches) => Ok(asked_in(alloc, &matches)?),
        Err(error) => Err(stop_of(alloc, &error, arguments)),
    }
}

fn asked_in<'a>(alloc: Global, matches: &ArgMatches<'a>) -> Result<Asked<'a>, AllocError>
    ensures range { IfOk result IsPlanInRange }
    ensures asks { IfOk result (Asks (rows_of (found_of matches.now))) }
{
    Ok(Asked {
        capture: matches.get_str("capture"),
        scenarios: copy_of(alloc, matches.get_strs("scenario"))?,
        hosts: copy_of(alloc, matches.get_strs("host"))?,
        seed: matches.get_one::<u64>("seed").unwrap_or(0),
        workers: from_one(matches.get_one("workers"), MOST_WORKERS, DEFAULT_WORKERS),
        cut: from_one(matches.get_one("cut"), MOST_CUT, DEFAULT_CUT),
        out: matches.get_str("out"),
    })
}

// clap has tested the number already. It is tested again, so that no theorem about clap's tests is needed.
fn from_one(number: Option<u32>, most: u32, default: u32) -> u32
    requires { (1 ≤ default) × (default ≤ most) }
    ensures range { (1 ≤ result) × (result ≤ most) }
    ensures is { result ≡ number_to most default number }
{
    match number {
        Some(number) if 1 <= number && number <= most => number,
        _ => default,
    }
}

fn copy_of<'a>(alloc: Global, found: Option<&[&'a str]>) -> Result<Vec<&'a str>, AllocError>
    ensures { IfOk result (λ copy. map (λ value. value.now) copy.items
        ≡ unwrap_or (option_map (λ values. map (λ value. value.now) values.now) found.entry) []) }
{
    let mut copy = Vec::new(alloc);
    if let Some(values) = found {
        copy.extend_from_slice(values)?;
    }
    Ok(copy)
}

// If the text finds no memory, the answer is `Stop::Memory`, too.
fn stop_of<S: AsStr>(alloc: Global, error: &Error, arguments: &[S]) -> Stop
    ensures { StopsFor (kind_of error.now) result }
{
    if error.kind() == ErrorKind::OutOfMemory {
        return Stop::Memory;
    }
    match text_of(alloc, error, arguments) {
        Ok(text) if error.use_stderr() => Stop::Usage(text),
        Ok(text) => Stop::Shown(text),
        Err(_) => Stop::Memory,
    }
}

// The text of a fault repeats arguments. So it is taken from the same arguments with escapes in place of characters that do not print.
fn text_of<S: AsStr>(alloc: Global, error: &Error, arguments: &[S]) -> Result<String, AllocError> {
    let mut escaped = Vec::new(alloc);
    for argument in arguments {
        escaped.push(printable(alloc, argument.as_str())?)?;
    }
    let same = error_in(alloc, escaped.as_slice())?;
    let told = same.as_ref().filter(|same| same.kind() == error.kind());
    told.unwrap_or(error).to_string(alloc)
}

fn error_in<S: AsStr>(alloc: Global, arguments: &[S]) -> Result<Option<Error>, AllocError> {
    Ok(program(alloc)?.try_get_matches_from(arguments).err())
}

// A text with escapes in place of characters that do not print. Quotes and backslashes stay.
fn printable(alloc: Global, text: &str) -> Result<String, AllocError> {
    let mut shown = String::new(alloc);
    for c in text.chars() {
        match c {
            '\'' | '"' | '\\' => shown.push(c)?,
            _ => write!(shown, "{}", c.escape_debug())?,
        }
    }
    Ok(shown)
}
