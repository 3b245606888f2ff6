//! The options of the program.
ghost use Rattle.std.specs.Prelude.{◌≡◌, false, IfOk};
ghost use Rattle.clap.specs.Words.{app_of, rule_of};
ghost use Rattle.command_line.specs.OptionTable.{bare_app, number_rule, option_rule, path_options, program_options, repeated_rule};

use crate::texts::{
    ABOUT, AFTER, CAPTURE, CUT, FORMS, HOST, LONG_AFTER, OUT, SCENARIO, SEED, VERSION, WORKERS,
};
use clap::builder::ValueParser;
use clap::{Arg, ArgAction, Command};
use std::alloc::{AllocError, Global};

/// The greatest number that `--workers` takes.
pub(crate) const MOST_WORKERS: u32 = 16;

/// The greatest number that `--cut` takes.
pub(crate) const MOST_CUT: u32 = 1 << 20;

pub(crate) const DEFAULT_WORKERS: u32 = 1;

pub(crate) const DEFAULT_CUT: u32 = 4096;

// An option that takes a value and may stand once.
fn option<'a>(alloc: Global, name: &'a str, value: &'a str, help: &'a str) -> Arg<'a>
    ensures rule { rule_of result ≡ option_rule name.entry.now }
    ensures local { result.global ≡ false }
{
    Arg::new(alloc, name)
        .long(name)
        .value_name(value)
        .help(help)
        .action(ArgAction::Set)
}

// An option that takes a value and may be repeated.
fn repeated<'a>(alloc: Global, name: &'a str, value: &'a str, help: &'a str) -> Arg<'a>
    ensures rule { rule_of result ≡ repeated_rule name.entry.now }
    ensures local { result.global ≡ false }
{
    option(alloc, name, value, help).action(ArgAction::Append)
}

fn number<'a>(
    alloc: Global,
    name: &'a str,
    help: &'a str,
    least: u64,
    most: u64,
    default: &'a str,
) -> Arg<'a>
    ensures rule { rule_of result ≡ number_rule name.entry.now least most default.entry.now }
    ensures local { result.global ≡ false }
{
    option(alloc, name, "N", help)
        .value_parser(ValueParser::unsigned(least, most))
        .default_value(default)
}

fn bare<'a>(alloc: Global) -> Command<'a>
    ensures { app_of result ≡ bare_app }
{
    Command::new(alloc, "toxicap")
        .no_binary_name(true)
        .version(VERSION)
        .long_version(FORMS)
        .about(ABOUT)
        .after_help(AFTER)
        .after_long_help(LONG_AFTER)
}

fn with_inputs<'a>(alloc: Global) -> Result<Command<'a>, AllocError>
    ensures { IfOk result (λ c. app_of c ≡ path_options) }
{
    bare(alloc)
        .arg(option(alloc, "capture", "PATH", CAPTURE))?
        .arg(repeated(alloc, "scenario", "PATH", SCENARIO))?
        .arg(repeated(alloc, "host", "NAME=ADDR", HOST))
}

pub(crate) fn program<'a>(alloc: Global) -> Result<Command<'a>, AllocError>
    ensures { IfOk result (λ c. app_of c ≡ program_options) }
{
    with_inputs(alloc)?
        .arg(number(alloc, "seed", SEED, 0, u64::MAX, "0"))?
        .arg(number(alloc, "workers", WORKERS, 1, MOST_WORKERS as u64, "1"))?
        .arg(number(alloc, "cut", CUT, 1, MOST_CUT as u64, "4096"))?
        .arg(option(alloc, "out", "DIR", OUT))
}
