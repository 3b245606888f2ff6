//! What helps after a refusal of a call of the library.
ghost use Rattle.std.specs.Prelude.{◌≡◌, ◌++◌, [], IfOk, IfSome, codes, is_some, length};
ghost use Rattle.std.specs.Fmt.{decimal};
ghost use Rattle.std.specs.String.{string_bytes};
ghost use Rattle.hints.specs.Hints.{IsAbout, is_of_arguments, subject_in_call};

use crate::captures::capture_hint;
use crate::hosts::host_hint;
use crate::lines::{Said, Speaker, numbered};
use crate::scenario_hints::{count_hint, length_hint, scenario_hint};
use pcap_records::CAPTURE_LIMIT;
use run_files::RunFault;
use scenarios::Refusal;
use std::alloc::{AllocError, Global};

/// What helps after a call with these arguments was refused, in one line. `hosts` has a line NAME=ADDR for each host. The names of the
/// arguments are `the capture`, `scenario 0`, `host 0` and so on. After out of memory, and faults of files, nothing is known to help.
pub fn hint_of_call(
    alloc: Global,
    fault: &RunFault,
    capture: &[u8],
    scenarios: &[&[u8]],
    hosts: &[u8],
) -> Result<Option<String>, AllocError>
    ensures known { IfOk result (λ hint. is_some hint ≡ is_of_arguments fault.now) }
    ensures about { IfOk result (λ hint. IfSome hint (λ line. IsAbout (subject_in_call fault.now (length scenarios.now)) (string_bytes line))) }
{
    let hint = match fault {
        RunFault::Memory
        | RunFault::ShelfFailed { .. }
        | RunFault::ReadFailed
        | RunFault::WriteFailed => return Ok(None),
        RunFault::BadScenario { number, refusal } => numbered_hint(
            alloc, scenarios, *number, refusal,
        ),
        RunFault::TooManyScenarios => count_hint(alloc, Speaker::Call, scenarios.len()),
        RunFault::BadHost { at } => line_hint(alloc, hosts, *at),
        RunFault::CaptureTooLong => longest_hint(alloc, capture, scenarios),
        _ => capture_hint(alloc, Speaker::Call, "the capture", capture, fault),
    };
    Ok(Some(hint?))
}

fn numbered_hint(alloc: Global, scenarios: &[&[u8]], number: usize, refusal: &Refusal) -> Said
    ensures { IfOk result (λ line. IsAbout (codes "scenario " ++ decimal number) (string_bytes line)) }
{
    let name = numbered(alloc, "scenario ", number)?;
    let text = scenarios.get(number).copied().unwrap_or(&[]);
    scenario_hint(alloc, Speaker::Call, &name, text, refusal)
}

fn line_hint(alloc: Global, hosts: &[u8], at: usize) -> Said
    ensures { IfOk result (λ line. IsAbout (codes "host " ++ decimal at) (string_bytes line)) }
{
    let text = String::from_utf8_lossy(alloc, hosts)?;
    let lines: Vec<&str> = text.split('\n').collect(alloc)?;
    host_hint(alloc, Speaker::Call, &lines, at)
}

// If no scenario is too long, the capture is.
fn longest_hint(alloc: Global, capture: &[u8], scenarios: &[&[u8]]) -> Said
    ensures { IfOk result (λ line. IsAbout [] (string_bytes line)) }
{
    for (number, text) in scenarios.iter().enumerate() {
        if text.len() > CAPTURE_LIMIT {
            let name = numbered(alloc, "scenario ", number)?;
            return length_hint(alloc, &name);
        }
    }
    capture_hint(
        alloc,
        Speaker::Call,
        "the capture",
        capture,
        &RunFault::CaptureTooLong,
    )
}
