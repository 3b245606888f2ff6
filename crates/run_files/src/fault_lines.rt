//! The line of a fault.
ghost use Rattle.std.specs.Prelude.{◌≡◌, ◌++◌, IfOk, OnOk, Some};
ghost use Rattle.run_files.specs.{string_bytes, cause_entry, fault_entry, fault_text, known_text, place_text};

use crate::error::RunFault;
use scenarios::Cause;
use std::alloc::{AllocError, Global};

// Where a fault lies: a number is that of a record or a byte, of a host, or of the files that were stored. `In` has those of a scenario, a proxy
// and a toxic.
#[derive(Clone, Copy)]
pub(crate) enum FaultPlace {
    Nowhere,
    At(u64),
    Host(u64),
    After(u64),
    In(usize, Option<usize>, Option<usize>),
}

fn entry_of_cause(cause: Cause) -> (u32, &'static str)
    ensures number { result.0 ≡ (cause_entry cause).0 }
    ensures name { result.1.now ≡ (cause_entry cause).1 }
{
    match cause {
        Cause::NotJson => (10, "NotJson"),
        Cause::NotArray => (11, "NotArray"),
        Cause::BadMember => (12, "BadMember"),
        Cause::DuplicateProxy => (13, "DuplicateProxy"),
        Cause::BadUpstream => (14, "BadUpstream"),
        Cause::UnknownHost => (15, "UnknownHost"),
        Cause::UnknownToxic => (16, "UnknownToxic"),
        Cause::BadStream => (17, "BadStream"),
        Cause::DuplicateToxic => (18, "DuplicateToxic"),
        Cause::AttributeRange => (19, "AttributeRange"),
        Cause::TooMany => (20, "TooMany"),
        Cause::BadToxicity => (21, "BadToxicity"),
    }
}

fn entry_of(fault: &RunFault) -> (u32, &'static str, FaultPlace)
    ensures number { result.0 ≡ (fault_entry fault.now).0 }
    ensures name { result.1.now ≡ (fault_entry fault.now).1 }
    ensures place { result.2 ≡ (fault_entry fault.now).2 }
{
    use FaultPlace::{After, At, Host, In, Nowhere};
    match fault {
        RunFault::ShortHeader => (1, "ShortHeader", Nowhere),
        RunFault::BadMagic => (2, "BadMagic", Nowhere),
        RunFault::BadVersion => (3, "BadVersion", Nowhere),
        RunFault::BadLink => (4, "BadLink", Nowhere),
        RunFault::RecordTooLong { at } => (5, "RecordTooLong", At(u64::from(*at))),
        RunFault::CaptureTooLong => (6, "CaptureTooLong", Nowhere),
        RunFault::BadScenario { number, refusal } => {
            let (cause, name) = entry_of_cause(refusal.cause);
            (cause, name, In(*number, refusal.proxy, refusal.toxic))
        }
        RunFault::TooManyScenarios => (22, "TooManyScenarios", Nowhere),
        RunFault::BadHost { at } => (23, "BadHost", Host(*at as u64)),
        RunFault::Memory => (40, "Memory", Nowhere),
        RunFault::BadDump { at } => (55, "BadDump", At(*at as u64)),
        RunFault::ShelfFailed { after } => (60, "ShelfFailed", After(*after)),
        RunFault::ReadFailed => (61, "ReadFailed", Nowhere),
        RunFault::WriteFailed => (62, "WriteFailed", Nowhere),
    }
}

fn push_number(line: &mut String, name: &str, number: u64) -> Result<(), AllocError>
    ensures { OnOk result (string_bytes line.new ≡ string_bytes line.old ++ known_text name.now (Some number)) }
{
    write!(line, "{name}{number}")
}

fn push_known(line: &mut String, name: &str, number: Option<usize>) -> Result<(), AllocError>
    ensures { OnOk result (string_bytes line.new ≡ string_bytes line.old ++ known_text name.now number) }
{
    match number {
        None => Ok(()),
        Some(number) => push_number(line, name, number as u64),
    }
}

fn push_place(line: &mut String, place: &FaultPlace) -> Result<(), AllocError>
    ensures { OnOk result (string_bytes line.new ≡ string_bytes line.old ++ place_text place.now) }
{
    match place {
        FaultPlace::Nowhere => Ok(()),
        FaultPlace::At(at) => push_number(line, " at ", *at),
        FaultPlace::Host(at) => push_number(line, " host ", *at),
        FaultPlace::After(files) => push_number(line, " after ", *files),
        FaultPlace::In(scenario, proxy, toxic) => {
            push_number(line, " scenario ", *scenario as u64)?;
            push_known(line, " proxy ", *proxy)?;
            push_known(line, " toxic ", *toxic)
        }
    }
}

/// The line of a fault: `refused`, its number, its name and, if it has one, its place. No line feed stands at its end. If there is no memory for
/// it, [`memory_line`] says that.
#[tactic(auto, unfolding(crate::specs::RunFault::fault_text))]
pub fn fault_line(alloc: Global, fault: &RunFault) -> Result<String, AllocError>
    ensures { IfOk result (λ line. string_bytes line ≡ fault_text fault.now) }
{
    let (number, name, place) = entry_of(fault);
    let mut line = format!(in alloc; "refused {number} {name}")?;
    push_place(&mut line, &place)?;
    Ok(line)
}

/// The line of [`RunFault::Memory`], for which no memory is needed.
pub fn memory_line() -> &'static str
    ensures { result.now ≡ fault_text RunFault.Memory }
{
    "refused 40 Memory"
}
