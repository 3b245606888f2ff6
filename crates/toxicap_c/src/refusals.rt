//! How a refusal is told: its line, and what helps.
ghost use Rattle.std.specs.Prelude.{◌≡◌, IfOk, OnOk, Some, length, ℕ};
ghost use Rattle.std.specs.String.{string_bytes};
ghost use Rattle.run_files.specs.RunFault.{run_refusal};
ghost use Rattle.toxicap_c.specs.Refusals.{IsTextOf, TellsIn};

use crate::hand_outs::put_text;
use crate::inputs::ToxicapInputs;
use crate::statuses::Status;
use hints::hint_of_call;
use run_files::{RunFault, fault_line, memory_line};
use std::alloc::{AllocError, Global};

/// Puts the text of a refusal of these inputs over the first bytes of a buffer, and its length into `len`. If there is no memory for the text,
/// out of memory is told in its place; then the length is 0 if that line does not fit.
pub(crate) fn tell(
    alloc: Global,
    inputs: &ToxicapInputs<'_>,
    fault: &RunFault,
    buffer: &mut [u8],
    len: &mut usize,
) -> Status
    ensures { TellsIn (length inputs.now.scenario_lens.now) fault.now result buffer.old buffer.new len.new }
{
    let Ok(text) = refusal_text(alloc, inputs, fault) else {
        return tell_memory(buffer, len);
    };
    *len = text.len();
    if put_text(text.as_bytes(), buffer) {
        Status::Refused
    } else {
        Status::LittleRoom
    }
}

// The text of a fault that is not out of memory.
fn refusal_text(
    alloc: Global,
    inputs: &ToxicapInputs<'_>,
    fault: &RunFault,
) -> Result<String, AllocError>
    ensures text { IfOk result (λ text. IsTextOf (length inputs.now.scenario_lens.now) fault.now (string_bytes text)) }
    ensures refusal { OnOk result (run_refusal fault.now ≡ Some fault.now) }
{
    if let RunFault::Memory = fault {
        return Err(AllocError);
    }
    let mut text = fault_line(alloc, fault)?;
    let texts = inputs.texts(alloc)?;
    if let Some(hint) = hint_of_call(alloc, fault, inputs.capture, &texts, inputs.hosts)? {
        text.push('\n')?;
        text.push_str(&hint)?;
    }
    Ok(text)
}

fn tell_memory(buffer: &mut [u8], len: &mut usize) -> Status
    ensures { (count : ℕ) (fault : RunFault) → TellsIn count fault result buffer.old buffer.new len.new }
{
    let line = memory_line().as_bytes();
    if put_text(line, buffer) {
        *len = line.len();
        return Status::Refused;
    }
    *len = 0;
    Status::NoMemory
}
