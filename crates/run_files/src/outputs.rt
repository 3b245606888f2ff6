//! What a rehearsal answers, its reports printed and its files stored.
ghost use Rattle.std.specs.Prelude.{◌≡◌, false, ℕ, ◌+◌, ◌-◌, ◌^◌, ◌<◌, length, take, OnOk, OnErr, IfErr, ◌*◌, ◌++◌, [], ◌∷◌, IfOk};
ghost use Rattle.run_files.specs.{Appends, reports_of, string_bytes, Takes, stored_file, failed_puts, outcome_of_storing, four_digits, files_from, Stores};
ghost use Rattle.run_files.specs.{PutsAfter};

use crate::error::{RunFault, StoreFault};
use crate::shelves::Shelf;
use crate::streams::{Counted, write_bytes};
use pcap_records::Values;
use std::alloc::{AllocError, Global};
use std::io::Write;

/// What one scenario answers: a capture of what each side would have received, and a report.
#[derive(Drop)]
pub struct Output {
    /// A classic pcap file.
    pub capture: Values<u8>,
    /// The text of the report, ASCII.
    pub report: Values<u8>,
}

/// What each scenario of a rehearsal answers, in order.
pub type Outputs = Values<Output>;

/// Writes the reports of a rehearsal, one after another. It takes no memory.
///
/// # Errors
/// [`RunFault::WriteFailed`] at the first write that fails or takes no byte. The writer then has a first part of the reports.
pub fn print_reports<W: Write>(outputs: &Outputs, writer: &mut Counted<W>) -> Result<(), RunFault>
    requires { writer.old.failed < 2 ^ 64 - 1 }

    ensures whole { OnOk result (Appends (W.contents writer.old.inner) (W.contents writer.new.inner) (reports_of outputs.now)) }
    ensures none_failed { OnOk result (writer.new.failed ≡ writer.old.failed) }

    ensures refused { IfErr result (λ fault. fault ≡ RunFault.WriteFailed) }
    ensures one_failed { OnErr result (writer.new.failed ≡ writer.old.failed + 1) }
    ensures first_part { OnErr result ((written : ℕ) × (written < length (reports_of outputs.now))
        × Appends (W.contents writer.old.inner) (W.contents writer.new.inner) (take written (reports_of outputs.now))) }
{
    for output in outputs.as_slice() {
        write_bytes(writer, output.report.as_slice())?;
    }
    Ok(())
}

/// Puts the files of a rehearsal on a shelf, for each output its capture and its report: `0000.pcap`, `0000.txt`, `0001.pcap` and on.
/// The number is that of the scenario, in at least four digits.
///
/// # Errors
/// The first file that cannot be stored ends it; none is tried again. The shelf then has the `after` files before that one and no other.
pub fn store_all<S: Shelf>(
    alloc: Global,
    outputs: &Outputs,
    shelf: &mut S,
) -> Result<(), StoreFault>
    requires { S.failures shelf.old < 2 ^ 64 - 1 }
    ensures stores { Stores 0 (files_from 0 outputs.now) (Takes (S.files shelf.old) (S.files shelf.new)) result }
    ensures failures { S.failures shelf.new ≡ S.failures shelf.old + failed_puts false (outcome_of_storing result) }
{
    let all = outputs.as_slice();
    for (number, output) in all.iter().enumerate() {
        let after = 2 * number as u64;
        let capture = output.capture.as_slice();
        put_file(alloc, number, ".pcap", capture, shelf, after)?;
        let report = output.report.as_slice();
        put_file(alloc, number, ".txt", report, shelf, after + 1)?;
    }
    Ok(())
}

fn put_file<S: Shelf>(
    alloc: Global,
    number: usize,
    ending: &str,
    bytes: &[u8],
    shelf: &mut S,
    after: u64,
) -> Result<(), StoreFault>
    requires { S.failures shelf.old < 2 ^ 64 - 1 }
    ensures puts { PutsAfter after (Takes (S.files shelf.old) (S.files shelf.new) (stored_file (four_digits number ++ ending.now) bytes.now ∷ []))
        (S.files shelf.new ≡ S.files shelf.old) result }
    ensures failures { S.failures shelf.new ≡ S.failures shelf.old + failed_puts false (outcome_of_storing result) }
{
    let Ok(name) = file_name(alloc, number, ending) else {
        return Err(StoreFault::Memory { after });
    };
    shelf
        .put(&name, bytes)
        .map_err(|_| StoreFault::ShelfFailed { after })
}

pub(crate) fn file_name(alloc: Global, number: usize, ending: &str) -> Result<String, AllocError>
    ensures { IfOk result (λ name. string_bytes name ≡ four_digits number ++ ending.now) }
{
    format!(in alloc; "{number:04}{ending}")
}
