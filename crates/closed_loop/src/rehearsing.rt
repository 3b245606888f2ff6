//! What rehearsals of captures with other times deliver.
ghost use Rattle.std.specs.Prelude.{◌≡◌, ◌<◌, length, slice_get, Some, IfOk};
ghost use Rattle.pcap_records.specs.CaptureView.{CaptureView};
ghost use Rattle.reassembly.specs.LineLaws.{IsLine};
ghost use Rattle.reassembly.specs.RecordedView.{recorded_view};
ghost use Rattle.conn_workers.specs.Recordings.{whole_table, RecordingView, recordings_of, recorded_delivered};
ghost use Rattle.closed_loop.specs.Scripts.{hearing_of};
ghost use Rattle.closed_loop.specs.Recordings.{IsReadAs};
ghost use Rattle.closed_loop.specs.Settled.{hearings_in};

use crate::fault::RoundFault;
use crate::scripts::{Hearing, hearing_of};
use conn_table::Table;
use conn_workers::met_proxy;
use pcap_records::{Capture, CaptureFault, read_capture};
use range_workers::table_alone;
use reassembly::laws::{connections_are_of_capture, conns_are_of_capture};
use reassembly::{Recorded, lines};
use scenarios::Scenario;
use std::alloc::{AllocError, Global};
use toxic_defs::delivered_by;

/// A scenario, and the seed of its random words.
#[derive(Clone, Copy)]
pub(crate) struct Toxics<'s> {
    pub(crate) scenario: &'s Scenario,
    pub(crate) seed: u64,
}

/// Reads a capture that was made of another by other times.
pub(crate) fn read_again<'a>(alloc: Global, file: &'a [u8]) -> Result<Capture<'a>, RoundFault>
    ensures { IfOk result (λ capture. IsReadAs file.now capture) }
{
    match read_capture(alloc, file) {
        Ok(capture) => Ok(capture),
        Err(CaptureFault::Memory(_)) => Err(RoundFault::Memory),
        Err(fault) => Err(RoundFault::BadRecording(fault)),
    }
}

/// What is recorded of connection `i` of a capture.
pub(crate) fn recorded_of<'a>(
    alloc: Global,
    capture: &Capture<'a>,
    table: &Table,
    i: usize,
) -> Result<Recorded<'a>, AllocError>
    requires table { table.now ≡ whole_table capture.now }
    requires within { i < length table.now.conns }
    ensures value { IfOk result (λ r. (x : RecordingView) → slice_get (recordings_of capture.now) i ≡ Some x → recorded_view r ≡ x.recorded) }
    ensures up { IfOk result (λ r. IsLine r.up.line) }
    ensures down { IfOk result (λ r. IsLine r.down.line) }
    ensures up_ticks { IfOk result (λ r. r.up.ticks ≡ capture.now.ticks) }
    ensures down_ticks { IfOk result (λ r. r.down.ticks ≡ capture.now.ticks) }
{
    connections_are_of_capture();
    conns_are_of_capture();
    let conns = table.conns();
    let recorded = lines(alloc, &conns[i], capture)?;
    Ok(recorded)
}

/// What is delivered of connection `i` of a capture.
pub(crate) fn heard_of(
    alloc: Global,
    toxics: Toxics<'_>,
    capture: &Capture<'_>,
    table: &Table,
    i: usize,
) -> Result<Hearing, AllocError>
    requires table { table.now ≡ whole_table capture.now }
    requires within { i < length table.now.conns }
    ensures { IfOk result (λ h. (x : RecordingView) → slice_get (recordings_of capture.now) i ≡ Some x
        → h ≡ hearing_of (recorded_delivered toxics.entry.seed (0, toxics.entry.scenario.now) x)) }
{
    connections_are_of_capture();
    let recorded = recorded_of(alloc, capture, table, i)?;
    let conns = table.conns();
    let conn = &conns[i];
    let met = met_proxy(toxics.scenario, conn.server);
    let delivered = delivered_by(alloc, &recorded, met, toxics.seed, 0, conn.number)?;
    let heard = hearing_of(alloc, &delivered)?;
    Ok(heard)
}

fn hear_each(
    alloc: Global,
    toxics: Toxics<'_>,
    capture: &Capture<'_>,
    table: &Table,
) -> Result<Vec<Hearing>, AllocError>
    requires { table.now ≡ whole_table capture.now }
    ensures { IfOk result (λ v. v.items ≡ hearings_in capture.now toxics.entry.scenario.now toxics.entry.seed) }
{
    let count = table.conns().len();
    let mut hearings = Vec::with_capacity(alloc, count)?;
    for i in 0..count {
        hearings.push(heard_of(alloc, toxics, capture, table, i)?)?;
    }
    Ok(hearings)
}

/// What is delivered of each connection of a file.
pub(crate) fn hearings_of(
    alloc: Global,
    file: &[u8],
    toxics: Toxics<'_>,
) -> Result<Vec<Hearing>, RoundFault>
    ensures { IfOk result (λ v. (heard : CaptureView) × IsReadAs file.now heard × (v.items ≡ hearings_in heard toxics.entry.scenario.now toxics.entry.seed)) }
{
    let capture = read_again(alloc, file)?;
    let table = table_alone(alloc, &capture)?;
    let hearings = hear_each(alloc, toxics, &capture, &table)?;
    Ok(hearings)
}
