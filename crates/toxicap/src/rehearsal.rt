//! Rehearsing a capture, that of a text or of inputs that were read, by workers or by the thread of the call only.
ghost use Rattle.std.specs.Prelude.{◌≡◌, ◌≤◌, IfOk, length, ◌+◌, All, OnOk, drop, take, ◌-◌, ◌^◌, ◌<◌, map};
ghost use Rattle.toxicap.specs.{Agrees, answer_of, outputs_of_capture, answer, scenario_limit, run_refusal, gathered_output, lines_in, segments_in};
ghost use Rattle.toxicap.specs.{seen_capture, into_iter_items, into_iter_len, contents_of, HasNoKeyTwice, whole_table, sorted_by_key, all_segments};
ghost use Rattle.toxicap.specs.{answer_of_texts, LoadedBy, Step, UnlessMemory, effects_in, flat_lines, flat_view, made_of, reports_in};

use crate::crews::{Alone, Crew, Workers};
use crate::reading::{Inputs, read_inputs, read_rehearsed};
use crate::reports::{rehearse_reports, report_heads};
use crate::sources::Sources;
use conn_table::Table;
use conn_table::laws::indexed_connections_agree;
use conn_workers::{Delivery, deliver};
use effects::effect_counts;
use job_matrix::{Gate, Plan};
use laid_lines::{LaidLines, delivered_lines};
use pcap_records::{Capture, FileBytes, Values};
use range_workers::table;
use report::{ReportText, report};
use run_files::{Counted, Output, Outputs, RunFault, Text, load};
use scenarios::{Hosts, Scenario};
use segment_writer::SegList;
use segment_writer::laws::{keys_rise, keys_stand_once, rising_is_sorted};
use std::alloc::{AllocError, Global};
use std::io::Read;
use std::sync::Wait;
use std::thread::Threads;
use std::vec::IntoIter;
use time_merge::merge;

/// Rehearses a capture under each of the scenarios, in order. `capture` has the bytes of a classic pcap file: a dump is not decoded here.
/// Random words are drawn from `seed`. The answer is that of the definition, `answer` in `specs/Rehearsal.antt`, whatever the plan and the gate.
///
/// # Errors
/// `TooManyScenarios` for more than 256, before the capture is looked at; then the capture's own fault; then `Memory`.
pub fn rehearse<R: Threads + Wait + Sync, G: Gate>(
    rt: &R,
    alloc: Global,
    capture: &[u8],
    scenarios: &[Scenario],
    seed: u64,
    plan: Plan,
    gate: &G,
) -> Result<Outputs, RunFault>
    ensures { Agrees run_refusal (λ outputs. outputs) result (answer capture.now scenarios.now seed) }
{
    let capture = read_rehearsed(alloc, FileBytes::Whole(capture), scenarios)?;
    let outputs = list_outputs(rt, alloc, &capture, scenarios, seed, plan, gate)?;
    Ok(Values::of(outputs))
}

// Workers make the table of the capture, and then what each connection contributes to each scenario. Then one scenario after another is
// written, and what was made for it is dropped.
fn list_outputs<R: Threads + Sync, G: Gate>(
    rt: &R,
    alloc: Global,
    capture: &Capture<'_>,
    scenarios: &[Scenario],
    seed: u64,
    plan: Plan,
    gate: &G,
) -> Result<Vec<Output>, AllocError>
    requires few { length scenarios.now ≤ scenario_limit }
    ensures { IfOk result (λ outputs. outputs.items ≡ outputs_of_capture capture.now scenarios.now seed) }
{
    indexed_connections_agree();
    keys_rise();
    rising_is_sorted();
    keys_stand_once();
    let table = table(rt, alloc, capture, plan, gate)?;
    let deliveries = deliver(rt, alloc, capture, &table, scenarios, seed, plan, gate)?;
    let count = table.conns().len();
    let mut rest = deliveries.into_vec().into_iter();
    let mut outputs = Vec::with_capacity(alloc, scenarios.len())?;
    for number in 0..scenarios.len() {
        let row = take_row(alloc, &mut rest, count)?;
        let output = gathered_output(alloc, capture, &table, number as u32, row)?;
        outputs.push(output)?;
    }
    Ok(outputs)
}

#[tactic(auto, unfolding(time_merge::specs::MergedCapture::capture_of))]
fn gathered_output(
    alloc: Global,
    capture: &Capture<'_>,
    table: &Table,
    number: u32,
    row: DeliveryRow,
) -> Result<Output, AllocError>
    requires table { table.now ≡ whole_table capture.now }
    requires each { length row.lines.items ≡ length table.now.conns }
    requires sorted { All (λ list. sorted_by_key list ≡ list) row.segments.items }
    requires once { HasNoKeyTwice (all_segments row.segments.items) }
    ensures { IfOk result (λ output. output
        ≡ gathered_output (seen_capture (contents_of capture.now)) number table.now.unopened row.segments.items row.lines.items) }
{
    let DeliveryRow { segments, lines } = row;
    let bytes = merge(alloc, segments)?.capture(alloc, capture.unit())?;
    let report = report(alloc, number, capture, table, &lines)?;
    Ok(Output {
        capture: Values::of(bytes),
        report: Values::of(report.into_vec()),
    })
}

// What each connection contributes to one scenario, in order of number.
#[derive(Drop)]
struct DeliveryRow {
    segments: Vec<SegList>,
    lines: Vec<ReportText>,
}

fn take_row(
    alloc: Global,
    deliveries: &mut IntoIter<Delivery>,
    count: usize,
) -> Result<DeliveryRow, AllocError>
    requires { count ≤ into_iter_len deliveries.old }
    ensures segments { IfOk result (λ row. row.segments.items ≡ segments_in (take count (into_iter_items deliveries.old))) }
    ensures lines { IfOk result (λ row. row.lines.items ≡ lines_in (take count (into_iter_items deliveries.old))) }
    ensures left { OnOk result (into_iter_items deliveries.new ≡ drop count (into_iter_items deliveries.old)) }
    ensures fewer { OnOk result (into_iter_len deliveries.new + count ≡ into_iter_len deliveries.old) }
{
    let mut segments = Vec::with_capacity(alloc, count)?;
    let mut lines = Vec::with_capacity(alloc, count)?;
    for taken in 0..count {
        let Some(delivery) = deliveries.next() else {
            unreachable!();
        };
        segments.push(delivery.segments)?;
        lines.push(delivery.line)?;
    }
    Ok(DeliveryRow { segments, lines })
}

/// Rehearses as [`rehearse`] does, by a crew, inputs that were read.
///
/// # Errors
/// Those of [`rehearse`].
pub(crate) fn rehearse_by<C: Crew>(
    crew: &C,
    alloc: Global,
    inputs: &Inputs<'_>,
) -> Result<Outputs, RunFault>
    requires { C.shares crew.now }
    ensures { Agrees run_refusal (λ outputs. outputs) result (answer_of inputs.now) }
{
    let scenarios = inputs.scenarios.as_slice();
    let capture = read_rehearsed(alloc, inputs.capture.bytes(), scenarios)?;
    let outputs = outputs_by(crew, alloc, capture, scenarios, inputs.seed)?;
    Ok(outputs)
}

// The crew makes the table of the capture and what is recorded of each connection, and the capture's records are dropped. Then one scenario
// after another is made, written and dropped.
fn outputs_by<C: Crew>(
    crew: &C,
    alloc: Global,
    capture: Capture<'_>,
    scenarios: &[Scenario],
    seed: u64,
) -> Result<Outputs, AllocError>
    requires crew { C.shares crew.now }
    requires few { length scenarios.now ≤ scenario_limit }
    ensures { IfOk result (λ outputs. outputs ≡ outputs_of_capture capture.entry scenarios.now seed) }
{
    let table = crew.table(alloc, &capture)?;
    let heads = report_heads(alloc, &capture, &table, scenarios.len())?;
    let recordings = crew.record(alloc, &capture, &table)?;
    let sources = Sources::of(alloc, capture, &heads, &recordings, scenarios, seed);
    sources.outputs(crew)
}

/// What a rehearsal is given beside its capture and its scenarios.
#[derive(Debug, Drop)]
pub struct Options {
    /// The hosts that upstreams may name.
    pub hosts: Hosts,
    /// What random words are drawn from.
    pub seed: u64,
    /// How the work is spread. No answer depends on it.
    pub plan: Plan,
}

/// Reads a capture to its end and rehearses it under scenarios that are still texts, each a JSON array of proxies in Toxiproxy's form. If
/// the first byte that is read is a hexadecimal digit, the bytes are a dump of the capture.
///
/// # Errors
/// In this order: [`RunFault::ReadFailed`] or [`RunFault::CaptureTooLong`], [`RunFault::BadDump`], [`RunFault::BadScenario`] for the first
/// scenario that is refused, [`RunFault::TooManyScenarios`], the faults of the capture itself; [`RunFault::Memory`] when an allocation fails.
pub fn answers<H: Threads + Wait + Sync, R: Read>(
    rt: &H,
    alloc: Global,
    reader: &mut Counted<R>,
    texts: &[&[u8]],
    options: &Options,
) -> Result<Outputs, RunFault>
    requires { reader.old.failed < 2 ^ 64 - 1 }
    ensures { Step (LoadedBy R.remaining reader.old reader.new) result (Unit {0})
        (λ text. UnlessMemory (answer_of_texts options.now.hosts (map (λ t. t.now) texts.now) options.now.seed text) result) }
{
    let text = load(alloc, reader)?;
    let crew = Workers {
        rt,
        plan: options.plan,
    };
    let inputs = read_inputs(alloc, Text::of(text), texts, &options.hosts, options.seed)?;
    rehearse_by(&crew, alloc, &inputs)
}

/// Rehearses as [`rehearse`](crate::rehearse) does, and with its errors.
pub fn rehearse_alone(alloc: Global, inputs: &Inputs<'_>) -> Result<Outputs, RunFault>
    ensures { Agrees run_refusal (λ outputs. outputs) result (answer_of inputs.now) }
{
    rehearse_by(&Alone, alloc, inputs)
}

/// The reports of the outputs that [`rehearse_alone`] gives, one after another, with its errors. No segment is written.
pub fn reports_alone(alloc: Global, inputs: &Inputs<'_>) -> Result<ReportText, RunFault>
    ensures { Agrees run_refusal (λ text. text) result (reports_in (answer_of inputs.now)) }
{
    let (reports, _) = rehearse_reports(&Alone, alloc, inputs)?;
    let text = reports.text(alloc)?;
    Ok(text)
}

/// How many connections meet each proxy and draw each toxic, and on how many it has an effect ([`effect_counts`]), with the errors of
/// [`rehearse_alone`].
pub fn effects_alone(alloc: Global, inputs: &Inputs<'_>) -> Result<Values<u64>, RunFault>
    ensures { Agrees run_refusal (λ counts. counts) result (made_of effects_in inputs.now) }
{
    let scenarios = inputs.scenarios.as_slice();
    let capture = read_rehearsed(alloc, inputs.capture.bytes(), scenarios)?;
    let counts = effect_counts(alloc, &capture, scenarios, inputs.seed)?;
    Ok(counts)
}

/// What each side of each connection is delivered in each scenario, with the errors of [`rehearse_alone`]. The pieces are slices of the capture.
pub fn lines_alone<'a>(alloc: Global, inputs: &'a Inputs<'_>) -> Result<LaidLines<'a>, RunFault>
    ensures { Agrees run_refusal flat_view result (made_of flat_lines inputs.now) }
{
    let scenarios = inputs.scenarios.as_slice();
    let capture = read_rehearsed(alloc, inputs.capture.bytes(), scenarios)?;
    let lines = delivered_lines(alloc, &capture, scenarios, inputs.seed)?;
    Ok(lines)
}
