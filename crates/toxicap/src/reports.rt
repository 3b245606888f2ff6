//! The reports of a rehearsal alone, held in memory, and its summary: no segment is written, and no capture made.
ghost use Rattle.std.specs.Prelude.{◌≡◌, ◌≤◌, IfOk, List, Ok, length, map, ℕ, ◌++◌, ◌<◌, All, OnOk};
ghost use Rattle.toxicap.specs.{reports_in, outputs_of_capture, capture_limit, reading, heads_of, reports_of, IsSeenOf, answer_of, answer_of_texts};
ghost use Rattle.toxicap.specs.{summary_of_bytes, summary_of_texts, whole_table, run_summary, capture_refusal, contents_of, run_refusal, seen_capture, Agrees};
ghost use Rattle.toxicap.specs.{AgreesUnlessMemory, heads_in, answer, scenario_limit, text_of, joined, reports_held};

use crate::crews::Crew;
use crate::reading::{Inputs, SCENARIO_LIMIT, read_inputs, read_rehearsed, read_texts};
use conn_table::Table;
use conn_workers::laws::lines_are_contributed;
use conn_workers::{RunSummary, ShareTexts, conns_together, run_summary};
use pcap_records::{Capture, CaptureFault, KeptHeads, Values};
use report::{ReportText, report_head};
use report_laws::laws::report_sees_heads;
use run_files::{RunFault, SeenText, Text};
use scenarios::{Hosts, Scenario};
use std::alloc::{AllocError, Global};
use std::marker::Model;

/// The reports of a rehearsal, and its summary.
pub(crate) type MadeReports = (HeldReports, RunSummary);

/// The reports that a capture's text and the texts of scenarios call for, of what was seen of the capture's text.
pub(crate) fn seen_reports<C: Crew>(
    crew: &C,
    alloc: Global,
    seen: SeenText,
    texts: &[&[u8]],
    hosts: &Hosts,
    seed: u64,
) -> Result<MadeReports, RunFault>
    requires { C.shares crew.now }
    ensures reports { (text : List ℕ) → length text ≤ capture_limit → IsSeenOf seen text
        → AgreesUnlessMemory run_refusal (λ made. made.0) result (reports_in (answer_of_texts hosts.now (map (λ t. t.now) texts.now) seed text)) }
    ensures summary { (text : List ℕ) → length text ≤ capture_limit → IsSeenOf seen text
        → IfOk result (λ made. summary_of_texts hosts.now (map (λ t. t.now) texts.now) text ≡ Ok made.1) }
{
    match seen {
        SeenText::Dump(text) => text_reports(crew, alloc, text, texts, hosts, seed),
        SeenText::Heads(heads) => {
            let scenarios = read_texts(alloc, texts, hosts)?;
            head_reports(crew, alloc, heads, &scenarios, seed)
        }
    }
}

fn text_reports<C: Crew>(
    crew: &C,
    alloc: Global,
    text: Text<'_>,
    texts: &[&[u8]],
    hosts: &Hosts,
    seed: u64,
) -> Result<MadeReports, RunFault>
    requires { C.shares crew.now }
    ensures reports { AgreesUnlessMemory run_refusal (λ made. made.0) result (reports_in (answer_of_texts hosts.now (map (λ t. t.now) texts.now) seed text.entry)) }
    ensures summary { IfOk result (λ made. summary_of_texts hosts.now (map (λ t. t.now) texts.now) text.entry ≡ Ok made.1) }
{
    let inputs = read_inputs(alloc, text, texts, hosts, seed)?;
    rehearse_reports(crew, alloc, &inputs)
}

fn head_reports<C: Crew>(
    crew: &C,
    alloc: Global,
    heads: Result<KeptHeads, CaptureFault>,
    scenarios: &[Scenario],
    seed: u64,
) -> Result<MadeReports, RunFault>
    requires { C.shares crew.now }
    ensures reports { (bytes : List ℕ) → AgreesUnlessMemory capture_refusal (λ h. h) heads (heads_in (reading bytes))
        → AgreesUnlessMemory run_refusal (λ made. made.0) result (reports_in (answer bytes scenarios.now seed)) }
    ensures summary { (bytes : List ℕ) → AgreesUnlessMemory capture_refusal (λ h. h) heads (heads_in (reading bytes))
        → IfOk result (λ made. summary_of_bytes bytes scenarios.now ≡ Ok made.1) }
{
    report_sees_heads();
    if scenarios.len() > SCENARIO_LIMIT {
        return Err(RunFault::TooManyScenarios);
    }
    let heads = heads?;
    let (bytes, records) = heads.split();
    let capture = records.over(&bytes);
    let made = made_reports(crew, alloc, &capture, scenarios, seed)?;
    Ok(made)
}

/// The reports of the outputs that `rehearse` gives, and the summary, whoever does the work.
pub(crate) fn rehearse_reports<C: Crew>(
    crew: &C,
    alloc: Global,
    inputs: &Inputs<'_>,
) -> Result<MadeReports, RunFault>
    requires { C.shares crew.now }
    ensures reports { Agrees run_refusal (λ made. made.0) result (reports_in (answer_of inputs.now)) }
    ensures summary { IfOk result (λ made. summary_of_bytes inputs.now.capture inputs.now.scenarios ≡ Ok made.1) }
{
    let scenarios = inputs.scenarios.as_slice();
    let capture = read_rehearsed(alloc, inputs.capture.bytes(), scenarios)?;
    let made = made_reports(crew, alloc, &capture, scenarios, inputs.seed)?;
    Ok(made)
}

// The crew makes the table of the capture, and then the lines of its connections in all reports at once.
fn made_reports<C: Crew>(
    crew: &C,
    alloc: Global,
    capture: &Capture<'_>,
    scenarios: &[Scenario],
    seed: u64,
) -> Result<MadeReports, AllocError>
    requires crew { C.shares crew.now }
    requires few { length scenarios.now ≤ scenario_limit }
    ensures reports { IfOk result (λ made. made.0 ≡ reports_of (outputs_of_capture capture.now scenarios.now seed)) }
    ensures summary { IfOk result (λ made. made.1 ≡ run_summary (seen_capture (contents_of capture.now)) scenarios.now) }
{
    lines_are_contributed();
    let table = crew.table(alloc, capture)?;
    let heads = report_heads(alloc, capture, &table, scenarios.len())?;
    let shares = crew.report_texts(alloc, capture, &table, scenarios, seed)?;
    let connections = conns_together(alloc, shares.as_slice())?;
    let summary = run_summary(alloc, capture, &table, connections, scenarios)?;
    Ok((HeldReports::of(heads, shares), summary))
}

/// The first two lines of each report.
pub(crate) fn report_heads(
    alloc: Global,
    capture: &Capture<'_>,
    table: &Table,
    count: usize,
) -> Result<Vec<ReportText>, AllocError>
    requires table { table.now ≡ whole_table capture.now }
    requires few { count ≤ scenario_limit }
    ensures { IfOk result (λ heads. heads.items ≡ heads_of capture.now count) }
{
    let mut heads = Vec::with_capacity(alloc, count)?;
    for number in 0..count {
        let head = report_head(alloc, number as u32, capture, table)?;
        heads.push(head)?;
    }
    Ok(heads)
}

/// The reports of all scenarios. Contracts see them one after another.
#[derive(Drop)]
pub(crate) struct HeldReports {
    // The first two lines of each.
    heads: Vec<ReportText>,
    // The lines of the connections: each share has a text for each scenario.
    shares: Values<ShareTexts>,
}

impl Model for HeldReports {
    ghost use Rattle.std.specs.Prelude.{◌≡◌, ℕ, All, List, length};
    ghost use Rattle.toxicap.specs.OutputParts.{reports_held};

    ghost Value = { List ℕ };

    ghost view = { λ r. reports_held r.heads.items r.shares };

    ghost invariant = { λ r. All (λ share. length share.texts ≡ length r.heads.items) r.shares };
}

impl HeldReports {
    ghost use Rattle.std.specs.Prelude.{◌≡◌, All, IfOk, length};
    ghost use Rattle.toxicap.specs.Words.{joined};
    ghost use Rattle.toxicap.specs.OutputParts.{reports_held};

    pub(crate) fn of(heads: Vec<ReportText>, shares: Values<ShareTexts>) -> HeldReports
        requires { All (λ share. length share.texts ≡ length heads.items) shares }
        ensures { result ≡ reports_held heads.items shares }
    {
        HeldReports { heads, shares }
    }

    pub(crate) fn texts<'t>(&'t self, alloc: Global) -> Result<Vec<&'t [u8]>, AllocError>
        ensures { IfOk result (λ texts. joined texts.items ≡ self.now) }
    {
        texts_in_turn(alloc, &self.heads, self.shares.as_slice())
    }

    pub(crate) fn text(&self, alloc: Global) -> Result<ReportText, AllocError>
        ensures { IfOk result (λ text. text ≡ self.now) }
    {
        let texts = self.texts(alloc)?;
        let text = put_together(alloc, &texts)?;
        Ok(ReportText::of(text))
    }
}

// The first two lines of each report, and after them the scenario's text of each share.
fn texts_in_turn<'t>(
    alloc: Global,
    heads: &'t [ReportText],
    shares: &'t [ShareTexts],
) -> Result<Vec<&'t [u8]>, AllocError>
    requires { All (λ share. length share.texts ≡ length heads.now) shares.now }
    ensures { IfOk result (λ texts. joined texts.items ≡ reports_held heads.now shares.now) }
{
    let room = heads.len().saturating_mul(shares.len().saturating_add(1));
    let mut texts = Vec::with_capacity(alloc, room)?;
    for number in 0..heads.len() {
        texts.push(heads[number].as_slice())?;
        put_texts(&mut texts, shares, number)?;
    }
    Ok(texts)
}

fn put_texts<'t>(
    texts: &mut Vec<&'t [u8]>,
    shares: &'t [ShareTexts],
    number: usize,
) -> Result<(), AllocError>
    requires { All (λ share. number < length share.texts) shares.now }
    ensures { OnOk result (joined texts.new.items ≡ joined texts.old.items ++ text_of number shares.now) }
{
    for share in shares {
        texts.push(share.texts.as_slice()[number].as_slice())?;
    }
    Ok(())
}

fn put_together(alloc: Global, texts: &[&[u8]]) -> Result<Vec<u8>, AllocError>
    ensures { IfOk result (λ whole. whole.items ≡ joined texts.now) }
{
    let mut whole = Vec::with_capacity(alloc, texts_len(texts))?;
    for text in texts {
        whole.extend_from_slice(text)?;
    }
    Ok(whole)
}

// The number of bytes of texts together, or the greatest number if they are more.
fn texts_len(texts: &[&[u8]]) -> usize {
    let mut len = 0usize;
    for text in texts {
        len = len.saturating_add(text.len());
    }
    len
}
