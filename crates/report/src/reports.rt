//! A report: its first two lines, and then the lines of the connections.
ghost use Rattle.std.specs.Prelude.{◌≡◌, ◌++◌, length, IfOk, OnOk};
ghost use Rattle.pcap_records.specs.CaptureView.{contents_of};
ghost use Rattle.conn_table.specs.SeenCapture.{seen_capture};
ghost use Rattle.conn_table.specs.ClassCounts.{counts_of};
ghost use Rattle.report.specs.ReportText.{heading_text, first_classes_text, other_classes_text, counts_text_of, counts_text, connections_text, report_text};

use crate::lines::LINE_ROOM;
use crate::texts::{ReportText, push, push_told};
use conn_table::{Counts, Table};
use pcap_records::Capture;
use std::alloc::{AllocError, Global};

/// The room that is allocated for the first two lines, in bytes. They are seldom longer.
const HEAD_ROOM: usize = 256;

/// The report of a scenario: a line of counts of the capture, one of connections and unopened segments, and those of the connections.
#[tactic(auto, unfolding(crate::specs::ReportText::report_text))]
pub fn report(
    alloc: Global,
    scenario: u32,
    capture: &Capture<'_>,
    table: &Table,
    lines: &[ReportText],
) -> Result<ReportText, AllocError>
    requires counts { table.now.counts ≡ counts_of (seen_capture (contents_of capture.now)).packets }
    requires each { length lines.now ≡ length table.now.conns }
    ensures { IfOk result (λ text. text
        ≡ report_text scenario (seen_capture (contents_of capture.now)) table.now.unopened lines.now) }
{
    let connections = lines.len();
    let room = connections
        .saturating_mul(LINE_ROOM)
        .saturating_add(HEAD_ROOM);
    let mut text = Vec::with_capacity(alloc, room)?;
    let counts = table.counts();
    put_head(
        &mut text,
        scenario,
        capture,
        counts,
        connections,
        table.unopened(),
    )?;
    for line in lines {
        text.extend_from_slice(line.as_slice())?;
    }
    Ok(ReportText::of(text))
}

/// The first two lines of a scenario's report, before those of the connections.
pub fn report_head(
    alloc: Global,
    scenario: u32,
    capture: &Capture<'_>,
    table: &Table,
) -> Result<ReportText, AllocError>
    requires counts { table.now.counts ≡ counts_of (seen_capture (contents_of capture.now)).packets }
    ensures { IfOk result (λ text. text ≡ counts_text scenario (seen_capture (contents_of capture.now))
        ++ connections_text (length table.now.conns) table.now.unopened) }
{
    let mut text = Vec::with_capacity(alloc, HEAD_ROOM)?;
    let counts = table.counts();
    let connections = table.conns().len();
    let unopened = table.unopened();
    put_head(&mut text, scenario, capture, counts, connections, unopened)?;
    Ok(ReportText::of(text))
}

fn put_head(
    text: &mut Vec<u8>,
    scenario: u32,
    capture: &Capture<'_>,
    counts: Counts,
    connections: usize,
    unopened: u64,
) -> Result<(), AllocError>
    requires { counts ≡ counts_of (seen_capture (contents_of capture.now)).packets }
    ensures { OnOk result (text.new.items ≡ text.old.items
        ++ (counts_text scenario (seen_capture (contents_of capture.now)) ++ connections_text connections unopened)) }
{
    put_counts(text, scenario, capture, counts)?;
    push_connections(text, connections, unopened)
}

#[tactic(auto, using(crate::proofs::SeenCounts::seen_count), unfolding(crate::specs::ReportText::counts_text))]
fn put_counts(
    text: &mut Vec<u8>,
    scenario: u32,
    capture: &Capture<'_>,
    counts: Counts,
) -> Result<(), AllocError>
    requires { counts ≡ counts_of (seen_capture (contents_of capture.now)).packets }
    ensures { OnOk result (text.new.items ≡ text.old.items ++ counts_text scenario (seen_capture (contents_of capture.now))) }
{
    let records = capture.records().len();
    push_counts(text, scenario, records, capture.rest(), counts)
}

fn push_counts(
    text: &mut Vec<u8>,
    scenario: u32,
    records: usize,
    rest: u32,
    counts: Counts,
) -> Result<(), AllocError>
    ensures { OnOk result (text.new.items ≡ text.old.items ++ counts_text_of scenario records rest counts) }
{
    push_heading(text, scenario, records, rest)?;
    push_first_classes(text, counts)?;
    push_other_classes(text, counts)
}

fn push_heading(
    text: &mut Vec<u8>,
    scenario: u32,
    records: usize,
    rest: u32,
) -> Result<(), AllocError>
    ensures { OnOk result (text.new.items ≡ text.old.items ++ heading_text scenario records rest) }
{
    push_told(text, "scenario ", u64::from(scenario))?;
    push_told(text, " records ", records as u64)?;
    push_told(text, " rest ", u64::from(rest))
}

fn push_first_classes(text: &mut Vec<u8>, counts: Counts) -> Result<(), AllocError>
    ensures { OnOk result (text.new.items ≡ text.old.items ++ first_classes_text counts) }
{
    push_told(text, " segment ", u64::from(counts.segment))?;
    push_told(text, " short ", u64::from(counts.short))?;
    push_told(text, " notipv4 ", u64::from(counts.not_ipv4))?;
    push_told(text, " badipv4 ", u64::from(counts.bad_ipv4))
}

fn push_other_classes(text: &mut Vec<u8>, counts: Counts) -> Result<(), AllocError>
    ensures { OnOk result (text.new.items ≡ text.old.items ++ other_classes_text counts) }
{
    push_told(text, " fragment ", u64::from(counts.fragment))?;
    push_told(text, " nottcp ", u64::from(counts.not_tcp))?;
    push_told(text, " cut ", u64::from(counts.cut))?;
    push_told(text, " badtcp ", u64::from(counts.bad_tcp))?;
    push_told(text, " sameends ", u64::from(counts.same_ends))?;
    push(text, "\n")
}

#[tactic(auto, unfolding(crate::specs::ReportText::connections_text))]
fn push_connections(text: &mut Vec<u8>, connections: usize, unopened: u64) -> Result<(), AllocError>
    ensures { OnOk result (text.new.items ≡ text.old.items ++ connections_text connections unopened) }
{
    push_told(text, "connections ", connections as u64)?;
    push_told(text, " unopened ", unopened)?;
    push(text, "\n")
}
