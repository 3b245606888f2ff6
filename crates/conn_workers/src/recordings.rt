//! What is recorded of each connection of a capture.
ghost use Rattle.std.specs.Prelude.{◌≡◌, IfOk};
ghost use Rattle.conn_workers.specs.Recordings.{whole_table, recordings_of};

use crate::deliveries::Delivery;
use crate::jobs::LineJobs;
use conn_table::{Conn, Table};
use job_matrix::{Gate, Phase, Plan, Through, work_all, work_alone};
use lists::Values;
use pcap_records::Capture;
use reassembly::Recorded;
use report::line;
use segment_writer::{Endpoints, segments};
use std::alloc::{AllocError, Global};
use std::marker::Model;
use std::thread::Threads;
use toxic_defs::{Delivered, MetProxy, delivered_by};

/// A connection of a table, with what its two sides sent, and its endpoints as its segments name them in each scenario.
#[derive(Drop)]
pub struct Recording<'w, 'a> {
    pub(crate) conn: &'w Conn,
    pub(crate) recorded: Recorded<'a>,
    pub(crate) endpoints: Endpoints,
}

impl<'w, 'a> Model for Recording<'w, 'a> {
    ghost use Rattle.reassembly.specs.RecordedView.{recorded_view};
    ghost use Rattle.conn_workers.specs.Recordings.{RecordingView, IsRecording};

    ghost Value = { RecordingView };

    ghost view = { λ r. record {
      ticks = r.recorded.up.ticks;
      conn = r.conn.now;
      recorded = recorded_view r.recorded;
    } };

    ghost invariant = { λ r. IsRecording r.conn.now r.recorded r.endpoints };
}

impl<'w, 'a> Recording<'w, 'a> {
    ghost use Rattle.std.specs.Prelude.{◌≡◌, ◌≤◌, IfOk, IfSome, length, option_map};
    ghost use Rattle.reassembly.specs.LineLaws.{IsLine};
    ghost use Rattle.reassembly.specs.RecordedView.{recorded_view};
    ghost use Rattle.toxic_defs.specs.DeliveredLines.{delivered_view, met_view};
    ghost use Rattle.toxic_defs.specs.Limits.{most_toxics};
    ghost use Rattle.conn_workers.specs.Recordings.{delivered_by, recorded_delivery_by};

    /// The connection.
    pub fn conn(&self) -> &'w Conn
        ensures { result.now ≡ self.now.conn }
    {
        self.conn
    }

    /// What its two sides sent.
    pub fn recorded(&self) -> &Recorded<'a>
        ensures recorded { recorded_view result.now ≡ self.now.recorded }
        ensures ticks { result.now.up.ticks ≡ self.now.ticks }
    {
        &self.recorded
    }

    /// What is delivered of the connection in the scenario of a number, if it meets this proxy or none.
    pub fn delivered(
        &self,
        alloc: Global,
        met: Option<MetProxy<'_>>,
        seed: u64,
        scenario: u32,
    ) -> Result<Delivered<'a>, AllocError>
        requires few_up { IfSome met (λ m. length m.up.now ≤ most_toxics) }
        requires few_down { IfSome met (λ m. length m.down.now ≤ most_toxics) }
        ensures value { IfOk result (λ d. delivered_view d
            ≡ delivered_by seed scenario (option_map met_view met.entry) self.now) }
        ensures up { IfOk result (λ d. IsLine d.up.line) }
        ensures down { IfOk result (λ d. IsLine d.down.line) }
    {
        let number = self.conn.number;
        delivered_by(alloc, &self.recorded, met, seed, scenario, number)
    }

    /// What the connection contributes to the scenario of a number, if it meets this proxy or none.
    pub fn delivery(
        &self,
        alloc: Global,
        met: Option<MetProxy<'_>>,
        seed: u64,
        scenario: u32,
    ) -> Result<Delivery, AllocError>
        requires few_up { IfSome met (λ m. length m.up.now ≤ most_toxics) }
        requires few_down { IfSome met (λ m. length m.down.now ≤ most_toxics) }
        ensures { IfOk result (λ d. d ≡ recorded_delivery_by scenario self.now
            (delivered_by seed scenario (option_map met_view met.entry) self.now)) }
    {
        let delivered = self.delivered(alloc, met, seed, scenario)?;
        let line = line(alloc, self.conn, &self.recorded, &delivered)?;
        let segments = segments(alloc, self.conn, &self.recorded, delivered)?;
        Ok(Delivery {
            scenario,
            conn: self.conn.number,
            segments,
            line,
        })
    }
}

/// What is recorded of connections, in order of their numbers.
pub type Recordings<'w, 'a> = Values<Recording<'w, 'a>>;

/// What is recorded of each connection of a capture. Workers make it in phase `Lines`, with one job for each connection. The answer
/// borrows the table and the file's bytes, but not the capture's records.
pub fn record<'w, 'a, R: Threads + Sync, G: Gate>(
    rt: &R,
    alloc: Global,
    capture: &Capture<'a>,
    table: &'w Table,
    plan: Plan,
    gate: &G,
) -> Result<Recordings<'w, 'a>, AllocError>
    requires table { table.now ≡ whole_table capture.now }
    ensures { IfOk result (λ v. v ≡ recordings_of capture.now) }
{
    let jobs = LineJobs::of(alloc, capture, table);
    let count = jobs.conns.len() as u64;
    let workers = plan.workers() as u64;
    work_all(rt, alloc, count, workers, Phase::Lines, gate, &jobs)
}

/// The same as [`record`], made by this thread.
pub fn record_alone<'w, 'a>(
    alloc: Global,
    capture: &Capture<'a>,
    table: &'w Table,
) -> Result<Recordings<'w, 'a>, AllocError>
    requires table { table.now ≡ whole_table capture.now }
    ensures { IfOk result (λ v. v ≡ recordings_of capture.now) }
{
    let jobs = LineJobs::of(alloc, capture, table);
    let count = jobs.conns.len() as u64;
    work_alone(alloc, count, Phase::Lines, &Through, &jobs)
}
