//! The jobs of workers.
ghost use Rattle.std.specs.Prelude.{◌≡◌, ◌≤◌, ◌*◌, length};
ghost use Rattle.conn_workers.specs.Recordings.{whole_table, scenario_limit, recorded_deliveries, recordings_of};
ghost use Rattle.conn_workers.specs.RowShares.{HoldLines, text_shares, HoldRow, row_shares};

use crate::deliveries::Delivery;
use crate::recordings::{Recording, Recordings};
use crate::row_ranges::RowRanges;
use crate::row_shares::RowShare;
use crate::scenario_texts::{ShareTexts, share_of};
use crate::under_scenario::UnderScenario;
use conn_table::{Conn, Table};
use job_matrix::{Plan, Work};
use pcap_records::Capture;
use reassembly::laws::{connections_are_of_capture, conns_are_of_capture};
use reassembly::lines;
use scenarios::Scenario;
use segment_writer::Endpoints;
use std::alloc::{AllocError, Global};

/// Job c makes the recorded lines of connection c of the capture's table.
#[derive(Drop)]
pub(crate) struct LineJobs<'c, 'w, 'a> {
    pub(crate) alloc: Global,
    pub(crate) capture: &'c Capture<'a>,
    pub(crate) conns: &'w [Conn],
    ghost shown: { conns.now ≡ (whole_table capture.now).conns },
    ghost each: { length conns.now ≡ length (recordings_of capture.now) },
}

impl<'c, 'w, 'a> LineJobs<'c, 'w, 'a> {
    ghost use Rattle.std.specs.Prelude.{◌≡◌, ◌≤◌, IfOk, drop, length, take};
    ghost use Rattle.conn_workers.specs.Recordings.{recordings_of};

    pub(crate) fn of(alloc: Global, capture: &'c Capture<'a>, table: &'w Table) -> Self
        requires { table.now ≡ whole_table capture.now }
        ensures { result.capture.now ≡ capture.now }
    {
        LineJobs {
            alloc,
            capture,
            conns: table.conns(),
        }
    }

    /// What is recorded of at most `most` connections, from number `from` on.
    pub(crate) fn recorded(
        &self,
        from: usize,
        most: usize,
    ) -> Result<Vec<Recording<'w, 'a>>, AllocError>
        requires { from ≤ length self.now.conns.now }
        ensures { IfOk result (λ v. v.items ≡ take most (drop from (recordings_of self.now.capture.now))) }
    {
        let count = most.min(self.conns.len() - from);
        let mut recordings = Vec::with_capacity(self.alloc, count)?;
        for place in 0..count {
            let recording = self.value((from + place) as u64)?;
            recordings.push(recording)?;
        }
        Ok(recordings)
    }
}

impl<'c, 'w, 'a> Work for LineJobs<'c, 'w, 'a> {
    type Out = Recording<'w, 'a>;

    ghost use Rattle.std.specs.Prelude.{◌≡◌, ◌<◌, length, get_or, IfOk};
    ghost use Rattle.conn_workers.specs.Recordings.{recordings_of};

    ghost values = { λ w. recordings_of w.capture.now };

    fn value(&self, job: u64) -> Result<Recording<'w, 'a>, AllocError> {
        connections_are_of_capture();
        conns_are_of_capture();
        let conn = &self.conns[job as usize];
        let recorded = lines(self.alloc, conn, self.capture)?;
        let endpoints = Endpoints::of(conn, &recorded);
        Ok(Recording {
            conn,
            recorded,
            endpoints,
        })
    }
}

/// Of C connections, job s * C + c makes what connection c contributes to scenario s.
#[derive(Drop)]
pub(crate) struct ContributionJobs<'w, 'v, 'a> {
    pub(crate) alloc: Global,
    pub(crate) recordings: &'w [Recording<'v, 'a>],
    pub(crate) scenarios: &'w [Scenario],
    pub(crate) seed: u64,
    ghost few: { length scenarios.now ≤ scenario_limit },
    ghost each: { length (recorded_deliveries seed recordings.now scenarios.now) ≡ length scenarios.now * length recordings.now },
}

impl<'w, 'v, 'a> Work for ContributionJobs<'w, 'v, 'a> {
    type Out = Delivery;

    ghost use Rattle.std.specs.Prelude.{◌≡◌, ◌<◌, length, get_or, IfOk};
    ghost use Rattle.conn_workers.specs.Recordings.{recorded_deliveries};

    ghost values = { λ w. recorded_deliveries w.seed w.recordings.now w.scenarios.now };

    #[tactic(auto, using(crate::proofs::RowLemmas::job_is))]
    fn value(&self, job: u64) -> Result<Delivery, AllocError> {
        let count = self.recordings.len() as u64;
        let number = job / count;
        let recording = &self.recordings[(job % count) as usize];
        let scenario = &self.scenarios[number as usize];
        UnderScenario::of(self.alloc, number as u32, scenario, self.seed).delivery(recording)
    }
}

/// Job r makes what the connections of range r contribute to the scenario.
#[derive(Drop)]
pub(crate) struct ShareJobs<'s, 'w, 'v, 'a> {
    under: UnderScenario<'s>,
    recordings: &'w [Recording<'v, 'a>],
    pub(crate) ranges: RowRanges,
    ghost all: { ranges.all ≡ length recordings.now },
    ghost each: { ranges.count ≡ length (row_shares ranges.size ranges.count under.seed (under.number, under.scenario.now) recordings.now) },
}

impl<'s, 'w, 'v, 'a> ShareJobs<'s, 'w, 'v, 'a> {
    pub(crate) fn of(
        alloc: Global,
        recordings: &'w Recordings<'v, 'a>,
        number: u32,
        scenario: &'s Scenario,
        seed: u64,
        plan: Plan,
    ) -> Self
        ensures { HoldRow seed (number, scenario.now) recordings.now
            (row_shares result.ranges.size result.ranges.count result.under.seed (result.under.number, result.under.scenario.now) result.recordings.now) }
    {
        let recordings = recordings.as_slice();
        let ranges = RowRanges::of(recordings.len(), usize::MAX, plan);
        let under = UnderScenario::of(alloc, number, scenario, seed);
        ShareJobs {
            under,
            recordings,
            ranges,
        }
    }
}

impl<'s, 'w, 'v, 'a> Work for ShareJobs<'s, 'w, 'v, 'a> {
    type Out = RowShare<'w, 'a>;

    ghost use Rattle.std.specs.Prelude.{◌≡◌, ◌<◌, length, get_or, IfOk};
    ghost use Rattle.conn_workers.specs.RowShares.{row_shares};

    ghost values = { λ w. row_shares w.ranges.size w.ranges.count w.under.seed (w.under.number, w.under.scenario.now) w.recordings.now };

    fn value(&self, job: u64) -> Result<RowShare<'w, 'a>, AllocError> {
        self.under.share(self.ranges.range(self.recordings, job))
    }
}

// The most lines in all reports together that a range of more than 256 connections has. Ranges are shorter if there are many reports.
const LINES_LIMIT: usize = 4096;

// The number of connections that a range may always have.
const RANGE_LEAST: usize = 256;

/// Job r makes the lines of the connections of range r in the report of each scenario.
#[derive(Drop)]
pub(crate) struct TextJobs<'c, 'w, 'a> {
    lines: LineJobs<'c, 'w, 'a>,
    scenarios: &'w [Scenario],
    seed: u64,
    pub(crate) ranges: RowRanges,
    ghost all: { ranges.all ≡ length lines.conns.now },
    ghost few: { length scenarios.now ≤ scenario_limit },
    ghost each: { ranges.count ≡ length (text_shares ranges.size ranges.count seed scenarios.now (recordings_of lines.capture.now)) },
}

impl<'c, 'w, 'a> TextJobs<'c, 'w, 'a> {
    pub(crate) fn of(
        alloc: Global,
        capture: &'c Capture<'a>,
        table: &'w Table,
        scenarios: &'w [Scenario],
        seed: u64,
        plan: Plan,
    ) -> Self
        requires table { table.now ≡ whole_table capture.now }
        requires few { length scenarios.now ≤ scenario_limit }
        ensures { HoldLines seed scenarios.now (recordings_of capture.now)
            (text_shares result.ranges.size result.ranges.count result.seed result.scenarios.now (recordings_of result.lines.capture.now)) }
    {
        let lines = LineJobs::of(alloc, capture, table);
        let most = (LINES_LIMIT / scenarios.len().max(1)).max(RANGE_LEAST);
        let ranges = RowRanges::of(lines.conns.len(), most, plan);
        TextJobs {
            lines,
            scenarios,
            seed,
            ranges,
        }
    }
}

impl<'c, 'w, 'a> Work for TextJobs<'c, 'w, 'a> {
    type Out = ShareTexts;

    ghost use Rattle.std.specs.Prelude.{◌≡◌, ◌<◌, length, get_or, IfOk};
    ghost use Rattle.conn_workers.specs.Recordings.{recordings_of};
    ghost use Rattle.conn_workers.specs.RowShares.{text_shares};

    ghost values = { λ w. text_shares w.ranges.size w.ranges.count w.seed w.scenarios.now (recordings_of w.lines.capture.now) };

    fn value(&self, job: u64) -> Result<ShareTexts, AllocError> {
        let first = self.ranges.first(job);
        let recordings = self.lines.recorded(first, self.ranges.size)?;
        share_of(self.lines.alloc, &recordings, self.scenarios, self.seed)
    }
}
