//! What the outputs of all scenarios are made of, and what is made of it by any crew: an output in memory or as drafts.
ghost use Rattle.std.specs.Prelude.{◌≡◌, ◌≤◌, length};
ghost use Rattle.toxicap.specs.OutputParts.{RowsHaveNoKeyTwice};
ghost use Rattle.toxicap.specs.Rehearsal.{scenario_limit};

mod row_files;

use crate::crews::Crew;
use conn_workers::laws::{lines_are_contributed, rows_are_contributed};
use conn_workers::{Recordings, RowShares};
use disks::Disk;
use pcap_records::{Capture, Unit, Values};
use report::ReportText;
use row_files::{reported_draft, segment_rows, whole_report, written_draft};
use run_files::{DraftedOutput, Folder, Output, Outputs};
use scenarios::Scenario;
use segment_writer::laws::{keys_stand_once, once_in_any_order, one_order};
use std::alloc::{AllocError, Global};
use time_merge::merged_capture;

/// What outputs are made of. The capture's records are not among them: they are dropped before the first output is made.
#[derive(Drop)]
pub(crate) struct Sources<'w, 'v, 'a> {
    pub(crate) alloc: Global,
    pub(crate) unit: Unit,
    // The first two lines of each report.
    pub(crate) heads: &'w [ReportText],
    pub(crate) recordings: &'w Recordings<'v, 'a>,
    pub(crate) scenarios: &'w [Scenario],
    pub(crate) seed: u64,
    ghost few: { length scenarios.now ≤ scenario_limit },
    ghost each: { length heads.now ≡ length scenarios.now },
    ghost once: { RowsHaveNoKeyTwice seed recordings.now },
}

impl<'w, 'v, 'a> Sources<'w, 'v, 'a> {
    ghost use Rattle.std.specs.Prelude.{◌≡◌, ◌≤◌, length};
    ghost use Rattle.toxicap.specs.{recordings_of, outputs_of_capture, outputs_of_sources, heads_of, scenario_limit};

    pub(crate) fn of(
        alloc: Global,
        capture: Capture<'_>,
        heads: &'w [ReportText],
        recordings: &'w Recordings<'v, 'a>,
        scenarios: &'w [Scenario],
        seed: u64,
    ) -> Self
        requires heads { heads.now ≡ heads_of capture (length scenarios.now) }
        requires recordings { recordings.now ≡ recordings_of capture }
        requires few { length scenarios.now ≤ scenario_limit }
        ensures { outputs_of_sources result ≡ outputs_of_capture capture.entry scenarios.now seed }
    {
        rows_are_contributed();
        lines_are_contributed();
        keys_stand_once();
        Sources {
            alloc,
            unit: capture.unit(),
            heads,
            recordings,
            scenarios,
            seed,
        }
    }
}

impl<'w, 'v, 'a> Sources<'w, 'v, 'a> {
    ghost use Rattle.std.specs.Prelude.{◌≡◌, ◌^◌, ◌<◌, ◌≤◌, ◌++◌, [], All, IfOk, get_or, length};
    ghost use Rattle.toxicap.specs.{IsDraftOf, ticks_of, HasNoKeyTwice, sorted_by_key, capture_of, flat_map, no_output, outputs_of_sources, AreAtPlace};

    pub(crate) fn outputs<C: Crew>(&self, crew: &C) -> Result<Outputs, AllocError>
        requires { C.shares crew.now }
        ensures { IfOk result (λ outputs. outputs ≡ outputs_of_sources self.now) }
    {
        let mut outputs = Vec::with_capacity(self.alloc, self.scenarios.len())?;
        for number in 0..self.scenarios.len() {
            let output = self.output(crew, number)?;
            outputs.push(output)?;
        }
        Ok(Values::of(outputs))
    }

    fn output<C: Crew>(&self, crew: &C, number: usize) -> Result<Output, AllocError>
        requires crew { C.shares crew.now }
        requires within { number < length self.now.scenarios.now }
        ensures { IfOk result (λ o. o ≡ get_or (outputs_of_sources self.now) number no_output) }
    {
        let row = self.row(crew, number)?;
        let report = whole_report(self.alloc, &self.heads[number], row.as_slice())?;
        let rows = segment_rows(self.alloc, row)?;
        let bytes = merged_capture(self.alloc, &rows, self.unit)?;
        Ok(Output {
            capture: Values::of(bytes),
            report,
        })
    }

    /// The same as drafts of a folder: the capture in the place that is twice this one, and the report in the next. The report is written
    /// first, so that no lines are held while the capture is.
    pub(crate) fn drafted<C: Crew, D: Disk>(
        &self,
        crew: &C,
        number: usize,
        folder: &Folder<'_>,
        disk: &D,
        place: usize,
    ) -> Result<DraftedOutput<D::Draft>, AllocError>
        requires crew { C.shares crew.now }
        requires within { number < length self.now.scenarios.now }
        requires place { place ≤ 2 ^ 32 }
        ensures drafts { IfOk result (IsDraftOf D.holds (get_or (outputs_of_sources self.now) number no_output)) }
        ensures places { IfOk result (AreAtPlace D.path_of folder.now.path place) }
    {
        let row = self.row(crew, number)?;
        let draft = folder.draft(self.alloc, disk, 2 * place + 1)?;
        let report = reported_draft::<D>(draft, &self.heads[number], row.as_slice());
        let rows = segment_rows(self.alloc, row)?;
        let draft = folder.draft(self.alloc, disk, 2 * place)?;
        let capture = written_draft::<D>(self.alloc, &rows, self.unit, draft)?;
        Ok((capture, report))
    }

    fn row<C: Crew>(&self, crew: &C, number: usize) -> Result<RowShares<'w, 'a>, AllocError>
        requires crew { C.shares crew.now }
        requires within { number < length self.now.scenarios.now }
        ensures sorted { IfOk result (λ row. All (λ s. sorted_by_key s.segments ≡ s.segments) row) }
        ensures once { IfOk result (λ row. HasNoKeyTwice (flat_map (λ s. s.segments) row)) }
        ensures capture { IfOk result (λ row. capture_of (ticks_of self.now.unit) (flat_map (λ s. s.segments) row)
            ≡ (get_or (outputs_of_sources self.now) number no_output).capture) }
        ensures report { IfOk result (λ row. get_or self.now.heads.now number [] ++ flat_map (λ s. s.lines) row
            ≡ (get_or (outputs_of_sources self.now) number no_output).report) }
    {
        one_order();
        once_in_any_order();
        let scenario = &self.scenarios[number];
        crew.deliver_row(
            self.alloc,
            self.recordings,
            number as u32,
            scenario,
            self.seed,
        )
    }
}
