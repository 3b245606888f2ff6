//! Who does the work of a rehearsal: workers in threads, or one thread alone.
use conn_table::Table;
pub(crate) use conn_workers::Workers;
use conn_workers::{
    Recordings, RowShares, ShareTexts, deliver_row, deliver_row_alone, record, record_alone,
    report_texts, report_texts_alone,
};
use job_matrix::Through;
use pcap_records::{Capture, Values};
use range_workers::{table, table_alone};
use scenarios::Scenario;
use std::alloc::{AllocError, Global};
use std::thread::Threads;

/// Who makes the table of a capture, what is recorded of its connections, and what these contribute to a scenario. No answer depends on
/// who it is.
pub(crate) trait Crew {
    ghost use Rattle.std.specs.Prelude.{◌≡◌, ◌≤◌, IfOk, length};
    ghost use Rattle.toxicap.specs.Words.{whole_table, recordings_of, HoldLines, HoldRow};
    ghost use Rattle.toxicap.specs.Rehearsal.{scenario_limit};

    // What starts its threads may be shared among them.
    ghost shares: { Self → Type 0 };

    fn table(&self, alloc: Global, capture: &Capture<'_>) -> Result<Table, AllocError>
        requires { shares self.now }
        ensures { IfOk result (λ t. t ≡ whole_table capture.now) };

    fn record<'w, 'a>(
        &self,
        alloc: Global,
        capture: &Capture<'a>,
        table: &'w Table,
    ) -> Result<Recordings<'w, 'a>, AllocError>
        requires shares { shares self.now }
        requires table { table.now ≡ whole_table capture.now }
        ensures { IfOk result (λ v. v ≡ recordings_of capture.now) };

    /// The lines of the connections in the reports of all scenarios, in shares one after another.
    fn report_texts(
        &self,
        alloc: Global,
        capture: &Capture<'_>,
        table: &Table,
        scenarios: &[Scenario],
        seed: u64,
    ) -> Result<Values<ShareTexts>, AllocError>
        requires shares { shares self.now }
        requires table { table.now ≡ whole_table capture.now }
        requires few { length scenarios.now ≤ scenario_limit }
        ensures { IfOk result (HoldLines seed scenarios.now (recordings_of capture.now)) };

    /// What the connections contribute to a scenario with its number, in shares one after another.
    fn deliver_row<'w, 'a>(
        &self,
        alloc: Global,
        recordings: &'w Recordings<'_, 'a>,
        number: u32,
        scenario: &Scenario,
        seed: u64,
    ) -> Result<RowShares<'w, 'a>, AllocError>
        requires { shares self.now }
        ensures { IfOk result (HoldRow seed (number, scenario.now) recordings.now) };
}

/// The thread of the call only.
#[derive(Clone, Copy, Debug)]
pub(crate) struct Alone;

impl Crew for Alone {
    ghost shares = { λ crew. Unit {0} };

    fn table(&self, alloc: Global, capture: &Capture<'_>) -> Result<Table, AllocError> {
        table_alone(alloc, capture)
    }

    fn record<'w, 'a>(
        &self,
        alloc: Global,
        capture: &Capture<'a>,
        table: &'w Table,
    ) -> Result<Recordings<'w, 'a>, AllocError> {
        record_alone(alloc, capture, table)
    }

    fn report_texts(
        &self,
        alloc: Global,
        capture: &Capture<'_>,
        table: &Table,
        scenarios: &[Scenario],
        seed: u64,
    ) -> Result<Values<ShareTexts>, AllocError> {
        report_texts_alone(alloc, capture, table, scenarios, seed)
    }

    fn deliver_row<'w, 'a>(
        &self,
        alloc: Global,
        recordings: &'w Recordings<'_, 'a>,
        number: u32,
        scenario: &Scenario,
        seed: u64,
    ) -> Result<RowShares<'w, 'a>, AllocError> {
        deliver_row_alone(alloc, recordings, number, scenario, seed)
    }
}

impl<'r, R: Threads + Sync> Crew for Workers<'r, R> {
    ghost use Rattle.toxicap.specs.Words.{IsSync};

    ghost shares = { λ crew. IsSync R.row };

    fn table(&self, alloc: Global, capture: &Capture<'_>) -> Result<Table, AllocError> {
        table(self.rt, alloc, capture, self.plan, &Through)
    }

    fn record<'w, 'a>(
        &self,
        alloc: Global,
        capture: &Capture<'a>,
        table: &'w Table,
    ) -> Result<Recordings<'w, 'a>, AllocError> {
        record(self.rt, alloc, capture, table, self.plan, &Through)
    }

    fn report_texts(
        &self,
        alloc: Global,
        capture: &Capture<'_>,
        table: &Table,
        scenarios: &[Scenario],
        seed: u64,
    ) -> Result<Values<ShareTexts>, AllocError> {
        report_texts(self, alloc, capture, table, scenarios, seed, &Through)
    }

    fn deliver_row<'w, 'a>(
        &self,
        alloc: Global,
        recordings: &'w Recordings<'_, 'a>,
        number: u32,
        scenario: &Scenario,
        seed: u64,
    ) -> Result<RowShares<'w, 'a>, AllocError> {
        deliver_row(self, alloc, recordings, number, scenario, seed)
    }
}
