//! What recordings contribute together to a scenario with its number.
ghost use Rattle.std.specs.Prelude.{◌≡◌, ◌++◌, [], IfOk, OnOk};
ghost use Rattle.reassembly.specs.LineLaws.{IsLine};
ghost use Rattle.toxic_defs.specs.DeliveredLines.{delivered_view};
ghost use Rattle.conn_workers.specs.Recordings.{recorded_delivered, recorded_delivery};
ghost use Rattle.conn_workers.specs.RowShares.{row_share, row_text};

use crate::deliveries::Delivery;
use crate::met_proxies::met_proxy;
use crate::recordings::Recording;
use crate::row_shares::RowShare;
use report::{LINE_ROOM, ReportText, put_line};
use scenarios::Scenario;
use segment_writer::SegmentRow;
use std::alloc::{AllocError, Global};
use toxic_defs::Delivered;

/// A scenario with its number, and the seed of the random words.
#[derive(Drop)]
pub struct UnderScenario<'w> {
    alloc: Global,
    number: u32,
    scenario: &'w Scenario,
    seed: u64,
}

impl<'w> UnderScenario<'w> {
    /// The scenario with its number, and this seed.
    pub fn of(alloc: Global, number: u32, scenario: &'w Scenario, seed: u64) -> Self
        ensures number { result.number ≡ number }
        ensures scenario { result.scenario.now ≡ scenario.now }
        ensures seed { result.seed ≡ seed }
    {
        UnderScenario {
            alloc,
            number,
            scenario,
            seed,
        }
    }

    /// What is delivered of a connection.
    pub fn delivered<'a>(&self, recording: &Recording<'_, 'a>) -> Result<Delivered<'a>, AllocError>
        ensures value { IfOk result (λ d. delivered_view d
            ≡ recorded_delivered self.now.seed (self.now.number, self.now.scenario.now) recording.now) }
        ensures up { IfOk result (λ d. IsLine d.up.line) }
        ensures down { IfOk result (λ d. IsLine d.down.line) }
    {
        let met = met_proxy(self.scenario, recording.conn.server);
        recording.delivered(self.alloc, met, self.seed, self.number)
    }

    /// What a connection contributes.
    pub(crate) fn delivery(&self, recording: &Recording<'_, '_>) -> Result<Delivery, AllocError>
        ensures { IfOk result (λ d. d
            ≡ recorded_delivery self.now.seed (self.now.number, self.now.scenario.now) recording.now) }
    {
        let met = met_proxy(self.scenario, recording.conn.server);
        recording.delivery(self.alloc, met, self.seed, self.number)
    }

    // An empty text with room for `count` lines.
    fn room_for_lines(&self, count: usize) -> Result<Vec<u8>, AllocError>
        ensures { IfOk result (λ lines. lines.items ≡ []) }
    {
        Vec::with_capacity(self.alloc, count.saturating_mul(LINE_ROOM))
    }

    // Appends the line of a connection, and returns what is delivered of it.
    fn put_line_of<'a>(
        &self,
        lines: &mut Vec<u8>,
        recording: &Recording<'_, 'a>,
    ) -> Result<Delivered<'a>, AllocError>
        ensures line { OnOk result (lines.new.items ≡ lines.old.items
            ++ (recorded_delivery self.now.seed (self.now.number, self.now.scenario.now) recording.now).line) }
        ensures value { IfOk result (λ d. delivered_view d
            ≡ recorded_delivered self.now.seed (self.now.number, self.now.scenario.now) recording.now) }
        ensures up { IfOk result (λ d. IsLine d.up.line) }
        ensures down { IfOk result (λ d. IsLine d.down.line) }
    {
        let delivered = self.delivered(recording)?;
        put_line(lines, recording.conn, &recording.recorded, &delivered)?;
        Ok(delivered)
    }

    pub(crate) fn share<'r, 'a>(
        &self,
        recordings: &'r [Recording<'_, 'a>],
    ) -> Result<RowShare<'r, 'a>, AllocError>
        ensures { IfOk result (λ share. share
            ≡ row_share self.now.seed (self.now.number, self.now.scenario.now) recordings.now) }
    {
        let mut lines = self.room_for_lines(recordings.len())?;
        // The row may grow, so it is made last.
        let mut segments = SegmentRow::with_room(self.alloc, recordings.len())?;
        for recording in recordings {
            let delivered = self.put_line_of(&mut lines, recording)?;
            segments = segments.with_connection(&recording.endpoints, delivered)?;
        }
        let segments = segments.sorted(self.alloc)?;
        let lines = ReportText::of(lines);
        Ok(RowShare { segments, lines })
    }

    /// The lines of connections in the scenario's report.
    pub(crate) fn text(&self, recordings: &[Recording<'_, '_>]) -> Result<ReportText, AllocError>
        ensures { IfOk result (λ text. text
            ≡ row_text self.now.seed (self.now.number, self.now.scenario.now) recordings.now) }
    {
        let mut lines = self.room_for_lines(recordings.len())?;
        for recording in recordings {
            self.put_line_of(&mut lines, recording)?;
        }
        lines.shrink_to_fit();
        Ok(ReportText::of(lines))
    }
}
