//! The delivered lines of a capture that was read.
ghost use Rattle.std.specs.Prelude.{◌≡◌, ◌≤◌, IfOk, length};
ghost use Rattle.pcap_records.specs.CaptureView.{contents_of};
ghost use Rattle.conn_table.specs.SeenCapture.{seen_capture};
ghost use Rattle.conn_workers.specs.Recordings.{scenario_limit};
ghost use Rattle.laid_lines.specs.FlatLines.{flat_lines};
ghost use Rattle.laid_lines.specs.RecordedLines.{flat_view};

use crate::laid::LaidLines;
use conn_workers::laws::tables_are_whole;
use conn_workers::{UnderScenario, record_alone};
use pcap_records::Capture;
use range_workers::table_alone;
use scenarios::Scenario;
use std::alloc::{AllocError, Global};

/// What each side of each connection of a capture is delivered in each scenario, by this thread. The pieces are slices of the capture.
pub fn delivered_lines<'a>(
    alloc: Global,
    capture: &Capture<'a>,
    scenarios: &[Scenario],
    seed: u64,
) -> Result<LaidLines<'a>, AllocError>
    requires { length scenarios.now ≤ scenario_limit }
    ensures { IfOk result (λ laid. flat_view laid ≡ flat_lines (seen_capture (contents_of capture.now)) scenarios.now seed) }
{
    tables_are_whole();
    let table = table_alone(alloc, capture)?;
    let recorded = record_alone(alloc, capture, &table)?;
    let recordings = recorded.as_slice();
    let mut laid = LaidLines::none(alloc);
    for (number, scenario) in scenarios.iter().enumerate() {
        let under = UnderScenario::of(alloc, number as u32, scenario, seed);
        laid.add_row(&under, recordings)?;
    }
    Ok(laid)
}
