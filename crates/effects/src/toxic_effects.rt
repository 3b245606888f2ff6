//! What each toxic does, in numbers.
ghost use Rattle.std.specs.Prelude.{◌≡◌, ◌≤◌, IfOk, length, map};
ghost use Rattle.pcap_records.specs.CaptureView.{contents_of};
ghost use Rattle.conn_table.specs.SeenCapture.{seen_capture};
ghost use Rattle.conn_workers.specs.Recordings.{scenario_limit};
ghost use Rattle.effects.specs.EffectCounts.{effect_counts, effects_in};
ghost use Rattle.effects.specs.Marks.{replay};

use crate::marks::Under;
use conn_workers::laws::tables_are_whole;
use conn_workers::{Recording, record_alone};
use lists::Values;
use pcap_records::Capture;
use range_workers::table_alone;
use scenarios::Scenario;
use std::alloc::{AllocError, Global};

/// What toxics do, scenario by scenario and proxy by proxy. Of each proxy the numbers are how many connections meet it, and for each of its
/// toxics, those of what the client sends first, how many of these draw it and on how many it has an effect: their line of the report or their
/// written records are others with this toxic switched off. It is made by this thread.
pub fn effect_counts(
    alloc: Global,
    capture: &Capture<'_>,
    scenarios: &[Scenario],
    seed: u64,
) -> Result<Values<u64>, AllocError>
    requires { length scenarios.now ≤ scenario_limit }
    ensures { IfOk result (λ v. v ≡ effects_in (seen_capture (contents_of capture.now)) scenarios.now seed) }
{
    tables_are_whole();
    let table = table_alone(alloc, capture)?;
    let recordings = record_alone(alloc, capture, &table)?;
    let counts = counts_of(alloc, recordings.as_slice(), scenarios, seed)?;
    Ok(Values::of(counts))
}

fn counts_of(
    alloc: Global,
    recordings: &[Recording<'_, '_>],
    scenarios: &[Scenario],
    seed: u64,
) -> Result<Vec<u64>, AllocError>
    requires { length scenarios.now ≤ scenario_limit }
    ensures { IfOk result (λ v. v.items ≡ effect_counts seed (map replay recordings.now) scenarios.now) }
{
    let mut counts = Vec::new(alloc);
    for (number, scenario) in scenarios.iter().enumerate() {
        let under = Under {
            alloc,
            seed,
            number: number as u32,
            scenario,
        };
        under.put_counts(recordings, &mut counts)?;
    }
    Ok(counts)
}
