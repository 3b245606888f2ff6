//! Latency: chunks that come later.
ghost use Rattle.std.specs.Prelude.{◌≡◌, ◌≤◌, ◌&&◌, nat_lt, length};
ghost use Rattle.pcap_records.specs.Instants.{ticks_of};
ghost use Rattle.reassembly.specs.LineView.{bytes_of_parts};
ghost use Rattle.toxic_defs.specs.RandomWords.{word_of};
ghost use Rattle.toxic_defs.specs.Latency.{late_bytes, late_line};
ghost use Rattle.toxic_defs.specs.EndRule.{ended};
ghost use Rattle.toxic_defs.specs.Limits.{greatest_attribute};

use crate::drawn_numbers::Spread;
use crate::end_rule::finished;
use crate::words::Key;
use pcap_records::{Moment, Unit};
use reassembly::{Line, LinePart};

/// Each chunk comes `latency` milliseconds later, plus or minus a drawn number up to `jitter`, and never before an earlier chunk.
pub(crate) fn run_latency<'a>(line: Line<'a>, key: Key, latency: u64, jitter: u64) -> Line<'a>
    requires latency { latency ≤ greatest_attribute }
    requires jitter { jitter ≤ greatest_attribute }
    ensures line { result.line ≡ ended (late_line line.entry.ticks (word_of key) latency jitter line.entry.line) }
    ensures ticks { result.ticks ≡ line.entry.ticks }
{
    let unit = line.unit();
    let end = line.end();
    let mut parts = line.into_parts();
    delay_chunks(&mut parts, unit, key, latency, jitter);
    finished(unit, parts, &end)
}

// Delays the chunks of a line's parts, in place. A part without bytes begins no chunk.
fn delay_chunks(parts: &mut [LinePart<'_>], unit: Unit, key: Key, latency: u64, jitter: u64)
    requires latency { latency ≤ greatest_attribute }
    requires jitter { jitter ≤ greatest_attribute }
    ensures { bytes_of_parts parts.new
        ≡ late_bytes (ticks_of unit) (word_of key) latency jitter (bytes_of_parts parts.old) }
{
    let mut numbers = Spread::of(key, jitter);
    let mut last = Moment::first();
    for part in parts.iter_mut() {
        if begins_chunk(part) {
            let delay = unit.milliseconds((latency + numbers.next()).saturating_sub(jitter));
            last = last.greater(part.at.later(delay, unit));
        }
        part.at = last;
    }
}

fn begins_chunk(part: &LinePart<'_>) -> bool
    ensures { result ≡ (part.now.starts && nat_lt 0 (length part.now.bytes.now)) }
{
    part.starts && !part.bytes.is_empty()
}
