//! A slow close: a FIN or a close that comes later.
ghost use Rattle.std.specs.Prelude.{◌≡◌};
ghost use Rattle.pcap_records.specs.Instants.{horizon, ticks_of};
ghost use Rattle.reassembly.specs.LineView.{end_view};
ghost use Rattle.toxic_defs.specs.EndRule.{ended};
ghost use Rattle.toxic_defs.specs.SlowClose.{slow_line, slow_end};

use crate::end_rule::finished;
use pcap_records::Unit;
use reassembly::{End, Line};

/// A line whose FIN or close comes `delay` ticks later.
pub(crate) fn run_slow_close<'a>(line: Line<'a>, delay: u64) -> Line<'a>
    ensures line { result.line ≡ ended (slow_line (horizon line.entry.ticks) delay line.entry.line) }
    ensures ticks { result.ticks ≡ line.entry.ticks }
{
    let unit = line.unit();
    let end = line.end();
    finished(unit, line.into_parts(), &slow_end(&end, delay, unit))
}

fn slow_end(end: &End, delay: u64, unit: Unit) -> End
    ensures { end_view result ≡ slow_end (horizon (ticks_of unit)) delay (end_view end.now) }
{
    match *end {
        End::Reset(_) => *end,
        _ => end.map(|at| at.later(delay, unit)),
    }
}
