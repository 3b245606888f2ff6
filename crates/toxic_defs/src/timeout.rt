//! A timeout: no bytes, and a close some time after the opening.
ghost use Rattle.std.specs.Prelude.{◌≡◌};
ghost use Rattle.reassembly.specs.LineView.{end_view};
ghost use Rattle.toxic_defs.specs.EndRule.{ended};
ghost use Rattle.toxic_defs.specs.Timeout.{timed_out, end_after};

use crate::end_rule::finished;
use pcap_records::Moment;
use reassembly::{End, Line};

/// A line without its bytes that is closed at an instant, or never if `time` is 0.
pub(crate) fn run_timeout<'a>(line: Line<'a>, time: u64, at: Moment) -> Line<'a>
    ensures line { result.line ≡ ended (timed_out time at) }
    ensures ticks { result.ticks ≡ line.entry.ticks }
{
    let unit = line.unit();
    let mut parts = line.into_parts();
    parts.truncate(0);
    finished(unit, parts, &end_after(time, at))
}

fn end_after(time: u64, at: Moment) -> End
    ensures { end_view result ≡ end_after time at }
{
    if time == 0 { End::Live } else { End::Close(at) }
}
