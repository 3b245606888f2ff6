//! A reset by a peer, some time after the opening.
ghost use Rattle.std.specs.Prelude.{◌≡◌, []};
ghost use Rattle.reassembly.specs.LineLaws.{IsLine};
ghost use Rattle.reassembly.specs.LineView.{end_view};
ghost use Rattle.toxic_defs.specs.EndRule.{ended};
ghost use Rattle.toxic_defs.specs.ResetPeer.{reset_at};

use crate::end_rule::finished;
use crate::session_cut::kept_parts;
use pcap_records::Moment;
use reassembly::{End, Line};

/// A line that is reset at an instant, unless it ended before; the bytes from then on are lost.
pub(crate) fn run_reset_peer<'a>(line: Line<'a>, at: Moment) -> Line<'a>
    requires { IsLine line.line }
    ensures line { result.line ≡ ended (reset_at at line.entry.line) }
    ensures ticks { result.ticks ≡ line.entry.ticks }
{
    let unit = line.unit();
    let end = line.end();
    let mut parts = line.into_parts();
    let kept = kept_parts(&parts, at);
    parts.truncate(kept);
    finished(unit, parts, &reset_end(at, &end))
}

fn reset_end(at: Moment, end: &End) -> End
    ensures { end_view result ≡ (reset_at at (record { bytes = []; end = end_view end.now })).end }
{
    match end.at() {
        Some(own) if own.is_before(at) => *end,
        _ => End::Reset(at),
    }
}
