//! A limit of bytes.
ghost use Rattle.std.specs.Prelude.{◌≡◌, take};
ghost use Rattle.reassembly.specs.LineView.{bytes_of_parts, end_view};
ghost use Rattle.toxic_defs.specs.EndRule.{ended};
ghost use Rattle.toxic_defs.specs.LimitData.{limited, next_instant, limited_end};

use crate::end_rule::finished;
use pcap_records::Moment;
use reassembly::{End, Line, LinePart};

/// The first `most` bytes of a line. If the line has more, it is closed when the next byte would have come.
pub(crate) fn run_limit_data<'a>(line: Line<'a>, most: u64) -> Line<'a>
    ensures line { result.line ≡ ended (limited most line.entry.line) }
    ensures ticks { result.ticks ≡ line.entry.ticks }
{
    let unit = line.unit();
    let end = line.end();
    let mut parts = line.into_parts();
    let next = keep_bytes(&mut parts, most);
    finished(unit, parts, &limited_end(next, &end))
}

// Keeps the first bytes, and returns when the next one would have come.
fn keep_bytes(parts: &mut Vec<LinePart<'_>>, most: u64) -> Option<Moment>
    ensures bytes { bytes_of_parts parts.new.items ≡ take most (bytes_of_parts parts.old.items) }
    ensures next { result ≡ next_instant most (bytes_of_parts parts.old.items) }
{
    let mut left = most;
    for i in 0..parts.len() {
        let part = &mut parts[i];
        let len = part.bytes.len() as u64;
        if left < len {
            let at = part.at;
            part.bytes = &part.bytes[..left as usize];
            parts.truncate(i + 1);
            return Some(at);
        }
        left -= len;
    }
    None
}

fn limited_end(next: Option<Moment>, end: &End) -> End
    ensures { end_view result ≡ limited_end next (end_view end.now) }
{
    match next {
        Some(at) => End::Close(at),
        None => *end,
    }
}
