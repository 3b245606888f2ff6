//! The rule of ends: the end of a line whose bytes were changed is not before the last one.
ghost use Rattle.std.specs.Prelude.{◌≡◌};
ghost use Rattle.pcap_records.specs.Instants.{ticks_of};
ghost use Rattle.reassembly.specs.LineLaws.{last_instant};
ghost use Rattle.reassembly.specs.LineView.{bytes_of_parts, end_view};
ghost use Rattle.toxic_defs.specs.EndRule.{ended, not_before};

use pcap_records::{Moment, Unit};
use reassembly::{End, Line, LinePart};

/// The line of these parts; an end before the last byte moves to that byte's instant.
pub(crate) fn finished<'a>(unit: Unit, parts: Vec<LinePart<'a>>, end: &End) -> Line<'a>
    ensures line { result.line
        ≡ ended (record { bytes = bytes_of_parts parts.entry.items; end = end_view end.now }) }
    ensures ticks { result.ticks ≡ ticks_of unit }
{
    let last = last_instant(&parts);
    Line::of_parts(unit, parts, not_before(last, end))
}

// The instant of the last byte, or 0 without bytes. It goes from the back, past parts without bytes.
fn last_instant(parts: &[LinePart<'_>]) -> Moment
    ensures { result ≡ last_instant 0 (bytes_of_parts parts.now) }
{
    let mut count = parts.len();
    'parts: while count > 0 {
        let part = &parts[count - 1];
        if !part.bytes.is_empty() {
            return part.at;
        }
        count -= 1;
    }
    Moment::first()
}

fn not_before(at: Moment, end: &End) -> End
    ensures { end_view result ≡ not_before at (end_view end.now) }
{
    end.map(|own| own.greater(at))
}
