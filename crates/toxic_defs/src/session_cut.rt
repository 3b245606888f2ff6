//! The session cut of two lines, and the closing that cuts them.
ghost use Rattle.std.specs.Prelude.{◌≡◌, ◌&&◌, [], nat_lt, length, take, filter, option_map};
ghost use Rattle.pcap_records.specs.Instants.{horizon, ticks_of};
ghost use Rattle.reassembly.specs.LineLaws.{IsLine, IsInChunks};
ghost use Rattle.reassembly.specs.LineView.{bytes_of_parts, end_view};
ghost use Rattle.toxic_defs.specs.SessionCut.{closing_end, closing_view, cut_instant, cut_line, first_closing, is_after, line_before, line_up_to};

use pcap_records::{Moment, Unit};
use reassembly::{End, Line, LinePart};

// A closing: a close or a reset, and its instant.
#[derive(Clone, Copy, Debug)]
struct Closing {
    at: Moment,
    end: End,
}

/// Two lines of a connection under the session cut: the first close or reset of either ends both. Later bytes are lost,
/// and a later end becomes that one. Nothing is delivered at the horizon.
pub fn cut_both<'a>(up: Line<'a>, down: Line<'a>) -> (Line<'a>, Line<'a>)
    requires up { IsLine up.line }
    requires down { IsLine down.line }
    requires one_unit { down.ticks ≡ up.ticks }
    ensures up { result.0.line ≡ cut_line up.entry.ticks up.entry.line down.entry.line up.entry.line }
    ensures down { result.1.line ≡ cut_line up.entry.ticks up.entry.line down.entry.line down.entry.line }
    ensures up_ticks { result.0.ticks ≡ up.entry.ticks }
    ensures down_ticks { result.1.ticks ≡ up.entry.ticks }
{
    let closing = first_closing(&up.end(), &down.end());
    let up = cut_at(&closing, up);
    let down = cut_at(&closing, down);
    (up, down)
}

fn cut_at<'a>(closing: &Option<Closing>, line: Line<'a>) -> Line<'a>
    requires { IsLine line.line }
    ensures line { result.line
        ≡ line_before (horizon line.entry.ticks) (line_up_to (option_map closing_view closing.now) line.entry.line) }
    ensures ticks { result.ticks ≡ line.entry.ticks }
{
    let unit = line.unit();
    let end = line.end();
    let mut parts = line.into_parts();
    let kept = kept_parts(&parts, cut_instant(closing, unit));
    parts.truncate(kept);
    Line::of_parts(
        unit,
        parts,
        end_before_horizon(&end_up_to(closing, &end), unit),
    )
}

fn closing_end(end: &End) -> Option<Closing>
    ensures { option_map closing_view result ≡ closing_end (end_view end.now) }
{
    match *end {
        End::Fin(_) => None,
        _ => end.at().map(|at| Closing { at, end: *end }),
    }
}

// The first close or reset of two ends; if both are at one instant, that of `up`.
fn first_closing(up: &End, down: &End) -> Option<Closing>
    ensures { option_map closing_view result
        ≡ first_closing (closing_end (end_view up.now)) (closing_end (end_view down.now)) }
{
    let up = closing_end(up);
    let down = closing_end(down);
    match (&up, &down) {
        (Some(first), Some(second)) if second.at.is_before(first.at) => down,
        (None, _) => down,
        _ => up,
    }
}

fn end_up_to(closing: &Option<Closing>, end: &End) -> End
    ensures { end_view result
        ≡ (line_up_to (option_map closing_view closing.now) (record { bytes = []; end = end_view end.now })).end }
{
    match closing {
        Some(closing) if is_after(closing.at, end) => closing.end,
        _ => *end,
    }
}

// Whether an end comes after an instant; this holds of an end that never comes.
fn is_after(at: Moment, end: &End) -> bool
    ensures { result ≡ is_after at (end_view end.now) }
{
    end.at().is_none_or(|own| at.is_before(own))
}

fn end_before_horizon(end: &End, unit: Unit) -> End
    ensures { end_view result
        ≡ (line_before (horizon (ticks_of unit)) (record { bytes = []; end = end_view end.now })).end }
{
    match end.at() {
        Some(at) if !at.is_before_horizon(unit) => End::Live,
        _ => *end,
    }
}

// The first instant whose bytes are lost: the one after the closing, or the horizon.
fn cut_instant(closing: &Option<Closing>, unit: Unit) -> Moment
    ensures { result ≡ cut_instant (horizon (ticks_of unit)) (option_map closing_view closing.now) }
{
    match closing {
        Some(closing) => closing.at.later(1, unit),
        None => Moment::of(unit.horizon(), unit),
    }
}

/// The number of parts up to the last one with a byte before an instant. It goes from the back.
pub(crate) fn kept_parts(parts: &[LinePart<'_>], limit: Moment) -> usize
    requires { IsInChunks (bytes_of_parts parts.now) }
    ensures { bytes_of_parts (take result parts.now)
        ≡ filter (λ b. nat_lt b.at limit) (bytes_of_parts parts.now) }
{
    let mut kept = parts.len();
    'parts: while kept > 0 && !has_byte_before(&parts[kept - 1], limit) {
        kept -= 1;
    }
    kept
}

fn has_byte_before(part: &LinePart<'_>, limit: Moment) -> bool
    ensures { result ≡ (nat_lt 0 (length part.now.bytes.now) && nat_lt part.now.at limit) }
{
    !part.bytes.is_empty() && part.at.is_before(limit)
}
