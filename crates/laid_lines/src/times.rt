//! Instants in nanoseconds, and the ends of lines.
ghost use Rattle.std.specs.Prelude.{◌≡◌};
ghost use Rattle.pcap_records.specs.Instants.{ticks_of};
ghost use Rattle.reassembly.specs.LineView.{end_view};
ghost use Rattle.laid_lines.specs.FlatLines.{nanoseconds_at, nanoseconds_since, end_code, end_time};

use pcap_records::{Moment, Unit};
use reassembly::End;

/// What times of a connection count from.
#[derive(Clone, Copy, Debug)]
pub(crate) struct Opening {
    pub(crate) unit: Unit,
    pub(crate) at: Moment,
}

/// An instant in nanoseconds.
pub(crate) fn nanoseconds_at(unit: Unit, at: Moment) -> u64
    ensures { result ≡ nanoseconds_at (ticks_of unit) at }
{
    let ticks = Moment::of(at.count(), unit).count();
    match unit {
        Unit::Micros => ticks * 1_000,
        Unit::Nanos => ticks,
    }
}

/// The nanoseconds from an opening to an instant.
pub(crate) fn nanoseconds_since(opening: &Opening, at: Moment) -> u64
    ensures { result ≡ nanoseconds_since (ticks_of opening.now.unit) opening.now.at at }
{
    let opened = nanoseconds_at(opening.unit, opening.at);
    nanoseconds_at(opening.unit, at).saturating_sub(opened)
}

/// The number that tells how a direction ends, or that the connection is refused.
pub(crate) fn end_code(refused: bool, end: End) -> u64
    ensures { result ≡ end_code refused (end_view end) }
{
    match end {
        _ if refused => 4,
        End::Live => 0,
        End::Fin(_) => 1,
        End::Close(_) => 2,
        End::Reset(_) => 3,
    }
}

/// When a direction ends, or 0.
pub(crate) fn end_time(opening: &Opening, end: End) -> u64
    ensures { result ≡ end_time (ticks_of opening.now.unit) opening.now.at (end_view end) }
{
    match end.at() {
        Some(at) => nanoseconds_since(opening, at),
        None => 0,
    }
}
