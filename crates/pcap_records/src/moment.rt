//! Moments: ticks of a capture's unit, at most the horizon.
ghost use Rattle.std.specs.Prelude.{◌≡◌, ◌+◌, max, nat_lt};
ghost use Rattle.pcap_records.specs.Instants.{horizon, instant, ticks_of};

use crate::unit::Unit;
use std::marker::Model;

/// An instant of a capture, in whole ticks of its unit after the first second that a file can tell.
#[derive(Clone, Copy, Debug, PartialEq, Eq, PartialOrd, Ord, Hash)]
pub struct Moment {
    ticks: u64,
}

impl Model for Moment {
    ghost use Rattle.std.specs.Prelude.{ℕ};

    ghost Value = { ℕ };

    ghost view = { λ m. m.ticks };

    ghost inverse = { λ n. record { ticks = n } };
}

impl Moment {
    /// The first instant.
    pub fn first() -> Moment
        ensures { result ≡ 0 }
    {
        Moment { ticks: 0 }
    }

    /// The instant `ticks` ticks of a unit after the first, or the horizon if that is earlier.
    pub fn of(ticks: u64, unit: Unit) -> Moment
        ensures { result ≡ instant (ticks_of unit) ticks }
    {
        Moment {
            ticks: ticks.min(unit.horizon()),
        }
    }

    /// The instant's number of ticks.
    pub fn count(self) -> u64
        ensures { result ≡ self }
    {
        self.ticks
    }

    /// The instant `ticks` ticks of a unit after this one, or the horizon if that is earlier.
    pub fn later(self, ticks: u64, unit: Unit) -> Moment
        ensures { result ≡ instant (ticks_of unit) (self + ticks) }
    {
        Moment::of(self.ticks.saturating_add(ticks), unit)
    }

    /// Whether this instant is before another.
    pub fn is_before(self, other: Moment) -> bool
        ensures { result ≡ nat_lt self other }
    {
        self.ticks < other.ticks
    }

    /// Whether this instant is before a unit's horizon.
    pub fn is_before_horizon(self, unit: Unit) -> bool
        ensures { result ≡ nat_lt self (horizon (ticks_of unit)) }
    {
        self.ticks < unit.horizon()
    }

    /// The greater of two instants.
    pub fn greater(self, other: Moment) -> Moment
        ensures { result ≡ max self other }
    {
        if self.is_before(other) { other } else { self }
    }
}
