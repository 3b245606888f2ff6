//! The units in which the instants of a capture count.
ghost use Rattle.std.specs.Prelude.{◌≡◌, ◌<◌, ◌*◌, ◌/◌, ◌%◌, ◌^◌};
ghost use Rattle.pcap_records.specs.Instants.{horizon, microsecond, millisecond, ticks_of};

const MICROS: u64 = 1_000_000;

const NANOS: u64 = 1_000_000_000;

/// What a tick of a capture is, by its magic number.
#[derive(Clone, Copy, Debug, PartialEq, Eq, Hash)]
pub enum Unit {
    /// A microsecond: the magic number is `a1b2c3d4`.
    Micros,
    /// A nanosecond: the magic number is `a1b23c4d`.
    Nanos,
}

impl Unit {
    /// The ticks of `count` seconds.
    pub fn seconds(self, count: u32) -> u64
        ensures { result ≡ count * ticks_of self }
    {
        match self {
            Unit::Micros => u64::from(count) * MICROS,
            Unit::Nanos => u64::from(count) * NANOS,
        }
    }

    /// The ticks of `count` milliseconds, fewer than 2^32.
    pub fn milliseconds(self, count: u64) -> u64
        requires { count < 2 ^ 32 }
        ensures { result ≡ millisecond (ticks_of self) * count }
    {
        match self {
            Unit::Micros => MICROS / 1_000 * count,
            Unit::Nanos => NANOS / 1_000 * count,
        }
    }

    /// The ticks of `count` microseconds, fewer than 2^32.
    pub fn microseconds(self, count: u64) -> u64
        requires { count < 2 ^ 32 }
        ensures { result ≡ microsecond (ticks_of self) * count }
    {
        match self {
            Unit::Micros => MICROS / 1_000_000 * count,
            Unit::Nanos => NANOS / 1_000_000 * count,
        }
    }

    /// The ticks of 2^32 seconds: the horizon, past which no stamp lies.
    pub fn horizon(self) -> u64
        ensures { result ≡ horizon (ticks_of self) }
    {
        match self {
            Unit::Micros => (1 << 32) * MICROS,
            Unit::Nanos => (1 << 32) * NANOS,
        }
    }

    /// The whole seconds of `ticks`, and the ticks over these.
    pub fn split(self, ticks: u64) -> (u32, u32)
        requires { ticks < horizon (ticks_of self) }
        ensures seconds { result.0 ≡ ticks / ticks_of self }
        ensures over { result.1 ≡ ticks % ticks_of self }
    {
        match self {
            Unit::Micros => ((ticks / MICROS) as u32, (ticks % MICROS) as u32),
            Unit::Nanos => ((ticks / NANOS) as u32, (ticks % NANOS) as u32),
        }
    }
}
