//! Kinds of toxics, with their attributes.
ghost use Rattle.std.specs.Prelude.{◌≡◌};
ghost use Rattle.toxic_defs.specs.Toxics.{fits};

use crate::limits::{GREATEST_ATTRIBUTE, GREATEST_LIMIT, GREATEST_RATE};

/// What a toxic does, and its attributes: numbers of any size. [`fits`](Kind::fits) says whether they are in range.
#[derive(Clone, Copy, Debug, PartialEq, Eq)]
pub enum Kind {
    /// Delays each chunk by `latency` milliseconds, plus or minus a random number up to `jitter`.
    Latency {
        latency: u64,
        jitter: u64,
    },
    /// Lets `rate` KB a second through, of 1000 bytes each.
    Bandwidth {
        rate: u64,
    },
    /// Delays a FIN and a close by `delay` milliseconds.
    SlowClose {
        delay: u64,
    },
    /// Lets nothing through, and closes `timeout` milliseconds after the opening, or never if that is 0.
    Timeout {
        timeout: u64,
    },
    /// Resets `timeout` milliseconds after the opening.
    ResetPeer {
        timeout: u64,
    },
    /// Cuts chunks into slices of `average_size` bytes, plus or minus a random number up to `size_variation`, sent `delay` microseconds apart.
    Slicer {
        average_size: u64,
        size_variation: u64,
        delay: u64,
    },
    /// Lets the first `bytes` bytes through, and closes when another byte comes.
    LimitData {
        bytes: u64,
    },
}

impl Kind {
    /// Whether all are in range: `rate` 1 to 10^6, `average_size` 1 to 10^9, `size_variation` below it, `bytes` 0 to 10^12, others 0 to 10^9.
    pub fn fits(&self) -> bool
        ensures { result ≡ fits self.now }
    {
        match *self {
            Kind::Latency { latency, jitter } => latency <= GREATEST_ATTRIBUTE
                && jitter <= GREATEST_ATTRIBUTE,
            Kind::Bandwidth { rate } => 0 < rate && rate <= GREATEST_RATE,
            Kind::SlowClose { delay } => delay <= GREATEST_ATTRIBUTE,
            Kind::Timeout { timeout } | Kind::ResetPeer { timeout } => timeout
                <= GREATEST_ATTRIBUTE,
            Kind::Slicer {
                average_size,
                size_variation,
                delay,
            } => size_variation < average_size
                && average_size <= GREATEST_ATTRIBUTE
                && delay <= GREATEST_ATTRIBUTE,
            Kind::LimitData { bytes } => bytes <= GREATEST_LIMIT,
        }
    }
}
