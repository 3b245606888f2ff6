//! Limits of what a toxic takes.

/// The greatest latency, jitter, delay, timeout and average size of slices, each in the unit of its attribute.
pub(crate) const GREATEST_ATTRIBUTE: u64 = 1_000_000_000;

/// The greatest rate, in KB a second.
pub(crate) const GREATEST_RATE: u64 = 1_000_000;

/// The greatest `bytes` of a `limit_data`.
pub(crate) const GREATEST_LIMIT: u64 = 1_000_000_000_000;

/// The greatest `ppm`: a toxic with it applies to every connection.
pub(crate) const MILLION: u64 = 1_000_000;
