//! When records are sent.
ghost use Rattle.std.specs.Prelude.{◌≡◌};
ghost use Rattle.closed_loop.specs.Times.{time_at, instant_in, earlier};

/// The time of record `number`.
pub(crate) fn time_at(times: &[Option<u64>], number: u64) -> Option<u64>
    ensures { result ≡ time_at times.now number }
{
    match times.get(number as usize) {
        Some(time) => *time,
        None => None,
    }
}

/// The time of a record that is sent.
pub(crate) fn instant_in(times: &[Option<u64>], number: u64) -> u64
    ensures { result ≡ instant_in times.now number }
{
    time_at(times, number).unwrap_or(0)
}

/// The earlier of two times, if either comes.
pub(crate) fn earlier(a: Option<u64>, b: Option<u64>) -> Option<u64>
    ensures { result ≡ earlier a b }
{
    match (a, b) {
        (Some(a), Some(b)) => Some(a.min(b)),
        (Some(a), None) => Some(a),
        (None, b) => b,
    }
}
