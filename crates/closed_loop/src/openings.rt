//! When connections open.
ghost use Rattle.std.specs.Prelude.{◌≡◌, ◌≤◌, ◌-◌, ◌+◌, true, map, min, unwrap_or, option_and_then, slice_get, IfOk};
ghost use Rattle.std.specs.Option.{option_map_or};
ghost use Rattle.closed_loop.specs.Times.{instant_in};
ghost use Rattle.closed_loop.specs.Openings.{end_time, last_time, turn_after, turn_time, free_after, free_time, opening_time, AreOpened};

use crate::sessions::{Session, end_time, last_time};
use crate::times::{instant_in, time_at};
use std::alloc::{AllocError, Global};

/// What decides when connections open: the recorded times, whether they open in turn, and the latest time.
#[derive(Clone, Copy)]
pub(crate) struct Opening<'o> {
    pub(crate) recorded: &'o [Option<u64>],
    pub(crate) in_turn: bool,
    pub(crate) limit: u64,
}

/// When connections have ended, and when each last sent.
#[derive(Drop)]
pub(crate) struct Ends {
    pub(crate) ends: Vec<Option<u64>>,
    pub(crate) lasts: Vec<u64>,
}

/// When connections end, if these are the times of all records.
pub(crate) fn ends_of(
    alloc: Global,
    times: &[Option<u64>],
    sessions: &[Session<'_>],
) -> Result<Ends, AllocError>
    ensures ends { IfOk result (λ e. e.ends.items ≡ map (end_time times.now) sessions.now) }
    ensures lasts { IfOk result (λ e. e.lasts.items ≡ map (last_time times.now) sessions.now) }
{
    let mut ends = Vec::with_capacity(alloc, sessions.len())?;
    let mut lasts = Vec::with_capacity(alloc, sessions.len())?;
    for x in sessions {
        ends.push(end_time(times, x))?;
        lasts.push(last_time(times, x))?;
    }
    Ok(Ends { ends, lasts })
}

fn recorded_opening(o: &Opening<'_>, x: &Session<'_>) -> u64
    ensures { result ≡ instant_in o.now.recorded.now x.now.script.opening }
{
    let script = x.script;
    instant_in(o.recorded, u64::from(script.opening))
}

// A sum, or what is past the limit.
fn sum_up_to(limit: u64, a: u64, b: u64) -> u64
    ensures { min limit result ≡ min limit (a + b) }
{
    a.saturating_add(b).min(limit)
}

// The recorded end of connection `number`.
fn recorded_end_at(o: &Opening<'_>, sessions: &[Session<'_>], number: usize) -> u64
    ensures { result ≡ option_map_or (λ y. instant_in o.now.recorded.now (unwrap_or y.script.ended 0)) (slice_get sessions.now number) 0 }
{
    match sessions.get(number) {
        Some(y) => {
            let script = y.script;
            instant_in(o.recorded, script.ended.unwrap_or(0))
        }
        None => 0,
    }
}

// When connection `number` was last recorded.
fn recorded_last_at(o: &Opening<'_>, sessions: &[Session<'_>], number: usize) -> u64
    ensures { result ≡ option_map_or (λ y. instant_in o.now.recorded.now y.script.last) (slice_get sessions.now number) 0 }
{
    match sessions.get(number) {
        Some(y) => {
            let script = y.script;
            instant_in(o.recorded, u64::from(script.last))
        }
        None => 0,
    }
}

#[tactic(auto, using(crate::proofs::MappedReads::end_read))]
fn end_at(ends: &[Option<u64>], number: usize) -> Option<u64>
    ensures { (times : _) → (sessions : _) → ends.now ≡ map (end_time times) sessions
        → result ≡ option_and_then (end_time times) (slice_get sessions number) }
{
    time_at(ends, number as u64)
}

#[tactic(auto, using(crate::proofs::MappedReads::last_read))]
fn last_at(lasts: &[u64], number: usize) -> u64
    ensures { (times : _) → (sessions : _) → lasts.now ≡ map (last_time times) sessions
        → result ≡ option_map_or (last_time times) (slice_get sessions number) 0 }
{
    match lasts.get(number) {
        Some(last) => *last,
        None => 0,
    }
}

// As long after the end of connection `number` as in the recording, unless that is past the limit.
fn turn_after(
    o: &Opening<'_>,
    ends: &[Option<u64>],
    sessions: &[Session<'_>],
    begin: u64,
    number: usize,
) -> Option<u64>
    ensures { (times : _) → ends.now ≡ map (end_time times) sessions.now
        → min o.now.limit (unwrap_or result o.now.limit)
        ≡ min o.now.limit (unwrap_or (turn_after o.now.recorded.now times sessions.now begin number) o.now.limit) }
{
    let end = end_at(ends, number)?;
    let pause = begin.saturating_sub(recorded_end_at(o, sessions, number));
    Some(sum_up_to(o.limit, end, pause))
}

fn turn_time(
    o: &Opening<'_>,
    ends: &[Option<u64>],
    sessions: &[Session<'_>],
    x: &Session<'_>,
) -> Option<u64>
    ensures { (times : _) → ends.now ≡ map (end_time times) sessions.now
        → min o.now.limit (unwrap_or result o.now.limit)
        ≡ min o.now.limit (unwrap_or (turn_time o.now.recorded.now times o.now.in_turn sessions.now x.now) o.now.limit) }
{
    let begin = recorded_opening(o, x);
    match x.forerunners.ended {
        Some(number) if o.in_turn => turn_after(o, ends, sessions, begin, number),
        _ => Some(begin),
    }
}

// As long after all of connection `number` as in the recording, or later than the limit.
fn free_after(
    o: &Opening<'_>,
    lasts: &[u64],
    sessions: &[Session<'_>],
    begin: u64,
    number: usize,
) -> u64
    ensures { (times : _) → lasts.now ≡ map (last_time times) sessions.now
        → min o.now.limit result ≡ min o.now.limit (free_after o.now.recorded.now times sessions.now begin number) }
{
    let pause = begin.saturating_sub(recorded_last_at(o, sessions, number));
    sum_up_to(o.limit, last_at(lasts, number), pause)
}

fn free_time(o: &Opening<'_>, lasts: &[u64], sessions: &[Session<'_>], x: &Session<'_>) -> u64
    ensures { (times : _) → lasts.now ≡ map (last_time times) sessions.now
        → min o.now.limit result ≡ min o.now.limit (free_time o.now.recorded.now times sessions.now x.now) }
{
    let begin = recorded_opening(o, x);
    match x.forerunners.ports {
        Some(number) => free_after(o, lasts, sessions, begin, number),
        None => 0,
    }
}

/// When a connection opens, if the one before it opens at `before`.
pub(crate) fn opening_of(
    o: &Opening<'_>,
    ends: &Ends,
    sessions: &[Session<'_>],
    before: u64,
    x: &Session<'_>,
) -> u64
    ensures { (times : _) → ends.now.ends.items ≡ map (end_time times) sessions.now → ends.now.lasts.items ≡ map (last_time times) sessions.now
        → result ≡ opening_time o.now.limit before (turn_time o.now.recorded.now times o.now.in_turn sessions.now x.now)
        (free_time o.now.recorded.now times sessions.now x.now) }
{
    let turn = turn_time(o, &ends.ends, sessions, x).unwrap_or(o.limit);
    let free = free_time(o, &ends.lasts, sessions, x);
    o.limit.min(before.max(free.max(turn)))
}

/// Whether each connection opens when it is to open.
pub(crate) fn are_opened(
    o: &Opening<'_>,
    times: &[Option<u64>],
    ends: &Ends,
    sessions: &[Session<'_>],
) -> bool
    requires ends { ends.now.ends.items ≡ map (end_time times.now) sessions.now }
    requires lasts { ends.now.lasts.items ≡ map (last_time times.now) sessions.now }
    ensures { result ≡ true → AreOpened o.now.recorded.now times.now o.now.in_turn o.now.limit sessions.now 0 sessions.now }
{
    let mut before = 0;
    for x in sessions {
        let due = opening_of(o, ends, sessions, before, x);
        let script = x.script;
        if time_at(times, u64::from(script.opening)) != Some(due) {
            return false;
        }
        before = due;
    }
    true
}
