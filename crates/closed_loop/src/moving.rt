//! New times for packets that are not yet settled. No contract tells which: `settling` tests the times that are found.
use crate::openings::{Ends, Opening, opening_of};
use crate::packets::Packet;
use crate::scripts::{Hearing, Script};
use crate::sessions::Session;
use crate::settling::{limit_of, next_time};
use crate::times::{earlier, instant_in, time_at};
use std::alloc::{AllocError, Global};

/// The times of the last rehearsal of each connection, those to try next, and when connections end by these.
#[derive(Drop)]
pub(crate) struct Course {
    pub(crate) times: Vec<Option<u64>>,
    next: Vec<Option<u64>>,
    ends: Ends,
}

/// How late the last bytes came that each side has heard.
#[derive(Clone, Copy)]
struct Lateness {
    up: u64,
    down: u64,
}

impl Course {
    /// Nothing has moved yet.
    pub(crate) fn of(
        alloc: Global,
        times: Vec<Option<u64>>,
        ends: Ends,
    ) -> Result<Course, AllocError> {
        let next = Vec::from_slice(alloc, &times)?;
        Ok(Course { times, next, ends })
    }

    // When what a packet waits for comes, if what brings it is sent at its next time.
    fn coming(&self, hearing: &Hearing, late: &mut Lateness, packet: &Packet) -> Option<u64> {
        if packet.heard == 0 {
            return Some(0);
        }
        let sent = time_at(&self.next, packet.source)?;
        let Some(before) = time_at(&self.times, packet.source) else {
            let late = if packet.from_client {
                late.down
            } else {
                late.up
            };
            return Some(sent.saturating_add(late));
        };
        if packet.from_client {
            let at = hearing.down.arrival(packet.heard)?;
            late.down = at.saturating_sub(before);
            Some(shifted(at, sent, before))
        } else {
            let at = hearing.up.arrival(packet.heard)?;
            late.up = at.saturating_sub(before);
            Some(shifted(at, sent, before))
        }
    }

    // Gives the packets of a connection that opens at `opening` their next times.
    fn send(&mut self, x: &Session<'_>, opening: u64, limit: u64) {
        let script = x.script;
        let hearing = x.hearing;
        let number = script.opening;
        let before = instant_in(&self.times, u64::from(number));
        let cut = if hearing.refused {
            Some(opening)
        } else {
            moved(hearing.closed, opening, before)
        };
        set(&mut self.next, number, Some(opening));
        let mut late = Lateness { up: 0, down: 0 };
        for packet in &script.packets {
            let coming = self.coming(hearing, &mut late, packet);
            let limit = limit_of(limit, cut, number, packet);
            let time = next_time(&self.next, coming, limit, packet);
            set(&mut self.next, packet.number, time);
        }
    }

    // Notes when a connection ends by its next times.
    fn end(&mut self, x: &Session<'_>, i: usize, opening: u64) {
        let script = x.script;
        let hearing = x.hearing;
        let before = instant_in(&self.times, u64::from(script.opening));
        let farewell = match script.farewell {
            Some(number) => time_at(&self.next, u64::from(number)),
            None => None,
        };
        let refused = if hearing.refused { Some(opening) } else { None };
        let told = earlier(refused, moved(hearing.told, opening, before));
        let closed = earlier(refused, moved(hearing.closed, opening, before));
        let mut last = opening.max(closed.unwrap_or(0));
        for packet in &script.packets {
            last = last.max(instant_in(&self.next, u64::from(packet.number)));
        }
        if let Some(it) = self.ends.ends.get_mut(i) {
            *it = earlier(farewell, told);
        }
        if let Some(it) = self.ends.lasts.get_mut(i) {
            *it = last;
        }
    }

    // Takes the next times of a connection; whether one of them is another.
    fn take(&mut self, script: &Script) -> bool {
        let mut has_moved = self.take_record(script.opening);
        for packet in &script.packets {
            let other = self.take_record(packet.number);
            has_moved = has_moved || other;
        }
        has_moved
    }

    fn take_record(&mut self, number: u32) -> bool {
        let next = time_at(&self.next, u64::from(number));
        let is_other = time_at(&self.times, u64::from(number)) != next;
        set(&mut self.times, number, next);
        is_other
    }

    /// Moves connections that have been rehearsed anew, or open at another time; whether one has moved. `moved` says which, before and after.
    pub(crate) fn step(
        &mut self,
        o: &Opening<'_>,
        sessions: &[Session<'_>],
        moved: &mut Vec<bool>,
    ) -> bool {
        let mut before = 0;
        let mut any = false;
        for i in 0..sessions.len() {
            let x = &sessions[i];
            let script = x.script;
            let opening = opening_of(o, &self.ends, sessions, before, x);
            before = opening;
            let opens_anew = time_at(&self.times, u64::from(script.opening)) != Some(opening);
            let mut has_moved = false;
            if opens_anew || is_marked(moved, i) {
                self.send(x, opening, o.limit);
                self.end(x, i, opening);
                has_moved = self.take(script);
            }
            if let Some(it) = moved.get_mut(i) {
                *it = has_moved;
            }
            any = any || has_moved;
        }
        any
    }

    /// The times of the openings, and of all packets of connections that have moved: so all keep their numbers.
    pub(crate) fn kept(
        &self,
        alloc: Global,
        scripts: &[Script],
        moved: &[bool],
    ) -> Result<Vec<Option<u64>>, AllocError> {
        let mut kept = vec![in alloc; None; self.times.len()]?;
        for i in 0..scripts.len() {
            let script = &scripts[i];
            let opening = time_at(&self.times, u64::from(script.opening));
            set(&mut kept, script.opening, opening);
            if is_marked(moved, i) {
                for packet in &script.packets {
                    let time = time_at(&self.times, u64::from(packet.number));
                    set(&mut kept, packet.number, time);
                }
            }
        }
        Ok(kept)
    }
}

/// Whether place `i` is marked.
pub(crate) fn is_marked(marks: &[bool], i: usize) -> bool {
    match marks.get(i) {
        Some(mark) => *mark,
        None => false,
    }
}

// A time that moves as far as another.
fn shifted(at: u64, to: u64, from: u64) -> u64 {
    at.saturating_add(to).saturating_sub(from)
}

fn moved(at: Option<u64>, to: u64, from: u64) -> Option<u64> {
    match at {
        Some(at) => Some(shifted(at, to, from)),
        None => None,
    }
}

fn set(times: &mut Vec<Option<u64>>, number: u32, time: Option<u64>) {
    if let Some(it) = times.get_mut(number as usize) {
        *it = time;
    }
}
