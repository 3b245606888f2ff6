//! The connections of a capture, which grow segment by segment.
ghost use Rattle.std.specs.Prelude.{◌≡◌, ◌<◌, length, OnOk};
ghost use Rattle.conn_table.specs.Growing.{grown_at};

use crate::conns::{Conn, Member, Members};
use crate::entries::Entry;
use crate::last_connections::{Current, LastConnections};
use crate::pair_keys::PairKeys;
use std::alloc::{AllocError, Global};

/// The connections of the first segments of a capture, the last one of each pair, and the number of unopened segments.
#[derive(Drop)]
pub(crate) struct Growth {
    pub(crate) conns: Vec<Conn>,
    pub(crate) last_connections: LastConnections,
    pub(crate) unopened: u64,
    /// The number of members for which a new connection gets room.
    pub(crate) room: usize,
}

impl Growth {
    ghost use Rattle.std.specs.Prelude.{◌≡◌, ◌+◌, ◌<◌, ◌^◌, List, [], ◌∷◌, ◌++◌, length, IfOk, OnOk, true};
    ghost use Rattle.conn_table.specs.declared.entries.Entry.{Entry};
    ghost use Rattle.conn_table.specs.LastConnections.{IsLasts};
    ghost use Rattle.conn_table.specs.Entries.{kept_by};
    ghost use Rattle.conn_table.specs.KeptSegments.{opens};
    ghost use Rattle.conn_table.specs.Growing.{conn_with, grown_at, grown_with, member_from, shown_by, HasGrown, IsReady};

    // No connections yet, but room: for a connection of each opening, with as many members as there are segments for an opening.
    pub(crate) fn of_none(alloc: Global, ranges: &[Vec<Entry>]) -> Result<Growth, AllocError>
        ensures { IfOk result (HasGrown []) }
    {
        let (keys, openings) = PairKeys::of_openings(ranges);
        Ok(Growth {
            conns: Vec::with_capacity(alloc, openings)?,
            last_connections: LastConnections::with_room(alloc, keys, openings)?,
            unopened: 0,
            room: segments_in(ranges).div_ceil(openings.max(1)),
        })
    }

    pub(crate) fn take_all(&mut self, alloc: Global, range: &[Entry]) -> Result<(), AllocError>
        requires { (done : List Entry) × HasGrown done self.old × (length done + length range.now < 2 ^ 31) }
        ensures { OnOk result ((done : List Entry) → HasGrown done self.old → HasGrown (done ++ range.now) self.new) }
    {
        for entry in range {
            self.take(alloc, entry)?;
        }
        Ok(())
    }

    pub(crate) fn take(&mut self, alloc: Global, entry: &Entry) -> Result<(), AllocError>
        requires { IsReady self.old }
        ensures shown { OnOk result (shown_by self.new ≡ grown_with (shown_by self.old) (kept_by entry.now)) }
        ensures last_connections { OnOk result (IsLasts self.new.last_connections) }
    {
        if entry.opens() {
            return self.take_opening(alloc, entry);
        }
        if let Some(last) = self.last_connections.last_of(entry.pair()) {
            return self.take_member(entry, last);
        }
        self.unopened += 1;
        Ok(())
    }

    // Most openings begin a connection, so the pair is put into the table without a look-up. A repeat puts the last connection back.
    fn take_opening(&mut self, alloc: Global, entry: &Entry) -> Result<(), AllocError>
        requires ready { IsReady self.old }
        requires opens { opens (kept_by entry.now) ≡ true }
        ensures shown { OnOk result (shown_by self.new ≡ grown_with (shown_by self.old) (kept_by entry.now)) }
        ensures last_connections { OnOk result (IsLasts self.new.last_connections) }
    {
        let pair = entry.pair();
        let opening = entry.opening();
        let number = self.conns.len() as u32;
        let last = self
            .last_connections
            .put(pair, Current { number, opening })?;
        match last {
            Some(last) if last.opening.is_same(opening) => {
                self.last_connections.put(pair, last)?;
                self.take_member(entry, last)?;
            }
            _ => self.begin(alloc, entry, number)?,
        }
        Ok(())
    }

    fn take_member(&mut self, entry: &Entry, last: Current) -> Result<(), AllocError>
        requires { last.number < length self.old.conns.items }
        ensures conns { OnOk result (self.new.conns.items
            ≡ grown_at last.number (member_from last.opening.from_low (kept_by entry.now)) self.old.conns.items) }
        ensures last_connections { OnOk result (self.new.last_connections ≡ self.old.last_connections) }
        ensures unopened { OnOk result (self.new.unopened ≡ self.old.unopened) }
    {
        let member = entry.member_of(last.opening.from_low);
        add_member(&mut self.conns, last.number as usize, member)
    }

    fn begin(&mut self, alloc: Global, entry: &Entry, number: u32) -> Result<(), AllocError>
        ensures conns { OnOk result (self.new.conns.items ≡ self.old.conns.items ++ conn_with number (kept_by entry.now) ∷ []) }
        ensures last_connections { OnOk result (self.new.last_connections ≡ self.old.last_connections) }
        ensures unopened { OnOk result (self.new.unopened ≡ self.old.unopened) }
    {
        let pair = entry.pair();
        let from_low = entry.member.from_client;
        self.conns.push(Conn {
            number,
            opening: entry.member.index,
            opened: entry.member.at,
            vlan: pair.vlan,
            client: pair.sender(from_low),
            server: pair.receiver(from_low),
            members: Members::of_first(alloc, self.room, entry.member_of(from_low))?,
        })?;
        Ok(())
    }
}

fn segments_in(ranges: &[Vec<Entry>]) -> usize {
    let mut count = 0usize;
    for range in ranges {
        count = count.saturating_add(range.len());
    }
    count
}

fn add_member(conns: &mut Vec<Conn>, number: usize, member: Member) -> Result<(), AllocError>
    requires { number < length conns.old.items }
    ensures { OnOk result (conns.new.items ≡ grown_at number member conns.old.items) }
{
    conns[number].members.push(member)?;
    Ok(())
}
