//! The last connection of each pair, in a map of `indexmap`. Only an opening puts its pair there.
//! Segments of a connection come in bursts, so the pairs that were looked up last stand in a small table beside the map.
ghost use Rattle.std.specs.Prelude.{◌≡◌, ◌<◌};
ghost use Rattle.conn_table.specs.LastConnections.{slot_of, current_in};

use crate::conns::Pair;
use crate::entries::Opening;
use crate::pair_keys::{PairKeys, addrs_word, ports_word};
use indexmap::IndexMap;
use std::alloc::{AllocError, Global};

/// The last connection of a pair: its number, and the opening that begins it.
#[derive(Clone, Copy, Debug)]
pub(crate) struct Current {
    pub(crate) number: u32,
    pub(crate) opening: Opening,
}

#[derive(Clone, Copy, Debug)]
pub(crate) struct Recent {
    pub(crate) pair: Pair,
    pub(crate) current: Current,
}

// The most pairs whose last connection stands in the table of recent ones.
const MOST_SLOTS: usize = 4096;

// The slots for each opening, if they are not too many.
const SLOTS_EACH: usize = 4;

/// The last connection of each pair.
#[derive(Drop)]
pub(crate) struct LastConnections {
    pub(crate) map: IndexMap<Pair, Current, PairKeys>,
    pub(crate) recent: Vec<Option<Recent>>,
}

// A power of two, so that a mask gives a slot, and few slots for a short capture.
fn slots_for(openings: usize) -> usize
    ensures { 0 < result }
{
    (SLOTS_EACH * openings.min(MOST_SLOTS / SLOTS_EACH)).next_power_of_two()
}

// No answer depends on the slot. If pairs share one, more of them are looked up in the map.
#[tactic(auto, unfolding(crate::specs::LastConnections::slot_of))]
fn slot_of(slots: usize, pair: Pair) -> usize
    requires { 0 < slots }
    ensures slot { result ≡ slot_of slots pair }
    ensures within { result < slots }
{
    let mixed = addrs_word(pair)
        .wrapping_add(ports_word(pair))
        .wrapping_mul(0x9e37_79b9_7f4a_7c15);
    (mixed >> 32) as usize & (slots - 1)
}

fn current_in(slot: Option<Recent>, pair: Pair) -> Option<Current>
    ensures { result ≡ current_in slot pair }
{
    match slot {
        Some(recent) => {
            if recent.pair == pair {
                Some(recent.current)
            } else {
                None
            }
        }
        None => None,
    }
}

impl LastConnections {
    ghost use Rattle.std.specs.Prelude.{◌≡◌, None, Some, IfOk, OnOk};
    ghost use Rattle.indexmap.specs.IndexMap.{get, Updates};
    ghost use Rattle.conn_table.specs.IndexedSegments.{same_pair};
    ghost use Rattle.conn_table.specs.LastConnections.{IsLasts};

    pub(crate) fn with_room(
        alloc: Global,
        keys: PairKeys,
        openings: usize,
    ) -> Result<LastConnections, AllocError>
        ensures last_connections { IfOk result IsLasts }
        ensures empty { IfOk result (λ last. (p : _) → get same_pair last.map p ≡ None) }
    {
        Ok(LastConnections {
            map: IndexMap::with_capacity_and_hasher(alloc, openings, keys)?,
            recent: vec![in alloc; None; slots_for(openings)]?,
        })
    }

    pub(crate) fn last_of(&mut self, pair: Pair) -> Option<Current>
        requires { IsLasts self.old }
        ensures last_connections { IsLasts self.new }
        ensures map { self.new.map ≡ self.old.map }
        ensures last { result ≡ get same_pair self.old.map pair }
    {
        let slot = slot_of(self.recent.len(), pair);
        let recent = current_in(self.recent[slot], pair);
        if recent.is_some() {
            return recent;
        }
        let last = self.map.get(&pair).copied();
        if let Some(current) = last {
            self.recent[slot] = Some(Recent { pair, current });
        }
        last
    }

    // Makes `current` the last connection of a pair, and returns the one before it.
    pub(crate) fn put(
        &mut self,
        pair: Pair,
        current: Current,
    ) -> Result<Option<Current>, AllocError>
        requires { IsLasts self.old }
        ensures last { IfOk result (λ last. last ≡ get same_pair self.old.map pair) }
        ensures last_connections { OnOk result (IsLasts self.new) }
        ensures map { OnOk result (Updates same_pair self.old.map self.new.map pair (Some current)) }
    {
        let last = self.map.insert(pair, current)?;
        let slot = slot_of(self.recent.len(), pair);
        self.recent[slot] = Some(Recent { pair, current });
        Ok(last)
    }
}
