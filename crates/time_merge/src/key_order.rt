//! The segments of many lists by their keys, and their order.
ghost use Rattle.std.specs.Prelude.{◌≡◌, All, IfOk, map};
ghost use Rattle.std.specs.Cmp.{on_total, partial_order_from_total};
ghost use Rattle.std.specs.Cmp.Rules.{comparing};
ghost use Rattle.std.specs.List.{flat_map};
ghost use Rattle.std.specs.Ordering.{as_partial_cmp, eq_by_cmp};
ghost use Rattle.std.proofs.Common.{rules};
ghost use Rattle.segment_writer.specs.KeyLaws.{HasNoKeyTwice};
ghost use Rattle.segment_writer.specs.contracts.framed.SegKeyOrd.TheImpl.Laws.{total-law};
ghost use Rattle.segment_writer.specs.WrittenSegments.{sorted_by_key};
ghost use Rattle.time_merge.specs.KeyedSegments.{all_keyed_segments, ArePlacesInOrder, IsPlace, keyed_cmp, keyed_left, keyed_segments, places_in, segment_at};

use crate::orders::{Order, Place};
use itertools::Itertools;
use segment_writer::Keys;
use std::alloc::{AllocError, Global};
use std::cmp::Ordering;
use std::marker::Model;

// A segment of a list, with the ticks of its moment. Segments are ordered by key: what else a key has is read of segments of one moment only,
// since it lies in the memory of a connection. Contracts see the key.
#[derive(Drop)]
pub(crate) struct KeyedSegment<'l, L: Keys> {
    pub(crate) segments: &'l L,
    pub(crate) ticks: u64,
    pub(crate) list: usize,
    pub(crate) index: usize,
}

impl<'l, L: Keys> Model for KeyedSegment<'l, L> {
    ghost use Rattle.std.specs.Prelude.{◌≡◌, ◌<◌, length, slice_index_or};
    ghost use Rattle.segment_writer.specs.SegmentOutlines.{no_segment};
    ghost use Rattle.time_merge.specs.KeyedSegments.{Keyed};

    ghost Value = { Keyed };

    ghost view = { λ k. record {
      key = (slice_index_or (L.segments k.segments.now) k.index no_segment).key;
      list = k.list;
      index = k.index;
    } };

    ghost invariant = { λ k. (k.index < length (L.segments k.segments.now))
        × (k.ticks ≡ (slice_index_or (L.segments k.segments.now) k.index no_segment).key.moment) };
}

impl<'l, L: Keys> PartialEq for KeyedSegment<'l, L> {
    ghost eq = { eq_by_cmp keyed_cmp };

    ghost laws = { Prim.search (comparing, rules) };

    fn eq(&self, other: &Self) -> bool {
        matches!(self.partial_cmp(other), Some(Ordering::Equal))
    }
}

impl<'l, L: Keys> PartialOrd for KeyedSegment<'l, L> {
    ghost partial_cmp = { as_partial_cmp keyed_cmp };

    ghost laws = { partial_order_from_total (on_total (λ k. k.key) total-law) };

    fn partial_cmp(&self, other: &Self) -> Option<Ordering> {
        match self.ticks.cmp(&other.ticks) {
            Ordering::Equal => {
                let key = other.segments.key(other.index);
                Some(self.segments.key(self.index).cmp(&key))
            }
            order => Some(order),
        }
    }
}

impl<'l, L: Keys> KeyedSegment<'l, L> {
    ghost use Rattle.std.specs.Prelude.{◌≡◌};
    ghost use Rattle.time_merge.specs.KeyedSegments.{place_of};

    pub(crate) fn place(&self) -> Place
        ensures { result ≡ place_of self.now }
    {
        Place {
            list: self.list,
            index: self.index,
        }
    }
}

// The keyed segments of a list from `index` on.
#[derive(Drop)]
pub(crate) struct KeyedSegments<'l, L: Keys> {
    pub(crate) segments: &'l L,
    pub(crate) list: usize,
    pub(crate) index: usize,
}

impl<'l, L: Keys> Iterator for KeyedSegments<'l, L> {
    type Item = KeyedSegment<'l, L>;

    ghost use Rattle.std.specs.Iterator.{YieldsFirst, item_count};
    ghost use Rattle.time_merge.specs.KeyedSegments.{keyed_left};

    ghost next_gives = { YieldsFirst (keyed_left L.segments) };

    ghost remaining = { item_count (keyed_left L.segments) };

    fn next(&mut self) -> Option<KeyedSegment<'l, L>> {
        if self.index >= self.segments.count() {
            return None;
        }
        let keyed = KeyedSegment {
            segments: self.segments,
            ticks: self.segments.ticks(self.index),
            list: self.list,
            index: self.index,
        };
        self.index += 1;
        Some(keyed)
    }
}

fn keyed<L: Keys>(list: usize, segments: &L) -> KeyedSegments<'_, L>
    ensures { keyed_left L.segments result ≡ keyed_segments list 0 (L.segments segments.now) }
{
    KeyedSegments {
        segments,
        list,
        index: 0,
    }
}

// The places of all segments of lists that are in order of key, by key: of one list as they stand, and of several merged.
pub(crate) fn merged_order<L: Keys>(alloc: Global, lists: &[L]) -> Result<Order, AllocError>
    requires sorted { All (λ l. sorted_by_key (L.segments l) ≡ L.segments l) lists.now }
    requires once { HasNoKeyTwice (flat_map L.segments lists.now) }
    ensures stand { IfOk result (λ order. All (IsPlace L.segments lists.now) (places_in order)) }
    ensures order { IfOk result (λ order. map (segment_at L.segments lists.now) (places_in order) ≡ sorted_by_key (flat_map L.segments lists.now)) }
{
    if let [only] = lists {
        return Ok(Order::OfOneList(only.count()));
    }
    Ok(Order::Listed(merged_places(alloc, lists)?))
}

fn merged_places<L: Keys>(alloc: Global, lists: &[L]) -> Result<Vec<Place>, AllocError>
    requires { All (λ l. sorted_by_key (L.segments l) ≡ L.segments l) lists.now }
    ensures { IfOk result (λ places. ArePlacesInOrder (all_keyed_segments L.segments lists.now) places.items) }
{
    let mut places = Vec::with_capacity(alloc, count_in(lists))?;
    let sources = lists.iter().enumerate().map(|(list, l)| keyed(list, l));
    for next in sources.kmerge(alloc)? {
        places.push(next.place())?;
    }
    Ok(places)
}

// The number of all segments, or `usize::MAX` if it is more.
fn count_in<L: Keys>(lists: &[L]) -> usize {
    let mut count = 0usize;
    for l in lists {
        count = count.saturating_add(l.count());
    }
    count
}
