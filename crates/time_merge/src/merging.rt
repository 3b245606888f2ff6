//! Merging lists of segments, and the captures of lists.
ghost use Rattle.std.specs.Prelude.{◌≡◌, ◌≤◌, ◌++◌, [], All, IfOk, OnErr, OnOk, length, map};
ghost use Rattle.std.specs.List.{flat_map};
ghost use Rattle.pcap_records.specs.Instants.{ticks_of};
ghost use Rattle.segment_writer.specs.KeyLaws.{HasNoKeyTwice};
ghost use Rattle.segment_writer.specs.WrittenSegments.{sorted_by_key};
ghost use Rattle.time_merge.specs.KeyedSegments.{IsPlace, places_in, segment_at};
ghost use Rattle.time_merge.specs.MergedCapture.{all_segments, capture_in_turn, capture_of};
ghost use Rattle.time_merge.specs.Sinks.{HasFirstPart, IsWritten};

use crate::key_order::merged_order;
use crate::orders::{Order, Place};
use crate::sinks::{CaptureSink, InMemory};
use pcap_records::{FILE_HEADER_LEN, Unit, write_header};
use segment_writer::{Keys, SegList};
use std::alloc::{AllocError, Global};
use std::marker::Model;

/// Merges lists that are in order of key. No segment is copied.
pub fn merge(alloc: Global, lists: Vec<SegList>) -> Result<Merged, AllocError>
    requires sorted { All (λ list. sorted_by_key list ≡ list) lists.items }
    requires once { HasNoKeyTwice (all_segments lists.items) }
    ensures { IfOk result (λ merged. merged ≡ sorted_by_key (all_segments lists.items)) }
{
    let order = merged_order(alloc, &lists)?;
    Ok(Merged { lists, order })
}

/// The segments of some lists in one order. The lists stay as they are.
#[derive(Debug, Drop)]
pub struct Merged {
    lists: Vec<SegList>,
    order: Order,
}

impl Model for Merged {
    ghost use Rattle.std.specs.Prelude.{List, All, map};
    ghost use Rattle.segment_writer.specs.declared.framed.Framed.{Framed};
    ghost use Rattle.time_merge.specs.KeyedSegments.{IsPlace, places_in, segment_at};

    ghost Value = { List Framed };

    ghost view = { λ m. map (segment_at (λ l. l) m.lists.items) (places_in m.order) };

    ghost invariant = { λ m. All (IsPlace (λ l. l) m.lists.items) (places_in m.order) };
}

impl Merged {
    /// The capture of the segments, whose instants count in `unit`. Its memory is allocated at once.
    pub fn capture(&self, alloc: Global, unit: Unit) -> Result<Vec<u8>, AllocError>
        ensures { IfOk result (λ bytes. bytes.items ≡ capture_in_turn (ticks_of unit) self.now) }
    {
        captured(alloc, &self.lists, &self.order, unit)
    }
}

/// Writes the capture of the segments of lists that are in order of key, whose instants count in `unit`, to a sink. What the sink has taken,
/// and after it the returned bytes, are the capture. After an error the sink has a first part of it.
#[tactic(auto, unfolding(crate::specs::MergedCapture::capture_of))]
pub fn write_capture<L: Keys, S: CaptureSink>(
    alloc: Global,
    lists: &[L],
    unit: Unit,
    sink: &mut S,
) -> Result<Vec<u8>, AllocError>
    requires sorted { All (λ l. sorted_by_key (L.segments l) ≡ L.segments l) lists.now }
    requires once { HasNoKeyTwice (flat_map L.segments lists.now) }
    requires empty { S.took sink.old [] }
    ensures written { IfOk result (λ rest. IsWritten (S.took sink.new) rest.items (capture_of (ticks_of unit) (flat_map L.segments lists.now))) }
    ensures first { OnErr result (HasFirstPart (S.took sink.new) (capture_of (ticks_of unit) (flat_map L.segments lists.now))) }
    ensures same { S.place sink.new ≡ S.place sink.old }
{
    let order = merged_order(alloc, lists)?;
    written(Vec::new(alloc), lists, &order, unit, sink)
}

/// The capture of the segments of lists that are in order of key, whose instants count in `unit`. Its memory is allocated at once.
#[tactic(auto, unfolding(crate::specs::MergedCapture::capture_of))]
pub fn merged_capture<L: Keys>(
    alloc: Global,
    lists: &[L],
    unit: Unit,
) -> Result<Vec<u8>, AllocError>
    requires sorted { All (λ l. sorted_by_key (L.segments l) ≡ L.segments l) lists.now }
    requires once { HasNoKeyTwice (flat_map L.segments lists.now) }
    ensures { IfOk result (λ bytes. bytes.items ≡ capture_of (ticks_of unit) (flat_map L.segments lists.now)) }
{
    let order = merged_order(alloc, lists)?;
    captured(alloc, lists, &order, unit)
}

// The capture of the segments at some places in turn.
fn captured<L: Keys>(
    alloc: Global,
    lists: &[L],
    order: &Order,
    unit: Unit,
) -> Result<Vec<u8>, AllocError>
    requires { All (IsPlace L.segments lists.now) (places_in order.now) }
    ensures { IfOk result (λ bytes. bytes.items ≡ capture_in_turn (ticks_of unit) (map (segment_at L.segments lists.now) (places_in order.now))) }
{
    let room = Vec::with_capacity(alloc, capture_len(lists))?;
    written(room, lists, order, unit, &mut InMemory)
}

// Writes the header of a file, and the records of the segments at some places in turn. After each, `sink` is offered what it has not taken.
fn written<L: Keys, S: CaptureSink>(
    batch: Vec<u8>,
    lists: &[L],
    order: &Order,
    unit: Unit,
    sink: &mut S,
) -> Result<Vec<u8>, AllocError>
    requires stand { All (IsPlace L.segments lists.now) (places_in order.now) }
    requires batch { batch.items ≡ [] }
    requires empty { S.took sink.old [] }
    ensures written { IfOk result (λ rest. IsWritten (S.took sink.new) rest.items
        (capture_in_turn (ticks_of unit) (map (segment_at L.segments lists.now) (places_in order.now)))) }
    ensures first { OnErr result (HasFirstPart (S.took sink.new)
        (capture_in_turn (ticks_of unit) (map (segment_at L.segments lists.now) (places_in order.now)))) }
    ensures same { S.place sink.new ≡ S.place sink.old }
{
    let mut batch = batch;
    write_header(&mut batch, unit)?;
    for number in 0..order.len() {
        make_room(&mut batch, lists, order, number)?;
        put_segment(lists, order.place(number), &mut batch)?;
        sink.offer(&mut batch);
    }
    Ok(batch)
}

// The number of records that room is made for at once.
const GROUP_LEN: usize = 64;

// Makes room for the records of a group if one begins. Their segments lie in the memory of as many connections. Asking for all lengths first
// loads this memory, so that it is near at hand once the records are written.
fn make_room<L: Keys>(
    batch: &mut Vec<u8>,
    lists: &[L],
    order: &Order,
    number: usize,
) -> Result<(), AllocError>
    requires stand { All (IsPlace L.segments lists.now) (places_in order.now) }
    requires within { number ≤ length (places_in order.now) }
    ensures { batch.new.items ≡ batch.old.items }
{
    if number % GROUP_LEN != 0 {
        return Ok(());
    }
    batch.reserve(group_len(lists, order, number))
}

// The length of the records of a group that begins with this number.
fn group_len<L: Keys>(lists: &[L], order: &Order, number: usize) -> usize
    requires stand { All (IsPlace L.segments lists.now) (places_in order.now) }
    requires within { number ≤ length (places_in order.now) }
{
    let mut len = 0usize;
    for next in number..order.len().min(number.saturating_add(GROUP_LEN)) {
        let place = order.place(next);
        len = len.saturating_add(lists[place.list].record_len(place.index));
    }
    len
}

// The length of the capture of some lists, or `usize::MAX` if it is more.
fn capture_len<L: Keys>(lists: &[L]) -> usize {
    let mut len = FILE_HEADER_LEN;
    for list in lists {
        len = len.saturating_add(list.written_len());
    }
    len
}

fn put_segment<L: Keys>(lists: &[L], place: Place, out: &mut Vec<u8>) -> Result<(), AllocError>
    requires { IsPlace L.segments lists.now place }
    ensures ok { OnOk result (out.new.items ≡ out.old.items ++ (segment_at L.segments lists.now place).bytes) }
    ensures err { OnErr result (out.new.items ≡ out.old.items) }
{
    lists[place.list].put(place.index, out)
}
