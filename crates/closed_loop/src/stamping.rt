//! The capture with other times.
ghost use Rattle.std.specs.Prelude.{◌≡◌, ◌-◌, ◌*◌, ◌/◌, ◌++◌, ◌<◌, length, map, min, take, drop, IfOk, OnOk};
ghost use Rattle.pcap_records.specs.CaptureView.{contents_of};
ghost use Rattle.pcap_records.specs.Instants.{ticks_of};
ghost use Rattle.pcap_records.specs.Reading.{file_header_len};
ghost use Rattle.closed_loop.specs.Recordings.{field_in, most, stamp_bytes, stamp_at, restamped, raws_of, rest_after, record_at, records_at, capture_by, recorded_times, sent_records, AreInTurn, IsCaptureAt, IsRawOf, IsSource};

use crate::times::instant_in;
use byteorder::{BigEndian, ByteOrder, LittleEndian};
use pcap_records::{Capture, FILE_HEADER_LEN, Moment, Order, RECORD_HEADER_LEN, Unit};
use std::alloc::{AllocError, Global};

/// A capture in raw: its file's header, its records with their headers, and what comes after them.
#[derive(Drop)]
pub(crate) struct RawCapture<'a> {
    head: &'a [u8],
    raws: Vec<&'a [u8]>,
    rest: &'a [u8],
}

// The first `len` bytes, or all if there are fewer, and those after them.
fn parted(bytes: &[u8], len: usize) -> (&[u8], &[u8])
    ensures first { result.0.now ≡ take len bytes.now }
    ensures second { result.1.now ≡ drop len bytes.now }
{
    bytes.split_at(len.min(bytes.len()))
}

/// The raw of a capture with these bytes.
pub(crate) fn raw_of<'a>(
    alloc: Global,
    capture: &Capture<'_>,
    bytes: &'a [u8],
) -> Result<RawCapture<'a>, AllocError>
    requires { capture.now.bytes ≡ bytes.now }
    ensures { IfOk result (IsRawOf capture.now) }
{
    let (head, mut rest) = parted(bytes, FILE_HEADER_LEN);
    let count = capture.records().len();
    let mut raws = Vec::with_capacity(alloc, count)?;
    for i in 0..count {
        let len = RECORD_HEADER_LEN + capture.packet(i).len();
        let (raw, after) = parted(rest, len);
        raws.push(raw)?;
        rest = after;
    }
    Ok(RawCapture { head, raws, rest })
}

fn put_field(out: &mut [u8], order: Order, value: u32)
    requires { length out.old ≡ 4 }
    ensures { out.new ≡ field_in order value }
{
    match order {
        Order::Big => BigEndian::write_u32(out, value),
        Order::Little => LittleEndian::write_u32(out, value),
    }
}

// A number of a field: at most its greatest.
fn field_of(n: u64) -> u32
    ensures { result ≡ min n most }
{
    n.min(u64::from(u32::MAX)) as u32
}

/// The first eight bytes of a record that is sent at a time: seconds, and the ticks over these.
fn stamp_bytes(order: Order, unit: Unit, time: u64) -> [u8; 8]
    ensures { result ≡ stamp_bytes order (ticks_of unit) time }
{
    let ticks = unit.seconds(1);
    let seconds = field_of(time / ticks);
    let over = field_of(time - u64::from(seconds) * ticks);
    let mut stamp = [0; 8];
    let (first, second) = stamp.split_at_mut(4);
    put_field(first, order, seconds);
    put_field(second, order, over);
    stamp
}

fn stamp_at(capture: &Capture<'_>, i: usize) -> u64
    ensures { result ≡ stamp_at capture.now i }
{
    match capture.records().get(i) {
        Some(r) => r.stamp.count(),
        None => 0,
    }
}

/// A time at which a record was recorded, one at which it is sent, and one that is reached before.
#[derive(Clone, Copy)]
struct Moved {
    reached: u64,
    time: u64,
    recorded: u64,
}

// Appends a record; or a part of it, out of memory.
fn put_record(
    out: &mut Vec<u8>,
    capture: &Capture<'_>,
    moved: Moved,
    stamp: u64,
    raw: &[u8],
) -> Result<(), AllocError>
    ensures { OnOk result (out.new.items ≡ out.old.items ++ restamped capture.now moved.reached moved.time moved.recorded stamp raw.now) }
{
    if moved.time == moved.recorded && moved.time == moved.reached.max(stamp) {
        return out.extend_from_slice(raw);
    }
    let stamp = stamp_bytes(capture.order(), capture.unit(), moved.time);
    let (_, after) = parted(raw, stamp.len());
    out.extend_from_slice(&stamp)?;
    out.extend_from_slice(after)
}

/// A capture, its raw, and its recorded times.
#[derive(Clone, Copy)]
pub(crate) struct Source<'s, 'a> {
    pub(crate) capture: &'s Capture<'a>,
    pub(crate) raw: &'s RawCapture<'a>,
    pub(crate) recorded: &'s [Option<u64>],
}

fn put_numbered(
    out: &mut Vec<u8>,
    source: &Source<'_, '_>,
    reached: u64,
    turn: (u64, usize),
) -> Result<(), AllocError>
    requires { IsSource source.now }
    ensures { OnOk result (out.new.items ≡ out.old.items ++ record_at source.now.capture.now reached turn.0 turn.1) }
{
    let (time, i) = turn;
    let Some(raw) = source.raw.raws.get(i) else {
        return Ok(());
    };
    let recorded = instant_in(source.recorded, i as u64);
    let moved = Moved {
        reached,
        time,
        recorded,
    };
    put_record(out, source.capture, moved, stamp_at(source.capture, i), raw)
}

// Appends records that are sent, in this order; or a part of them, out of memory.
fn put_records(
    out: &mut Vec<u8>,
    source: &Source<'_, '_>,
    turns: &[(u64, usize)],
) -> Result<(), AllocError>
    requires { IsSource source.now }
    ensures { OnOk result (out.new.items ≡ out.old.items ++ records_at source.now.capture.now 0 turns.now) }
{
    let mut reached = 0;
    for turn in turns {
        put_numbered(out, source, reached, *turn)?;
        reached = turn.0;
    }
    Ok(())
}

#[tactic(auto, unfolding(crate::specs::Recordings::capture_by))]
fn capture_by(
    alloc: Global,
    source: &Source<'_, '_>,
    turns: &[(u64, usize)],
) -> Result<Vec<u8>, AllocError>
    requires { IsSource source.now }
    ensures { IfOk result (λ file. file.items ≡ capture_by source.now.capture.now turns.now) }
{
    let raw = source.raw;
    let mut file = Vec::with_capacity(alloc, source.capture.bytes().len())?;
    file.extend_from_slice(raw.head)?;
    put_records(&mut file, source, turns)?;
    file.extend_from_slice(raw.rest)?;
    Ok(file)
}

fn sent_records(alloc: Global, times: &[Option<u64>]) -> Result<Vec<(u64, usize)>, AllocError>
    ensures { IfOk result (λ turns. turns.items ≡ sent_records times.now) }
{
    let mut turns = Vec::new(alloc);
    for i in 0..times.len() {
        if let Some(time) = times[i] {
            turns.push((time, i))?;
        }
    }
    Ok(turns)
}

// The records that are sent, in order of time, and of number at one time.
fn turns_of(alloc: Global, times: &[Option<u64>]) -> Result<Vec<(u64, usize)>, AllocError>
    ensures { IfOk result (λ turns. AreInTurn times.now turns.items) }
{
    let mut turns = sent_records(alloc, times)?;
    turns.sort()?;
    Ok(turns)
}

/// The capture with these times.
pub(crate) fn capture_at(
    alloc: Global,
    source: &Source<'_, '_>,
    times: &[Option<u64>],
) -> Result<Vec<u8>, AllocError>
    requires { IsSource source.now }
    ensures { IfOk result (λ file. IsCaptureAt source.now.capture.now times.now file.items) }
{
    let turns = turns_of(alloc, times)?;
    capture_by(alloc, source, &turns)
}

/// When each record was recorded.
pub(crate) fn recorded_times(
    alloc: Global,
    capture: &Capture<'_>,
) -> Result<Vec<Option<u64>>, AllocError>
    ensures { IfOk result (λ times. times.items ≡ recorded_times capture.now) }
{
    let count = capture.records().len();
    let moments = capture.times(alloc, 0, count, Moment::first())?;
    let mut times = Vec::with_capacity(alloc, count)?;
    for moment in &moments {
        times.push(Some(moment.count()))?;
    }
    Ok(times)
}
