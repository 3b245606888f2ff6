//! Short keys: numbers of 64 bits, which are sorted faster than segments.
ghost use Rattle.std.specs.Prelude.{◌≡◌, ◌<◌, ◌+◌, ℕ, IfOk, IfSome, length, map, true};
ghost use Rattle.segment_writer.specs.OpenRows.{AreShortKeys};
ghost use Rattle.segment_writer.specs.SegmentRows.{segment_key};
ghost use Rattle.segment_writer.specs.ShortKeys.{key_at, number_in, ComesBefore, HasShortKey, HaveShortKeys, IsShortKey};

use crate::framed::{SegKey, is_key_below};
use crate::open_rows::OpenRow;
use crate::row_segments::RowSegment;
use pcap_records::Moment;
use std::alloc::{AllocError, Global};

// The low bits of a short key are the number of its segment in the row. The others are the ticks from the first segment's moment to its own.
const NUMBER_BITS: u32 = 26;

// Each number in a short key is below it, which is 2^26.
const NUMBER_LIMIT: u64 = 1 << NUMBER_BITS;

// The ticks of each short key are below it, which is 2^38.
const TICKS_LIMIT: u64 = 1 << (64 - NUMBER_BITS);

/// The short keys of a row's segments in order of key, if they have any. There must not be too many segments, and none may be before the
/// first one or too late. They must stand in order of connection, turn and place, so that those of one moment do.
pub(crate) fn short_order(
    alloc: Global,
    row: &OpenRow<'_, '_>,
) -> Result<Option<Vec<u64>>, AllocError>
    ensures { IfOk result (λ found. IfSome found (λ short. AreShortKeys row.now short.items)) }
{
    let Some(mut short) = short_keys(alloc, &row.segments)? else {
        return Ok(None);
    };
    short.sort_unstable();
    Ok(Some(short))
}

fn short_keys(
    alloc: Global,
    segments: &[RowSegment<'_, '_>],
) -> Result<Option<Vec<u64>>, AllocError>
    ensures { IfOk result (λ found. IfSome found (λ short. HaveShortKeys (map segment_key segments.now) (length segments.now) short.items)) }
{
    let mut short = Vec::with_capacity(alloc, segments.len())?;
    for number in 0..segments.len() {
        let Some(next) = short_key(segments, number) else {
            return Ok(None);
        };
        short.push(next)?;
    }
    Ok(Some(short))
}

// The short key of the segment with this number, if it has one and comes after the segment before it.
fn short_key(segments: &[RowSegment<'_, '_>], number: usize) -> Option<u64>
    requires { number < length segments.now }
    ensures short { IfSome result (IsShortKey (map segment_key segments.now) number) }
    ensures in_turn { IfSome result (λ _. (i : ℕ) → i + 1 ≡ number → ComesBefore (key_at (map segment_key segments.now) i) (key_at (map segment_key segments.now) number)) }
{
    let (first, at) = (segments[0].moment.count(), segments[number].moment.count());
    if number as u64 >= NUMBER_LIMIT || at < first || at - first >= TICKS_LIMIT {
        return None;
    }
    if number > 0 && !comes_before(&segments[number - 1], &segments[number]) {
        return None;
    }
    Some((at - first) * NUMBER_LIMIT + number as u64)
}

fn comes_before(a: &RowSegment<'_, '_>, b: &RowSegment<'_, '_>) -> bool
    ensures { result ≡ true → ComesBefore (segment_key a.now) (segment_key b.now) }
{
    let (a, b) = (a.key(), b.key());
    let moment = Moment::first();
    is_key_below(&SegKey { moment, ..a }, &SegKey { moment, ..b })
}

/// The number of the segment with this short key.
pub(crate) fn number_in(short: u64) -> usize
    ensures { result ≡ number_in short }
{
    (short % NUMBER_LIMIT) as usize
}

/// The ticks of the moment of the segment with this short key.
pub(crate) fn ticks_in(segments: &[RowSegment<'_, '_>], short: u64) -> u64
    requires { HasShortKey (map segment_key segments.now) short }
    ensures { result ≡ (key_at (map segment_key segments.now) (number_in short)).moment }
{
    segments[0].moment.count() + short / NUMBER_LIMIT
}
