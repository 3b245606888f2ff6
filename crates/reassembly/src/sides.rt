//! One side of a connection, from its members: its line up to the first gap or the counted FIN, and the number of later bytes.
ghost use Rattle.std.specs.Prelude.{◌≡◌, ◌<◌, ◌==◌, ◌||◌, not, length, drop, sum_by, IfOk, All};
ghost use Rattle.reassembly.specs.LineView.{bytes_of_parts, end_view};
ghost use Rattle.reassembly.specs.MemberSpans.{IsInFile, own_members};
ghost use Rattle.reassembly.specs.SideLines.{IsFront, IsSideOf, end_by, fin_of_members, first_from, latest_below, len_of, line_bytes, side_by, side_view, stop_of, without_bytes};
ghost use Rattle.reassembly.specs.Spans.{AreOrdered, first_byte, limit, spans};
ghost use Rattle.pcap_records.specs.CaptureView.{bytes_of};

use crate::line_parts::{End, LinePart, add_part};
use crate::passes::side_patches;
use crate::patches::{Patch, end, front, patch_at};
use crate::positions::{ORIGIN, shifted_end};
use conn_table::Member;
use frame_headers::Flags;
use pcap_records::{FileBytes, Moment};
use std::alloc::{AllocError, Global};

/// One side's line, of the members before the first reset. It ends by `other` unless it reaches its FIN. Its bytes count from `base`; without
/// one no byte has a position.
pub(crate) fn recorded_side<'a>(
    alloc: Global,
    base: Option<u32>,
    from_client: bool,
    members: &[Member],
    file: FileBytes<'a>,
    other: &End,
) -> Result<SideLine<'a>, AllocError>
    requires { All (IsInFile (bytes_of file)) members.now }
    ensures { IfOk result (λ side. IsSideOf base from_client (bytes_of file.entry) members.now (end_view other.now) (side_view side)) }
{
    let Some(base) = base else {
        return Ok(without_base(alloc, *other));
    };
    let patches = side_patches(alloc, base, from_client, members, file)?;
    let fin = first_fin(base, from_client, members);
    side_line(alloc, &patches, fin, *other)
}

fn without_base<'a>(alloc: Global, other: End) -> SideLine<'a>
    ensures { side_view result ≡ without_bytes (end_view other) }
{
    SideLine {
        parts: Vec::new(alloc),
        end: other,
        len: 0,
        lost: 0,
    }
}

#[derive(Clone, Copy)]
pub(crate) struct CountedFin {
    pub position: usize,
    pub at: Moment,
}

// The side's first FIN in the file that stands at position 0 or later.
fn first_fin(base: u32, from_client: bool, members: &[Member]) -> Option<CountedFin>
    ensures { result ≡ fin_of_members base (own_members from_client members.now) }
{
    members
        .iter()
        .filter(|m| m.from_client == from_client)
        .find(|m| m.flags.has(Flags::FIN) && shifted_end(base, m) >= ORIGIN)
        .map(|m| CountedFin {
            position: shifted_end(base, m).saturating_sub(ORIGIN),
            at: m.at,
        })
}

// No position in a line reaches it.
const LIMIT: usize = 1 << 33;

/// One side's line: its parts, end and length, and the number of bytes after it.
#[derive(Drop)]
pub(crate) struct SideLine<'a> {
    pub parts: Vec<LinePart<'a>>,
    pub end: End,
    pub len: usize,
    pub lost: u64,
}

// The line of ordered patches: it ends by `fin` if no byte before that is missing, else by `other`.
fn side_line<'a>(
    alloc: Global,
    patches: &[Patch<'a>],
    fin: Option<CountedFin>,
    other: End,
) -> Result<SideLine<'a>, AllocError>
    requires { AreOrdered 0 (spans patches.now) limit }
    ensures front { IfOk result (λ side. IsFront (first_byte (spans patches.now)) (stop_of fin) side.len) }
    ensures value { IfOk result (λ side. side_view side ≡ side_by (spans patches.now) fin (end_view other) side.len) }
{
    let stop = stop_at(&fin);
    let Front { parts, len, latest } = front_parts(alloc, patches, stop)?;
    let all = count_bytes(patches);
    let lost = (all - len) as u64;
    let end = end_at(len, latest, &fin, &other);
    Ok(SideLine {
        parts,
        end,
        len,
        lost,
    })
}

fn stop_at(fin: &Option<CountedFin>) -> usize
    ensures { result ≡ stop_of fin.now }
{
    match fin {
        Some(fin) => fin.position,
        None => LIMIT,
    }
}

fn end_at(len: usize, latest: Moment, fin: &Option<CountedFin>, other: &End) -> End
    ensures { end_view result ≡ end_by len latest (end_view other.now) fin.now }
{
    match fin {
        Some(fin) if fin.position == len => End::Fin(fin.at.greater(latest)),
        _ => *other,
    }
}

fn count_bytes(patches: &[Patch]) -> usize
    requires { AreOrdered 0 (spans patches.now) limit }
    ensures { result ≡ sum_by len_of (spans patches.now) }
{
    let mut count = 0;
    let mut i = 0;
    'count: while i < patches.len() {
        let patch = patch_at(patches, i);
        count += patch.bytes.len();
        i += 1;
    }
    count
}

/// The parts up to a position, and when the last of their bytes was available.
#[derive(Drop)]
struct Front<'a> {
    pub parts: Vec<LinePart<'a>>,
    pub len: usize,
    pub latest: Moment,
}

// The parts of ordered patches, up to the first gap or to `stop`.
fn front_parts<'a>(
    alloc: Global,
    patches: &[Patch<'a>],
    stop: usize,
) -> Result<Front<'a>, AllocError>
    requires { AreOrdered 0 (spans patches.now) limit }
    ensures bytes { IfOk result (λ f. bytes_of_parts f.parts.items ≡ line_bytes (first_byte (spans patches.now)) f.len) }
    ensures front { IfOk result (λ f. IsFront (first_byte (spans patches.now)) stop f.len) }
    ensures latest { IfOk result (λ f. f.latest ≡ latest_below (first_byte (spans patches.now)) f.len) }
{
    let mut parts = Vec::with_capacity(alloc, patches.len())?;
    let mut i = 0;
    let mut len = 0;
    let mut latest = Moment::first();
    'walk: while i < patches.len() && from_at(patches, i) == len && len < stop {
        let patch = front(&patch_at(patches, i), stop);
        let at = latest.greater(patch.at);
        let starts = starts_chunk(len, at, latest);
        let part = LinePart {
            at,
            starts,
            bytes: patch.bytes,
        };
        add_part(&mut parts, &part)?;
        len = end(&patch);
        latest = at;
        i += 1;
    }
    Ok(Front { parts, len, latest })
}

fn from_at(patches: &[Patch], i: usize) -> usize
    requires { i < length patches.now }
    ensures { result ≡ first_from (spans (drop i patches.now)) }
{
    patch_at(patches, i).from
}

// A chunk starts at position 0, and whenever the instant changes.
fn starts_chunk(position: usize, at: Moment, before: Moment) -> bool
    ensures { result ≡ (position == 0 || not (at == before)) }
{
    position == 0 || at != before
}
