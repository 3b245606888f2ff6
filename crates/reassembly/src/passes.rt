//! The patches of a side, in one pass over the connection's members.
ghost use Rattle.std.specs.Prelude.{◌≡◌, ◌≤◌, ℕ, IfOk, All, nat_lt, if◌then◌else◌};
ghost use Rattle.std.specs.Option.{option_or};
ghost use Rattle.reassembly.specs.Spans.{span_of, spans, end_of, limit, byte_in, first_byte, layered_byte, AreOrdered, Taken};
ghost use Rattle.reassembly.specs.MemberSpans.{IsInFile, member_spans, own_members};
ghost use Rattle.pcap_records.specs.CaptureView.{bytes_of};

use crate::overlays::{gather, overlay};
use crate::patches::{Patch, back, end, front, keep};
use crate::positions::patch_of;
use conn_table::Member;
use pcap_records::FileBytes;
use std::alloc::{AllocError, Global};

/// No position is missing from `since` to `high`, the end of all patches so far.
#[derive(Clone, Copy)]
struct Covered {
    since: usize,
    high: usize,
}

/// The patches of one side's members, in order: if several cover a position, the first in the file counts.
pub(crate) fn side_patches<'a>(
    alloc: Global,
    base: u32,
    from_client: bool,
    members: &[Member],
    file: FileBytes<'a>,
) -> Result<Vec<Patch<'a>>, AllocError>
    requires { All (IsInFile (bytes_of file)) members.now }
    ensures same { IfOk result (λ patches. (x : ℕ) → first_byte (spans patches.items) x ≡ first_byte (member_spans base (bytes_of file.entry) (own_members from_client members.now)) x) }
    ensures ordered { IfOk result (λ patches. AreOrdered 0 (spans patches.items) limit) }
{
    let mut whole = Vec::new(alloc);
    let mut late = Vec::new(alloc);
    let mut covered = Covered { since: 0, high: 0 };
    'pass: for member in members {
        if member.from_client == from_client {
            let patch = patch_of(base, member, file);
            covered = take(&mut whole, &mut late, covered, &patch)?;
        }
    }
    settle(alloc, whole, &late, covered)
}

// Puts the part from `high` on after the others; if the patch may fill an earlier gap, its part below `high` goes among the late ones.
fn take<'a>(
    whole: &mut Vec<Patch<'a>>,
    late: &mut Vec<Patch<'a>>,
    covered: Covered,
    patch: &Patch<'a>,
) -> Result<Covered, AllocError>
    requires near { end_of (span_of patch.now) ≤ limit }
    requires state { Taken (spans whole.old.items) (spans late.old.items) covered.since covered.high }
    ensures state { IfOk result (λ covered. Taken (spans whole.new.items) (spans late.new.items) covered.since covered.high) }
    ensures same { IfOk result (λ covered. (x : ℕ) → layered_byte (spans whole.new.items) (spans late.new.items) x ≡ option_or (layered_byte (spans whole.old.items) (spans late.old.items) x) (byte_in (span_of patch.now) x)) }
{
    if patch.bytes.is_empty() {
        return Ok(covered);
    }
    if patch.from < covered.since {
        let aside = front(patch, covered.high);
        keep(late, &aside)?;
    }
    let rest = back(patch, covered.high);
    keep(whole, &rest)?;
    let since = covered_since(patch.from, covered);
    Ok(Covered {
        since,
        high: covered.high.max(end(patch)),
    })
}

fn covered_since(from: usize, covered: Covered) -> usize
    ensures { result ≡ (if nat_lt covered.high from then from else covered.since) }
{
    if from > covered.high {
        from
    } else {
        covered.since
    }
}

// Lays the ordered patches over the late ones.
#[tactic(auto, using(crate::proofs::SpanBytes::ordered_up))]
fn settle<'a>(
    alloc: Global,
    whole: Vec<Patch<'a>>,
    late: &[Patch<'a>],
    covered: Covered,
) -> Result<Vec<Patch<'a>>, AllocError>
    requires { Taken (spans whole.items) (spans late.now) covered.since covered.high }
    ensures same { IfOk result (λ patches. (x : ℕ) → first_byte (spans patches.items) x ≡ layered_byte (spans whole.entry.items) (spans late.now) x) }
    ensures ordered { IfOk result (λ patches. AreOrdered 0 (spans patches.items) limit) }
{
    if late.is_empty() {
        return Ok(whole);
    }
    let lower = gather(alloc, late)?;
    overlay(alloc, &whole, &lower)
}
