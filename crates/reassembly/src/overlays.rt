//! Ordered lists of patches that do not overlap: one laid over another, and one made of patches in any order.
ghost use Rattle.std.specs.Prelude.{◌≡◌, ◌≤◌, ◌<◌, ◌++◌, None, true, false, ℕ, length, drop, IfOk, IfSome, OnOk};
ghost use Rattle.std.specs.List.Sorted.{IsPermutation};
ghost use Rattle.reassembly.specs.Spans.{spans, limit, first_byte, layered_byte, AreOrdered, AreNear, spans_from};

use crate::patches::{Patch, add, back, end, front, keep, patch_at};
use std::alloc::{AllocError, Global};

/// Lays ordered patches over others: if both cover a position, the left ones count.
pub(crate) fn overlay<'a>(
    alloc: Global,
    left: &[Patch<'a>],
    right: &[Patch<'a>],
) -> Result<Vec<Patch<'a>>, AllocError>
    requires left_ordered { AreOrdered 0 (spans left.now) limit }
    requires right_ordered { AreOrdered 0 (spans right.now) limit }
    ensures same { IfOk result (λ merged. (x : ℕ) → first_byte (spans merged.items) x ≡ layered_byte (spans left.now) (spans right.now) x) }
    ensures ordered { IfOk result (λ merged. AreOrdered 0 (spans merged.items) limit) }
{
    let mut merged = Vec::with_capacity(alloc, left.len().saturating_add(right.len()))?;
    let mut i = 0;
    let mut j = 0;
    let mut floor = 0;
    'merge: while i < left.len() && j < right.len() {
        let upper = patch_at(left, i);
        let lower = back(&patch_at(right, j), floor);
        let upper_end = end(&upper);
        let lower_end = end(&lower);
        let before = front(&lower, upper.from);
        keep(&mut merged, &before)?;
        if lower_end <= upper_end {
            j += 1;
        } else {
            add(&mut merged, &upper)?;
            i += 1;
            floor = upper_end;
        }
    }
    add_all(&mut merged, left, i)?;
    add_rest(&mut merged, right, j, floor)?;
    Ok(merged)
}

fn add_all<'a>(patches: &mut Vec<Patch<'a>>, more: &[Patch<'a>], i: usize) -> Result<(), AllocError>
    requires { i ≤ length more.now }
    ensures { OnOk result (spans patches.new.items ≡ spans patches.old.items ++ spans (drop i more.now)) }
{
    patches.extend_from_slice(&more[i..])?;
    Ok(())
}

fn add_rest<'a>(
    patches: &mut Vec<Patch<'a>>,
    more: &[Patch<'a>],
    j: usize,
    floor: usize,
) -> Result<(), AllocError>
    requires { j ≤ length more.now }
    ensures { OnOk result (spans patches.new.items ≡ spans patches.old.items ++ spans_from floor (spans (drop j more.now))) }
{
    if j < more.len() {
        let first = back(&patch_at(more, j), floor);
        add(patches, &first)?;
        add_all(patches, more, j + 1)?;
    }
    Ok(())
}

/// Orders patches: if several cover a position, the first in the list counts. If none overlap, they are only sorted.
pub(crate) fn gather<'a>(alloc: Global, patches: &[Patch<'a>]) -> Result<Vec<Patch<'a>>, AllocError>
    requires { AreNear (spans patches.now) }
    ensures same { IfOk result (λ gathered. (x : ℕ) → first_byte (spans gathered.items) x ≡ first_byte (spans patches.now) x) }
    ensures ordered { IfOk result (λ gathered. AreOrdered 0 (spans gathered.items) limit) }
{
    if patches.len() > FEW {
        if let Some(sorted) = sorted_apart(alloc, patches)? {
            return Ok(sorted);
        }
    }
    layered(alloc, patches)
}

// Longer parts of a list are not tried by sorting: they mostly have overlaps.
const FEW: usize = 512;

// Orders patches: the earlier half is laid over the later one, each ordered in the same way. A short part without overlaps is only sorted.
fn layered<'a>(alloc: Global, patches: &[Patch<'a>]) -> Result<Vec<Patch<'a>>, AllocError>
    requires { AreNear (spans patches.now) }
    ensures same { IfOk result (λ gathered. (x : ℕ) → first_byte (spans gathered.items) x ≡ first_byte (spans patches.now) x) }
    ensures ordered { IfOk result (λ gathered. AreOrdered 0 (spans gathered.items) limit) }
{
    if patches.len() <= FEW {
        if let Some(sorted) = sorted_apart(alloc, patches)? {
            return Ok(sorted);
        }
    }
    let (earlier, later) = patches.split_at(patches.len() / 2);
    let left = layered(alloc, earlier)?;
    let right = layered(alloc, later)?;
    overlay(alloc, &left, &right)
}

// The patches in order of position, or `None` if some overlap. A single patch is in order.
fn sorted_apart<'a>(
    alloc: Global,
    patches: &[Patch<'a>],
) -> Result<Option<Vec<Patch<'a>>>, AllocError>
    requires { AreNear (spans patches.now) }
    ensures same { IfOk result (λ found. IfSome found (λ v. (x : ℕ) → first_byte (spans v.items) x ≡ first_byte (spans patches.now) x)) }
    ensures ordered { IfOk result (λ found. IfSome found (λ v. AreOrdered 0 (spans v.items) limit)) }
    ensures several { IfOk result (λ found. found ≡ None → 1 < length patches.now) }
{
    let sorted = by_position(alloc, patches)?;
    if is_in_order(&sorted) {
        return Ok(Some(sorted));
    }
    Ok(None)
}

fn by_position<'a>(alloc: Global, patches: &[Patch<'a>]) -> Result<Vec<Patch<'a>>, AllocError>
    ensures { IfOk result (λ sorted. IsPermutation patches.now sorted.items) }
{
    let mut sorted = Vec::from_slice(alloc, patches)?;
    sorted.sort_unstable_by_key(|patch| patch.from);
    Ok(sorted)
}

// Whether no patch begins before the end of the one before it. A single patch is in order.
fn is_in_order(patches: &[Patch]) -> bool
    requires { AreNear (spans patches.now) }
    ensures ordered { result ≡ true → AreOrdered 0 (spans patches.now) limit }
    ensures several { result ≡ false → 1 < length patches.now }
{
    let mut i = 0;
    let mut past = 0;
    'order: while i < patches.len() {
        let patch = patch_at(patches, i);
        if patch.from < past {
            return false;
        }
        past = end(&patch);
        i += 1;
    }
    true
}
