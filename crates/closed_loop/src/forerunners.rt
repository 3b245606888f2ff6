//! The connections that one opens after.
ghost use Rattle.std.specs.Prelude.{◌≡◌, ◌++◌, [], ◌∷◌, ℕ, List, Option, Some, map, length, slice_get, IfOk, OnOk};
ghost use Rattle.closed_loop.specs.declared.forerunners.Forerunners.{Forerunners};
ghost use Rattle.closed_loop.specs.Scripts.{ScriptView};
ghost use Rattle.closed_loop.specs.Openings.{ended_mark, opened_mark, HasMarks, IsLastBefore, AreForerunners};

use crate::scripts::Script;
use std::alloc::{AllocError, Global};
use std::collections::BTreeMap;

/// The numbers of the connections that one opens after.
#[derive(Clone, Copy, Debug)]
pub(crate) struct Forerunners {
    /// The one of its client's address that had ended last before it.
    pub(crate) ended: Option<usize>,
    /// The last one before it of its peers and VLAN.
    pub(crate) ports: Option<usize>,
}

/// The numbers of connections by key and record.
type Marks = BTreeMap<(u128, u64), usize>;

/// Connections by their client and end, and by their ports and opening.
#[derive(Drop)]
struct Marked {
    ended: Marks,
    opened: Marks,
}

fn ended_mark(script: &Script) -> Option<(u128, u64)>
    ensures { result ≡ ended_mark script.now }
{
    match script.ended {
        Some(end) => Some((u128::from(script.client), end)),
        None => None,
    }
}

fn opened_mark(script: &Script) -> Option<(u128, u64)>
    ensures { result ≡ opened_mark script.now }
{
    Some((script.ports, u64::from(script.opening)))
}

// One mark more.
fn put(places: &mut Marks, mark: Option<(u128, u64)>, place: usize) -> Result<(), AllocError>
    ensures { (marks : List (Option (ℕ × ℕ))) → length marks ≡ place → HasMarks marks places.old → OnOk result (HasMarks (marks ++ mark ∷ []) places.new) }
{
    match mark {
        Some(mark) => {
            places.insert(mark, place)?;
            Ok(())
        }
        None => Ok(()),
    }
}

// The place of the last mark with a key before a record.
fn last_before(places: &Marks, key: u128, bound: u64) -> Option<usize>
    ensures { (marks : List (Option (ℕ × ℕ))) → HasMarks marks places.now → IsLastBefore marks key bound result }
{
    match places.range((key, 0)..(key, bound)).next_back() {
        Some((_, place)) => Some(*place),
        None => None,
    }
}

fn marks_of(alloc: Global, scripts: &[Script]) -> Result<Marked, AllocError>
    ensures ended { IfOk result (λ m. HasMarks (map ended_mark scripts.now) m.ended) }
    ensures opened { IfOk result (λ m. HasMarks (map opened_mark scripts.now) m.opened) }
{
    let mut ended = BTreeMap::new(alloc);
    let mut opened = BTreeMap::new(alloc);
    for i in 0..scripts.len() {
        put(&mut ended, ended_mark(&scripts[i]), i)?;
        put(&mut opened, opened_mark(&scripts[i]), i)?;
    }
    Ok(Marked { ended, opened })
}

fn forerunners_in(marked: &Marked, script: &Script) -> Forerunners
    ensures { (scripts : List ScriptView) → HasMarks (map ended_mark scripts) marked.now.ended → HasMarks (map opened_mark scripts) marked.now.opened
        → AreForerunners scripts script.now result }
{
    let opening = u64::from(script.opening);
    Forerunners {
        ended: last_before(&marked.ended, u128::from(script.client), opening),
        ports: last_before(&marked.opened, script.ports, opening),
    }
}

/// The connections that each one opens after.
pub(crate) fn forerunners_of(
    alloc: Global,
    scripts: &[Script],
) -> Result<Vec<Forerunners>, AllocError>
    ensures len { IfOk result (λ forerunners. length forerunners.items ≡ length scripts.now) }
    ensures followed { IfOk result (λ all. (i : ℕ) (p : ScriptView) (y : Forerunners) → slice_get scripts.now i ≡ Some p
        → slice_get all.items i ≡ Some y → AreForerunners scripts.now p y) }
{
    let marked = marks_of(alloc, scripts)?;
    let mut forerunners = Vec::with_capacity(alloc, scripts.len())?;
    for script in scripts {
        forerunners.push(forerunners_in(&marked, script))?;
    }
    Ok(forerunners)
}
