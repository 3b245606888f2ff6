//! Trays put the values of jobs in order, in whatever order they come.
ghost use Rattle.std.specs.Prelude.{◌≡◌, ◌<◌, ℕ, length, map, replicate, Some, None, IfOk, IfErr, IfSome, IfNone, OnOk};
ghost use Rattle.job_matrix.specs.Trays.{IsFree, Has, IsRefused, put_one};

use lists::Values;
use std::alloc::{AllocError, Global};
use std::marker::Model;
use thiserror::Error;

/// Why a tray did not take a value, which is returned.
#[derive(Debug, Drop, Error)]
pub enum PutFault<V> {
    #[error("the tray has no place for this job")]
    Stranger(V),
    #[error("the job's place has a value already")]
    Twice(V),
}

/// A slot for the value of each job below a number. Contracts see the slots in order.
#[derive(Drop)]
pub struct Tray<V: Drop> {
    slots: Vec<Option<V>>,
    // Empty, with room for all values.
    room: Vec<V>,
}

impl<V: Drop> Model for Tray<V> {
    ghost use Rattle.std.specs.Prelude.{◌≡◌, ◌≤◌, List, Option, [], length, vec_capacity};

    ghost Value = { List (Option V) };

    ghost view = { λ t. t.slots.items };

    ghost invariant = { λ t. (t.room.items ≡ []) × (length t.slots.items ≤ vec_capacity t.room) };
}

fn first_free<V>(slots: &[Option<V>]) -> Option<usize>
    ensures some { IfSome result (λ at. IsFree slots.now at × ((k : ℕ) → k < at → (v : V) × Has slots.now k v)) }
    ensures none { IfNone result ((k : ℕ) → k < length slots.now → (v : V) × Has slots.now k v) }
{
    for (at, slot) in slots.iter().enumerate() {
        if slot.is_none() {
            return Some(at);
        }
    }
    None
}

impl<V: Drop> Tray<V> {
    /// Opens a tray for the jobs below `count`, with all the memory that `put` and `finish` need.
    pub fn open(alloc: Global, count: u64) -> Result<Tray<V>, AllocError>
        ensures { IfOk result (λ t. t ≡ replicate count None) }
    {
        let count = count as usize;
        let room = Vec::with_capacity(alloc, count)?;
        let mut slots = Vec::with_capacity(alloc, count)?;
        for _ in 0..count {
            slots.push(None)?;
        }
        Ok(Tray { slots, room })
    }

    /// Puts the value of a job into its slot. If it is refused, the value is returned, and the tray stays as it was.
    pub fn put(&mut self, job: u64, value: V) -> Result<(), PutFault<V>>
        ensures ok { OnOk result (IsFree self.old job) }
        ensures err { IfErr result (λ e. IsRefused self.old job value e × (self.new ≡ self.old)) }
        ensures slots { self.new ≡ put_one self.old job value }
    {
        match self.slots.get(job as usize) {
            None => return Err(PutFault::Stranger(value)),
            Some(Some(_)) => return Err(PutFault::Twice(value)),
            Some(None) => {}
        }
        self.slots[job as usize] = Some(value);
        Ok(())
    }

    /// The values in order of their jobs, or, if one is missing, the tray as it was and the least job without a value.
    pub fn finish(self) -> Result<Values<V>, (Tray<V>, u64)>
        ensures ok { IfOk result (λ v. map Some v ≡ self) }
        ensures err { IfErr result (λ r.
            (r.0 ≡ self) × IsFree self r.1 × ((k : ℕ) → k < r.1 → (v : V) × Has self k v)) }
    {
        if let Some(missing) = first_free(&self.slots) {
            return Err((self, missing as u64));
        }
        let Tray { slots, mut room } = self;
        for slot in slots {
            let Some(value) = slot else { unreachable!() };
            room.push_reserved(value);
        }
        Ok(Values::of(room))
    }
}
