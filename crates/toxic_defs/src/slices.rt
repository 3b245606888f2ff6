//! The slices of a line's chunks, as a slicer and a bandwidth make them: their sizes, and the cuts.
ghost use Rattle.std.specs.Prelude.{◌≡◌, ◌≤◌, ◌<◌, ◌++◌, [], ℕ, ◌+◌, IfOk, OnOk};
ghost use Rattle.reassembly.specs.LineView.{bytes_of_part, bytes_of_parts};
ghost use Rattle.toxic_defs.specs.RandomWords.{word_of};
ghost use Rattle.toxic_defs.specs.Limits.{greatest_attribute};
ghost use Rattle.toxic_defs.specs.Slicer.{slice_size};
ghost use Rattle.toxic_defs.specs.Slices.{sliced, AreFilled, IsFilled, AreSized, GivesSizes, CutOn};

use crate::drawn_numbers::Spread;
use crate::words::Key;
use reassembly::LinePart;
use std::alloc::{AllocError, Global};
use std::slice;

/// The sizes of a line's slices, one after another: a least one, and a number above it that is drawn for each.
#[derive(Drop)]
pub(crate) struct Sizes {
    least: usize,
    numbers: Spread,
}

impl Sizes {
    pub(crate) fn same(size: usize) -> Sizes
        requires some { 0 < size }
        requires small { size ≤ greatest_attribute }
        ensures sizes { GivesSizes result (λ k. size) 0 }
        ensures sized { AreSized result }
    {
        Sizes {
            least: size,
            numbers: Spread::none(),
        }
    }

    pub(crate) fn drawn(key: Key, average: u64, variation: u64) -> Sizes
        requires some { variation < average }
        requires small { average ≤ greatest_attribute }
        ensures sizes { GivesSizes result (slice_size (word_of key) average variation) 0 }
        ensures sized { AreSized result }
    {
        Sizes {
            least: (average - variation) as usize,
            numbers: Spread::of(key, variation),
        }
    }

    pub(crate) fn next(&mut self) -> usize
        requires { AreSized self.old }
        ensures size { (size : ℕ → ℕ) (k : ℕ) → GivesSizes self.old size k → result ≡ size k }
        ensures next { (size : ℕ → ℕ) (k : ℕ) → GivesSizes self.old size k → GivesSizes self.new size (k + 1) }
        ensures some { 0 < result }
        ensures sized { AreSized self.new }
    {
        self.least + self.numbers.next() as usize
    }
}

/// The parts of a line with its chunks cut into slices. Each slice starts a chunk, and has the next size or the rest of its chunk.
pub(crate) fn slice_parts<'a>(
    alloc: Global,
    parts: &[LinePart<'a>],
    sizes: Sizes,
) -> Result<Vec<LinePart<'a>>, AllocError>
    requires { AreSized sizes }
    ensures bytes { (size : ℕ → ℕ) → GivesSizes sizes size 0
        → IfOk result (λ slices. bytes_of_parts slices.items ≡ sliced size 0 0 (bytes_of_parts parts.now)) }
    ensures filled { IfOk result (λ slices. AreFilled slices.items) }
{
    let mut sizes = sizes;
    let mut slices = Vec::with_capacity(alloc, parts.len())?;
    let mut left = 0;
    for part in parts {
        left = slice_part(&mut slices, part, &mut sizes, left)?;
    }
    Ok(slices)
}

// Cuts a part, whose first `left` bytes may go on with the slice before, and returns how many bytes the last slice lacks.
fn slice_part<'a>(
    slices: &mut Vec<LinePart<'a>>,
    part: &LinePart<'a>,
    sizes: &mut Sizes,
    left: usize,
) -> Result<usize, AllocError>
    requires sized { AreSized sizes.old }
    requires filled { AreFilled slices.old.items }
    ensures sized { AreSized sizes.new }
    ensures filled { AreFilled slices.new.items }
    ensures bytes { (size : ℕ → ℕ) (k : ℕ) → GivesSizes sizes.old size k
        → IfOk result (λ more. CutOn size k left (bytes_of_parts slices.old.items) (bytes_of_part part.now)
        sizes.new more (bytes_of_parts slices.new.items) []) }
{
    let mut rest = part.bytes;
    let mut starts = part.starts;
    let mut left = left;
    'slices: while !rest.is_empty() {
        let begins = starts || left == 0;
        if begins {
            left = sizes.next();
        }
        let (slice, after) = rest.split_at(left.min(rest.len()));
        let slice = LinePart {
            at: part.at,
            starts: begins,
            bytes: slice,
        };
        add_part(slices, &slice)?;
        left -= slice.bytes.len();
        rest = after;
        starts = false;
    }
    Ok(left)
}

fn add_part<'a>(parts: &mut Vec<LinePart<'a>>, part: &LinePart<'a>) -> Result<(), AllocError>
    ensures added { OnOk result
        (bytes_of_parts parts.new.items ≡ bytes_of_parts parts.old.items ++ bytes_of_part part.now) }
    ensures filled { AreFilled parts.old.items → IsFilled part.now → AreFilled parts.new.items }
{
    parts.extend_from_slice(slice::from_ref(part))?;
    Ok(())
}
