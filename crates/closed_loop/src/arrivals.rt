//! When what a line brings comes.
ghost use Rattle.std.specs.Prelude.{◌≡◌, ◌++◌, ◌≤◌, ◌<◌, length, slice_get, map, OnOk, IfOk};
ghost use Rattle.reassembly.specs.LineView.{bytes_of_part, end_view};
ghost use Rattle.closed_loop.specs.Times.{arrival, arrivals, fin_instants, spread, IsCountedFrom};
ghost use Rattle.std.specs.List.{AllWithin};

use reassembly::{End, Line, LinePart};
use std::alloc::{AllocError, Global};
use std::marker::Model;

/// Bytes that come at one time.
#[derive(Clone, Copy, Debug)]
pub(crate) struct Arrival {
    /// How many bytes have come with them.
    pub(crate) upto: u64,
    pub(crate) at: u64,
}

/// When each byte of a line comes, and then its FIN as one byte more.
#[derive(Drop)]
pub(crate) struct Arrivals {
    list: Vec<Arrival>,
}

impl Model for Arrivals {
    ghost use Rattle.std.specs.Prelude.{List};
    ghost use Rattle.closed_loop.specs.declared.arrivals.Arrival.{Arrival};
    ghost use Rattle.closed_loop.specs.Times.{IsCountedFrom};

    ghost Value = { List Arrival };

    ghost view = { λ a. a.list.items };

    ghost invariant = { λ a. IsCountedFrom 0 a.list.items };
}

/// How many runs have passed, and how many bytes with them.
#[derive(Clone, Copy)]
pub(crate) struct Passed {
    pub(crate) runs: usize,
    pub(crate) count: u64,
}

impl Arrivals {
    ghost use Rattle.std.specs.Prelude.{◌≡◌, ◌++◌, ◌≤◌, ◌<◌, ◌+◌, ◌^◌, ℕ, [], true, false, nat_lt, replicate, length, get_or, IfOk, OnOk};
    ghost use Rattle.closed_loop.specs.declared.arrivals.Arrival.{Arrival};
    ghost use Rattle.std.specs.List.{prefix_len};
    ghost use Rattle.closed_loop.specs.Times.{arrival, spread, count_from, IsPassed};

    fn none(alloc: Global, room: usize) -> Result<Arrivals, AllocError>
        ensures { IfOk result (λ a. a ≡ []) }
    {
        let list = Vec::with_capacity(alloc, room)?;
        Ok(Arrivals { list })
    }

    // Adds bytes that come at one time; or nothing, out of memory.
    fn push(&mut self, count: usize, at: u64) -> Result<(), AllocError>
        ensures { OnOk result (spread self.new ≡ spread self.old ++ replicate count at) }
    {
        if count == 0 {
            return Ok(());
        }
        let Some(upto) = self.count().checked_add(count as u64) else {
            return Err(AllocError);
        };
        self.list.push(Arrival { upto, at })?;
        Ok(())
    }

    // How many bytes come.
    #[tactic(auto, using(crate::proofs::Runs::counted_last))]
    fn count(&self) -> u64
        ensures { result ≡ count_from 0 self.now }
    {
        match self.list.last() {
            Some(last) => last.upto,
            None => 0,
        }
    }

    /// When the first `count` bytes have come.
    pub(crate) fn arrival(&self, count: u64) -> Option<u64>
        ensures { result ≡ arrival (spread self.now) count }
    {
        arrival_in(&self.list, count)
    }

    /// The runs up to the first that does not come before `number`; the first `from` runs do.
    pub(crate) fn passed(&self, from: usize, number: u64) -> Passed
        requires { IsPassed self.now from number }
        ensures runs { IsPassed self.now result.runs number }
        ensures count { result.count ≡ prefix_len (λ by. nat_lt by number) (spread self.now) }
    {
        let mut runs = from;
        'runs: while self.is_before(runs, number) {
            runs += 1;
        }
        let count = self.count_to(runs);
        Passed { runs, count }
    }

    // Whether there is a run `i`, which comes before `number`.
    fn is_before(&self, i: usize, number: u64) -> bool
        ensures within { result ≡ true → i < length self.now }
        ensures room { result ≡ true → i + 1 < 2 ^ 64 }
        ensures yes { result ≡ true → (d : Arrival) → (get_or self.now i d).at < number }
        ensures no { result ≡ false → (d : Arrival) → i < length self.now → number ≤ (get_or self.now i d).at }
    {
        match self.list.get(i) {
            Some(run) => run.at < number,
            None => false,
        }
    }

    // How many bytes come with the first `runs` runs.
    fn count_to(&self, runs: usize) -> u64
        requires { runs ≤ length self.now }
        ensures { (number : ℕ) → IsPassed self.now runs number → ((d : Arrival) → runs < length self.now → number ≤ (get_or self.now runs d).at)
            → result ≡ prefix_len (λ by. nat_lt by number) (spread self.now) }
    {
        let list = &self.list;
        if runs == 0 {
            return 0;
        }
        let last = list[runs - 1];
        last.upto
    }
}

// The first run with which byte number `count` has come.
fn place_of(list: &[Arrival], count: u64) -> usize
    requires { IsCountedFrom 0 list.now }
    ensures within { result ≤ length list.now }
    ensures below { AllWithin (λ a. a.upto < count) list.now 0 result }
    ensures above { AllWithin (λ a. count ≤ a.upto) list.now result (length list.now) }
{
    list.partition_point(|a| a.upto < count)
}

fn run_at(list: &[Arrival], i: usize) -> Option<Arrival>
    ensures { result ≡ slice_get list.now i }
{
    list.get(i).copied()
}

fn arrival_in(list: &[Arrival], count: u64) -> Option<u64>
    requires { IsCountedFrom 0 list.now }
    ensures { result ≡ arrival (spread list.now) count }
{
    if count == 0 {
        return Some(0);
    }
    let place = place_of(list, count);
    match run_at(list, place) {
        Some(run) => Some(run.at),
        None => None,
    }
}

// Appends the bytes of a part.
#[tactic(auto, using(crate::proofs::PartInstants::instants_of_part))]
fn add_part(out: &mut Arrivals, part: &LinePart<'_>) -> Result<(), AllocError>
    ensures { OnOk result (spread out.new ≡ spread out.old ++ map (λ b. b.at) (bytes_of_part part.now)) }
{
    out.push(part.bytes.len(), part.at.count())
}

// Appends a FIN.
fn add_fin(out: &mut Arrivals, end: End) -> Result<(), AllocError>
    ensures { OnOk result (spread out.new ≡ spread out.old ++ fin_instants (end_view end)) }
{
    if let End::Fin(at) = end {
        out.push(1, at.count())?;
    }
    Ok(())
}

/// When each byte of a line comes, and then its FIN.
pub(crate) fn line_arrivals(alloc: Global, line: &Line<'_>) -> Result<Arrivals, AllocError>
    ensures { IfOk result (λ a. spread a ≡ arrivals line.now.line) }
{
    let mut out = Arrivals::none(alloc, line.parts().len() + 1)?;
    for part in line.parts() {
        add_part(&mut out, part)?;
    }
    add_fin(&mut out, line.end())?;
    Ok(out)
}
