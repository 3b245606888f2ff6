//! Boards, which hand each number out once, to whoever claims.
ghost use Rattle.std.specs.Prelude.{◌≡◌, ◌≢◌, ◌+◌, ◌<◌, ◌≤◌, ℕ, true, false, [], ◌∷◌, ◌++◌, IfOk, IfErr, IfSome, IfNone, OnErr};
ghost use Rattle.job_matrix.specs.Counting.{times, CountsBelow};
ghost use Rattle.job_matrix.specs.Boards.{number_limit, pass_limit, worth};

use crate::rules::{BoardRule, Claim, MakePass, SeatView, TakeBack};
use atomic_table::{Seat, Table};
use std::alloc::{AllocError, Global};
use std::marker::Model;
use thiserror::Error;

// The most passes that a board's chief makes.
const PASS_LIMIT: u64 = 1 << 16;

/// Why no pass is made.
#[derive(Clone, Copy, Debug, PartialEq, Eq, Drop, Error)]
pub enum SplitFault {
    #[error("65536 passes were made already")]
    TooManyPasses,
}

/// Hands out the numbers below a limit, each once. Any thread may claim, and none waits for another.
#[derive(Drop)]
pub struct Board {
    table: Table<u8, SeatView, u64, BoardRule, Global>,
    limit: u64,
}

impl Model for Board {
    ghost use Rattle.std.specs.Prelude.{◌≡◌, ◌≤◌};
    ghost use Rattle.job_matrix.specs.Boards.{BoardView, number_limit};

    ghost Value = { BoardView };

    ghost view = { λ b. record { name = b.table.shared.table_id; limit = b.limit } };

    ghost invariant = { λ b. (b.table.shared.table_id.words ≡ 1) × (b.table.shared.table_id.slots ≡ 0)
        × (b.table.shared.key ≡ b.limit) × (b.limit ≤ number_limit) };
}

/// Makes the passes of a board and takes them back. Contracts see the numbers of all passes that came back.
#[derive(Drop)]
pub struct Chief {
    seat: Seat<u8, SeatView>,
    made: u64,
    // It saturates, although no chief gets that far.
    back: u64,
}

impl Model for Chief {
    ghost use Rattle.std.specs.Prelude.{◌≡◌, ◌-◌, ◌≤◌, ◌^◌, [], min};
    ghost use Rattle.job_matrix.specs.Boards.{ChiefView, limit_of, jobs_of, back_of, told_of, pass_limit};
    ghost use Rattle.job_matrix.specs.declared.rules.SeatView.TheVariants.{Leads};

    ghost Value = { ChiefView };

    ghost view = { λ c. record {
      board = record { name = c.seat.table_id; limit = limit_of c.seat.me.0 };
      jobs = jobs_of c.seat.me.0;
      made = c.made;
      back = back_of c.seat.me.0;
      told = told_of c.seat.me.0;
    } };

    ghost invariant = { λ c.
        (c.seat.me ≡ (Leads (limit_of c.seat.me.0) c.made (back_of c.seat.me.0) (told_of c.seat.me.0) (jobs_of c.seat.me.0), []))
        × (c.back ≡ min (back_of c.seat.me.0) (2 ^ 64 - 1)) × (c.made ≤ pass_limit) };
}

/// The right to claim numbers of a board. Contracts see the numbers that it claimed.
#[derive(Drop)]
pub struct Pass {
    seat: Seat<u8, SeatView>,
    told: bool,
}

impl Model for Pass {
    ghost use Rattle.std.specs.Prelude.{◌≡◌, []};
    ghost use Rattle.job_matrix.specs.Boards.{PassView, limit_of, jobs_of, worth};
    ghost use Rattle.job_matrix.specs.declared.rules.SeatView.TheVariants.{Claims};

    ghost Value = { PassView };

    ghost view = { λ p. record {
      board = record { name = p.seat.table_id; limit = limit_of p.seat.me.0 };
      jobs = jobs_of p.seat.me.0;
      told = p.told;
    } };

    ghost invariant = { λ p. p.seat.me ≡ (Claims (limit_of p.seat.me.0) (worth p.told) (jobs_of p.seat.me.0), []) };
}

impl Board {
    /// Opens a board of the numbers below `limit`, at most 2^63, and returns it with its chief.
    pub fn open(alloc: Global, limit: u64) -> Result<(Board, Chief), AllocError>
        requires { limit ≤ number_limit }
        ensures limit { IfOk result (λ r. r.0.limit ≡ limit) }
        ensures chief { IfOk result (λ r. r.1 ≡ record { board = r.0; jobs = []; made = 0; back = 0; told = 0 }) }
    {
        let (table, seat) = Table::of_words(alloc, &[0], &limit)?;
        let chief = Chief {
            seat,
            made: 0,
            back: 0,
        };
        Ok((Board { table, limit }, chief))
    }

    /// Claims the least number that nobody has claimed, or returns `None` if none is left. It allocates nothing and waits for nobody.
    pub fn claim(&self, pass: &mut Pass) -> Option<u64>
        requires { pass.old.board ≡ self.now }
        ensures board { pass.new.board ≡ self.now }
        ensures within { IfSome result (λ job. job < self.now.limit) }
        ensures some { IfSome result (λ job. (pass.new.jobs ≡ pass.old.jobs ++ job ∷ []) × (pass.new.told ≡ false)) }
        ensures above { IfSome result (λ job. (x : ℕ) → job ≤ x → times x pass.old.jobs ≡ 0) }
        ensures none { IfNone result ((pass.new.jobs ≡ pass.old.jobs) × (pass.new.told ≡ true)) }
        ensures again { pass.old.told ≡ true → pass.new ≡ pass.old }
    {
        if pass.told {
            return None;
        }
        let found = self.table.shared.fetch_add::<Claim>(&mut pass.seat, 0, 1);
        if found < self.limit {
            Some(found)
        } else {
            pass.told = true;
            None
        }
    }

    /// Closes the board and returns how many numbers were claimed: the chief's numbers are those below, each once.
    /// If a pass is out, it returns the board and the chief as they were. A dropped pass is out for good.
    pub fn close(self, chief: Chief) -> Result<u64, (Board, Chief)>
        requires { chief.board ≡ self }
        ensures back { IfOk result (λ count. chief.made ≡ chief.back) }
        ensures once { IfOk result (λ count. CountsBelow count (λ x. times x chief.jobs)) }
        ensures within { IfOk result (λ count. count ≤ self.limit) }
        ensures all { IfOk result (λ count. 0 < chief.told → count ≡ self.limit) }
        ensures err { IfErr result (λ r. (chief.made ≢ chief.back) × (r.0 ≡ self) × (r.1 ≡ chief)) }
    {
        if chief.made != chief.back {
            return Err((self, chief));
        }
        let Board { table, limit } = self;
        let Chief { seat, .. } = chief;
        let closed = table.close_with(seat);
        let next = closed.word(0);
        closed.free();
        Ok(next.min(limit))
    }
}

impl Chief {
    /// Makes a new pass, or returns `TooManyPasses` if 65,536 were made, whether or not they came back. It allocates nothing.
    pub fn split(&mut self, board: &Board) -> Result<Pass, SplitFault>
        requires { self.old.board ≡ board.now }
        ensures chief { IfOk result (λ p. self.new ≡ record self.old { made = self.old.made + 1 }) }
        ensures pass { IfOk result (λ p. p ≡ record { board = board.now; jobs = []; told = false }) }
        ensures few { IfOk result (λ p. self.old.made < pass_limit) }
        ensures err { OnErr result ((self.old.made ≡ pass_limit) × (self.new ≡ self.old)) }
    {
        if self.made >= PASS_LIMIT {
            return Err(SplitFault::TooManyPasses);
        }
        let seat = board.table.shared.split_seat::<MakePass>(&mut self.seat);
        self.made += 1;
        Ok(Pass { seat, told: false })
    }

    /// Takes a pass back, with the numbers that it claimed. It allocates nothing.
    pub fn take_back(&mut self, board: &Board, pass: Pass)
        requires chief { self.old.board ≡ board.now }
        requires pass { pass.board ≡ board.now }
        ensures { self.new
            ≡ record self.old { jobs = self.old.jobs ++ pass.jobs; back = self.old.back + 1; told = self.old.told + worth pass.told } }
    {
        let Pass { seat, .. } = pass;
        board
            .table
            .shared
            .join_seat::<TakeBack>(&mut self.seat, seat);
        self.back = self.back.saturating_add(1);
    }
}
