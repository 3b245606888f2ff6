//! What the seats of a board's table know, its rule, and its kinds of step.
use atomic_table::{Join, Play, Split, TableRule};
use std::collections::LinkedList;

/// What a seat of a board knows. No value of it is made.
pub enum SeatView {
    /// The chief: the limit, counts of passes made, back, and told that no number is left, and the numbers of passes that came back.
    Leads(u64, u64, u64, u64, LinkedList<u64>),
    /// A pass: the limit, 1 if it was told that no number is left (else 0), and its numbers.
    Claims(u64, u64, LinkedList<u64>),
    /// A pass that came back.
    Spent,
}

/// The rule of a board, which is told the board's limit.
pub struct BoardRule;

impl TableRule<u8, SeatView, u64> for BoardRule {
    ghost use Rattle.std.specs.Prelude.{[]};
    ghost use Rattle.job_matrix.specs.Boards.{Fair};
    ghost use Rattle.job_matrix.specs.declared.rules.SeatView.TheVariants.{Leads};

    ghost holds = { Fair };

    ghost first = { λ n. Leads n 0 0 0 [] };
}

pub(crate) struct Claim;

impl Play<u8, SeatView> for Claim {
    ghost use Rattle.job_matrix.specs.Boards.{Claimed};

    ghost then = { λ s. Claimed };
}

pub(crate) struct MakePass;

impl Split<SeatView> for MakePass {
    ghost use Rattle.job_matrix.specs.Boards.{after_split, new_pass};

    ghost left = { after_split };

    ghost right = { new_pass };
}

pub(crate) struct TakeBack;

impl Join<SeatView> for TakeBack {
    ghost use Rattle.job_matrix.specs.Boards.{after_join};
    ghost use Rattle.job_matrix.specs.declared.rules.SeatView.TheVariants.{Spent};

    ghost both = { after_join };

    ghost spent = { Spent };
}
