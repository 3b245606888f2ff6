//! Worked rows of words, toxics and the session cut: each function does nothing, and its contract is evaluated.
ghost use Rattle.toxic_defs.specs.Rows.{WordRows, RangeRows, ToxicRows, ChainRows, DelayRows, CutRows};

#[tactic(auto, unfolding(crate::specs::SessionCut::cut_line))]
fn cut_rows()
    ensures { CutRows }
{}

fn delay_rows()
    ensures { DelayRows }
{}

#[tactic(auto, unfolding(crate::specs::RandomWords::word_of, crate::specs::RandomWords::state))]
fn word_rows()
    ensures { WordRows }
{}

fn range_rows()
    ensures { RangeRows }
{}

#[tactic(auto, unfolding(crate::specs::RandomWords::word_of, crate::specs::RandomWords::state, crate::specs::Toxics::run))]
fn toxic_rows()
    ensures { ToxicRows }
{}

#[tactic(auto, unfolding(crate::specs::RandomWords::word_of, crate::specs::RandomWords::state, crate::specs::Toxics::run, crate::specs::Toxics::chain))]
fn chain_rows()
    ensures { ChainRows }
{}
