//! Numbers that are drawn about a middle.
ghost use Rattle.std.specs.Prelude.{◌≡◌, ◌≤◌, ℕ, ◌+◌, ◌*◌};
ghost use Rattle.toxic_defs.specs.DrawnNumbers.{drawn, GivesNext};
ghost use Rattle.toxic_defs.specs.Limits.{greatest_attribute};
ghost use Rattle.toxic_defs.specs.declared.words.Key.{Key as KeyOf};

use crate::words::{Draws, Key};

/// Numbers from 0 to twice a spread, by the words of a key from word 1 on. Without a spread each is 0, and no word is drawn.
#[derive(Drop)]
pub(crate) struct Spread {
    draws: Option<Draws>,
    spread: u64,
}

impl Spread {
    pub(crate) fn of(key: Key, spread: u64) -> Spread
        ensures next { GivesNext result key spread 1 }
        ensures spread { result.spread ≡ spread }
    {
        if spread == 0 {
            return Spread::none();
        }
        Spread {
            draws: Some(Draws::of(key)),
            spread,
        }
    }

    pub(crate) fn none() -> Spread
        ensures next { (key : KeyOf) (k : ℕ) → GivesNext result key 0 k }
        ensures spread { result.spread ≡ 0 }
    {
        Spread {
            draws: None,
            spread: 0,
        }
    }

    pub(crate) fn next(&mut self) -> u64
        requires { self.old.spread ≤ greatest_attribute }
        ensures number { (key : KeyOf) (spread k : ℕ) → GivesNext self.old key spread k → result ≡ drawn key spread k }
        ensures next { (key : KeyOf) (spread k : ℕ)
            → GivesNext self.old key spread k → GivesNext self.new key spread (k + 1) }
        ensures small { result ≤ 2 * self.old.spread }
        ensures same { self.new.spread ≡ self.old.spread }
    {
        match &mut self.draws {
            Some(draws) => u64::from(draws.next()) % (2 * self.spread + 1),
            None => 0,
        }
    }
}
