//! Random words by a key.
ghost use Rattle.std.specs.Prelude.{◌≡◌, ◌<◌, ℕ, ◌+◌, ◌^◌};
ghost use Rattle.toxic_defs.specs.RandomWords.{word_of, stream_of, StandsAt};
ghost use Rattle.toxic_defs.specs.declared.words.Key.{Key as KeyOf};

use rand_core::utils::NextWord;
use rand_pcg::Lcg64Xsh32;

/// What decides the random words of a toxic.
#[derive(Clone, Copy, Debug, PartialEq, Eq)]
pub struct Key {
    /// The seed of the run.
    pub seed: u64,
    /// The number of the scenario.
    pub s: u32,
    /// The number of the connection.
    pub c: u32,
    /// The direction: 0 up, 1 down.
    pub d: u8,
    /// The number of the toxic in its direction.
    pub t: u8,
}

#[derive(Clone, Copy)]
pub(crate) enum Direction {
    /// From the client to the server.
    Up,
    /// From the server to the client.
    Down,
}

impl Direction {
    ghost use Rattle.std.specs.Prelude.{◌≡◌};
    ghost use Rattle.toxic_defs.specs.RandomWords.{direction_number};

    pub(crate) fn number(self) -> u8
        ensures { result ≡ direction_number self }
    {
        match self {
            Direction::Up => 0,
            Direction::Down => 1,
        }
    }
}

/// Word `k` of a key, counted from 0: the same whatever else is drawn, and in any order.
pub fn word(key: Key, k: u32) -> u32
    ensures { result ≡ word_of key k }
{
    let mut words = generator(&key, u64::from(k));
    words.next_word()
}

fn generator(key: &Key, k: u64) -> Lcg64Xsh32
    ensures { StandsAt result key.now k }
{
    let mut words = Lcg64Xsh32::new(key.seed, stream(key));
    words.advance(k);
    words
}

fn stream(key: &Key) -> u64
    ensures stream { result ≡ stream_of key.now }
    ensures small { result < 2 ^ 63 }
{
    u64::from(key.s) * (1 << 30) + u64::from(key.c) * 16 + u64::from(key.d) * 8 + u64::from(key.t)
}

/// The words of a key in turn, from word 1 on: one step of the generator for each.
#[derive(Drop)]
pub(crate) struct Draws {
    words: Lcg64Xsh32,
}

impl Draws {
    pub(crate) fn of(key: Key) -> Draws
        ensures { StandsAt result.words key 1 }
    {
        Draws {
            words: generator(&key, 1),
        }
    }

    pub(crate) fn next(&mut self) -> u32
        ensures word { (key : KeyOf) (k : ℕ) → StandsAt self.old.words key k → result ≡ word_of key k }
        ensures next { (key : KeyOf) (k : ℕ) → StandsAt self.old.words key k → StandsAt self.new.words key (k + 1) }
    {
        self.words.next_word()
    }
}
