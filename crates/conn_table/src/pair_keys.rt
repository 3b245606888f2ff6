//! How pairs are hashed: by SipHash, which first takes a key that depends on the openings of a capture. Whoever makes a capture can work
//! out its key, but other pairs have another key. Pairs that collide under one key do not under most others.
ghost use Rattle.std.specs.Prelude.{◌≡◌};
ghost use Rattle.conn_table.specs.PairWords.{addrs_word, ports_word};

use crate::conns::Pair;
use crate::entries::Entry;
use sha2::{Digest, Sha512};
use std::hash::{BuildHasher, DefaultHasher, Hash, Hasher};

impl Hash for Pair {
    ghost use Rattle.conn_table.specs.PairWords.{pair_words};
    ghost use Rattle.std.specs.Cmp.Rules.{hashing};
    ghost use Rattle.std.proofs.Common.{rules};

    ghost hash_input = { pair_words };

    ghost respects_eq = { Prim.search (hashing, rules) };

    fn hash<H: Hasher>(&self, state: &mut H) {
        addrs_word(*self).hash(state);
        ports_word(*self).hash(state);
    }
}

#[tactic(auto, unfolding(crate::specs::PairWords::addrs_word))]
pub(crate) fn addrs_word(pair: Pair) -> u64
    ensures { result ≡ addrs_word pair }
{
    (u64::from(pair.low.addr) << 32) + u64::from(pair.high.addr)
}

// The ports side by side, and above them one more than the number of the VLAN, or 0 if there is none.
#[tactic(auto, unfolding(crate::specs::PairWords::ports_word))]
pub(crate) fn ports_word(pair: Pair) -> u64
    ensures { result ≡ ports_word pair }
{
    let vlan = match pair.vlan {
        Some(vlan) => u64::from(vlan) + 1,
        None => 0,
    };
    (vlan << 32) + (u64::from(pair.low.port) << 16) + u64::from(pair.high.port)
}

/// SipHash that begins with a key.
#[derive(Clone, Copy)]
pub(crate) struct PairKeys {
    keyed: DefaultHasher,
}

impl PairKeys {
    // The key is a digest of the openings' pairs in order (SHA-512, FIPS 180-4), since only openings are put into a table.
    // Other pairs for them, or another order, give another key. The number of openings is returned, too.
    pub(crate) fn of_openings(ranges: &[Vec<Entry>]) -> (PairKeys, usize) {
        let mut digest = Sha512::new();
        let mut openings = 0usize;
        for range in ranges {
            for entry in range {
                if entry.opens() {
                    let pair = entry.pair();
                    digest.update(&addrs_word(pair).to_le_bytes()[..]);
                    digest.update(&ports_word(pair).to_le_bytes()[..]);
                    openings = openings.saturating_add(1);
                }
            }
        }
        let key = digest.finalize();
        let mut keyed = DefaultHasher::new();
        keyed.write(&key[..]);
        (PairKeys { keyed }, openings)
    }
}

impl BuildHasher for PairKeys {
    type Hasher = DefaultHasher;

    ghost build_hasher = { λ k. k.keyed };

    fn build_hasher(&self) -> DefaultHasher {
        self.keyed
    }
}
