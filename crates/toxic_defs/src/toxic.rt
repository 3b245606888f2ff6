//! Toxics: a kind and how often it applies, and whether it applies to a connection.
ghost use Rattle.std.specs.Prelude.{◌≡◌};
ghost use Rattle.toxic_defs.specs.Toxics.{made_toxic, applies, IsInRange};

use crate::kinds::Kind;
use crate::limits::MILLION;
use crate::words::{Key, word};
use std::marker::Model;

/// A toxic whose attributes are in range, and to how many of a million connections it applies.
#[derive(Clone, Copy, Debug, PartialEq, Eq)]
pub struct Toxic {
    kind: Kind,
    ppm: u64,
}

impl Model for Toxic {
    ghost use Rattle.toxic_defs.specs.Toxics.{RatedKind, IsInRange};

    ghost Value = { RatedKind };

    ghost view = { λ t. record { kind = t.kind; ppm = t.ppm } };

    ghost inverse = { λ t. record { kind = t.kind; ppm = t.ppm } };

    ghost invariant = { λ t. IsInRange (record { kind = t.kind; ppm = t.ppm }) };
}

impl Toxic {
    /// The toxic, or `None` exactly if an attribute is out of range or `ppm` is over a million.
    pub fn new(kind: Kind, ppm: u64) -> Option<Toxic>
        ensures { result ≡ made_toxic kind ppm }
    {
        if kind.fits() && ppm <= MILLION {
            Some(Toxic { kind, ppm })
        } else {
            None
        }
    }

    /// Its kind, with its attributes.
    pub fn kind(&self) -> Kind
        ensures kind { result ≡ self.now.kind }
        ensures range { IsInRange self.now }
    {
        self.kind
    }

    /// To how many of a million connections it applies.
    pub fn ppm(&self) -> u64
        ensures { result ≡ self.now.ppm }
    {
        self.ppm
    }
}

/// Whether a toxic applies to a connection: word 0 of its key, modulo a million, is below its `ppm`.
pub fn applies(toxic: &Toxic, key: Key) -> bool
    ensures { result ≡ applies toxic.now key }
{
    u64::from(word(key, 0)) % MILLION < toxic.ppm()
}
