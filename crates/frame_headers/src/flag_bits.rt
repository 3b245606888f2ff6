//! The flags byte of a TCP header.
ghost use Rattle.std.specs.Prelude.{◌≡◌, ℕ, bit_or, [], ◌∷◌};
ghost use Rattle.frame_headers.specs.Flags.{fin_flag, syn_flag, rst_flag, psh_flag, ack_flag, has_flag};

use std::marker::Model;

/// The flags byte of a TCP header (RFC 9293 section 3.1), all eight bits. Contracts see it as a number.
#[derive(Clone, Copy, Debug, PartialEq, Eq, PartialOrd, Ord, Hash)]
pub struct Flags {
    bits: u8,
}

impl Model for Flags {
    ghost Value = { ℕ };

    ghost view = { λ f. f.bits };

    ghost inverse = { λ n. record { bits = n } };
}

impl Flags {
    /// The sender has no more bytes.
    pub const FIN: Flags = Flags { bits: 0x01 };
    /// The sequence number opens a connection.
    pub const SYN: Flags = Flags { bits: 0x02 };
    /// The connection is reset.
    pub const RST: Flags = Flags { bits: 0x04 };
    /// The receiver is to be given the bytes so far.
    pub const PSH: Flags = Flags { bits: 0x08 };
    /// The acknowledgment number counts.
    pub const ACK: Flags = Flags { bits: 0x10 };

    /// The flags that have a name here, from the lowest bit on. Nothing calls it: its clause ties the constants to their definitions.
    pub fn named() -> [Flags; 5]
        ensures { result ≡ fin_flag ∷ syn_flag ∷ rst_flag ∷ psh_flag ∷ ack_flag ∷ [] }
    {
        [Self::FIN, Self::SYN, Self::RST, Self::PSH, Self::ACK]
    }

    /// The flags of a flags byte, of which no bit is lost.
    pub fn of(byte: u8) -> Self
        ensures { result ≡ byte }
    {
        Flags { bits: byte }
    }

    /// The flags byte.
    pub fn bits(self) -> u8
        ensures { result ≡ self }
    {
        self.bits
    }

    /// Whether each bit of `flag` is set.
    pub fn has(self, flag: Flags) -> bool
        ensures { result ≡ has_flag self flag }
    {
        let common = self.bits & flag.bits;
        common == flag.bits
    }

    /// These flags and those of `more`.
    pub fn with(self, more: Flags) -> Self
        ensures { result ≡ bit_or self more }
    {
        Flags {
            bits: self.bits | more.bits,
        }
    }
}
