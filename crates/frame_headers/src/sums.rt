//! Internet checksums.
ghost use Rattle.std.specs.Prelude.{◌≡◌, ◌+◌, ◌^◌, ◌≤◌, length};
ghost use Rattle.frame_headers.specs.Sum.{folded_sum, words_sum, sum16, tcp_sum};

use crate::layout::TCP_PROTOCOL;
use byteorder::{BigEndian, ByteOrder, LittleEndian};

/// The Internet checksum of the bytes (RFC 1071): the complement of the one's complement sum of their big-endian 16-bit words.
/// An odd last byte is padded with a zero byte. If the bytes hold their own checksum, it is 0.
pub fn checksum(bytes: &[u8]) -> u16
    ensures { result ≡ sum16 bytes.now }
{
    !add_words(0, bytes)
}

/// The checksum of a TCP header and payload with a pseudo header (RFC 9293 section 3.1). If they hold their own checksum, it is 0.
#[inline(never)]
#[tactic(auto, unfolding(crate::specs::Sum::tcp_sum))]
pub fn tcp_checksum(from: u32, to: u32, tcp: &[u8]) -> u16
    requires { length tcp.now ≤ 65535 }
    ensures { result ≡ tcp_sum from to tcp.now }
{
    let pseudo = u64::from(from) + u64::from(to) + u64::from(TCP_PROTOCOL) + tcp.len() as u64;
    !add_few_words(pseudo, tcp)
}

// The same as [`add_words`] if a sum of 64 bits is enough. It adds words with the low byte first, several at once.
// Modulo 65535 such a word times 2^8 is the word with the high byte first (RFC 1071 section 2).
fn add_few_words(start: u64, bytes: &[u8]) -> u16
    requires start { start ≤ 2 ^ 40 }
    requires few { length bytes.now ≤ 65535 }
    ensures { result ≡ folded_sum (start + words_sum bytes.now) }
{
    let mut swapped = 0u64;
    let mut rest = bytes;
    'wide: while rest.len() >= 4 {
        swapped += u64::from(LittleEndian::read_u32(rest));
        rest = &rest[4..];
    }
    add_words(start + 256 * swapped, rest)
}

// Adds 16-bit words to a number, in one's complement. Because 2^16, 2^32 and 2^48 are 1 modulo 65535, it adds 8 bytes a turn and folds once.
fn add_words(start: u64, bytes: &[u8]) -> u16
    ensures { result ≡ folded_sum (start + words_sum bytes.now) }
{
    let mut sum = u128::from(start);
    let mut rest = bytes;
    'wide: while rest.len() >= 8 {
        sum += u128::from(BigEndian::read_u64(rest));
        rest = &rest[8..];
    }
    'words: while let [high, low, tail @ ..] = rest {
        sum += u128::from(u16::from_be_bytes([*high, *low]));
        rest = tail;
    }
    if let [last] = rest {
        sum += 256 * u128::from(*last);
    }
    fold(fold_wide(sum))
}

fn fold_wide(sum: u128) -> u64
    ensures same { folded_sum result ≡ folded_sum sum }
{
    let sum = (sum >> 64) + (sum & 0xffff_ffff_ffff_ffff);
    ((sum >> 32) + (sum & 0xffff_ffff)) as u64
}

fn fold(sum: u64) -> u16
    ensures { result ≡ folded_sum sum }
{
    let sum = (sum >> 32) + (sum & 0xffff_ffff);
    let sum = (sum >> 16) + (sum & 0xffff);
    let sum = (sum >> 16) + (sum & 0xffff);
    ((sum >> 16) + (sum & 0xffff)) as u16
}
