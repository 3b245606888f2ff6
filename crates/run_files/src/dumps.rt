//! The text of a capture, as it was loaded or is lent, and dumps: bytes written as hexadecimal digits.
ghost use Rattle.std.specs.Prelude.{◌≡◌, ◌<◌, ◌+◌, ◌*◌, ◌∷◌, [], length, Ok, IfOk, IfSome, MatchOption, count_by, position, if◌then◌else◌, Result};
ghost use Rattle.run_files.specs.{decode_of, is_hex_digit, pair_value, Agrees, Refuses, run_refusal, BeginsWith, HoldsPairs, is_blank, is_foreign, is_dump};
ghost use Rattle.run_files.specs.{dump_reading, without_blanks, bytes_of};

use crate::error::RunFault;
use hex::FromHexError;
use pcap_records::{Blocks, FileBytes};
use std::alloc::{AllocError, Global};
use std::marker::Model;

/// Whether a text is taken for a dump: its first byte is a hexadecimal digit.
pub fn is_dump(text: &[u8]) -> bool
    ensures { result ≡ is_dump text.now }
{
    match text {
        [first, ..] => is_digit(*first),
        [] => false,
    }
}

/// The bytes of a dump: pairs of hexadecimal digits in either case, the higher digit first, with blanks (space, tab, carriage return, line
/// feed) anywhere.
///
/// # Errors
/// [`RunFault::BadDump`] has the place of the first byte that is neither a digit nor a blank. If there is none and the number of digits
/// is odd, the place is the text's length. [`RunFault::Memory`] comes only if the text has no such fault.
pub fn undump(alloc: Global, text: &[u8]) -> Result<Vec<u8>, RunFault>
    ensures { Agrees run_refusal (λ bytes. bytes.items) result (dump_reading text.now) }
{
    match decoded(alloc, text) {
        Ok(bytes) => Ok(bytes),
        Err(_) => Err(dump_fault(text)),
    }
}

fn decoded(alloc: Global, text: &[u8]) -> Result<Vec<u8>, FromHexError>
    ensures { IfOk result (λ bytes. decode_of (without_blanks text.now) ≡ Ok bytes.items) }
{
    let pairs = hex_pairs(alloc)?;
    let mut bytes = Vec::with_capacity(alloc, text.len() / 2)?;
    let mut rest = text;
    'pairs: while let Some((byte, left)) = next_byte(&pairs, rest)? {
        bytes.push(byte).map_err(AllocError::from)?;
        rest = left;
    }
    Ok(bytes)
}

// The byte of a text's next two digits, and what follows them.
fn next_byte<'a>(
    pairs: &[Option<u8>],
    text: &'a [u8],
) -> Result<Option<(u8, &'a [u8])>, FromHexError>
    requires { HoldsPairs pairs.now }
    ensures found { IfOk result (λ found. MatchOption found (without_blanks text.now ≡ [])
        (λ found. BeginsWith text.now found.0 found.1.now)) }
    ensures shorter { IfOk result (λ found. IfSome found (λ found. length found.1.now < length text.now)) }
{
    if let [high, low, left @ ..] = text
        && let Some(byte) = held_byte(pairs, *high, *low)
    {
        return Ok(Some((byte, left)));
    }
    let Some((high, after)) = next_digit(text) else {
        return Ok(None);
    };
    let Some((low, left)) = next_digit(after) else {
        return Err(FromHexError::OddLength);
    };
    let byte = match held_byte(pairs, high, low) {
        Some(byte) => byte,
        None => pair_byte(high, low)?,
    };
    Ok(Some((byte, left)))
}

fn next_digit(text: &[u8]) -> Option<(u8, &[u8])>
    ensures found { MatchOption result (without_blanks text.now ≡ [])
        (λ found. without_blanks text.now ≡ found.0 ∷ without_blanks found.1.now) }
    ensures shorter { IfSome result (λ found. length found.1.now < length text.now) }
{
    let mut rest = text;
    'blanks: while let [first, after @ ..] = rest {
        if !is_blank(*first) {
            return Some((*first, after));
        }
        rest = after;
    }
    None
}

fn held_byte(pairs: &[Option<u8>], high: u8, low: u8) -> Option<u8>
    requires { HoldsPairs pairs.now }
    ensures { IfSome result (λ byte. pair_value high low 0 ≡ Ok byte) }
{
    match pairs.get(place(high, low)) {
        Some(Some(byte)) => Some(*byte),
        _ => None,
    }
}

// The bytes of all pairs of digits. Looking a pair up is faster than decoding it, which mispredicts a branch at many digits.
fn hex_pairs(alloc: Global) -> Result<Vec<Option<u8>>, AllocError>
    ensures { IfOk result (λ pairs. HoldsPairs pairs.items) }
{
    let mut pairs = no_pairs(alloc)?;
    'highs: for high in DIGITS {
        'lows: for low in DIGITS {
            keep_pair(&mut pairs, *high, *low);
        }
    }
    Ok(pairs)
}

// A table that holds no pair. It stands apart so that no other proof meets its list.
fn no_pairs(alloc: Global) -> Result<Vec<Option<u8>>, AllocError>
    ensures { IfOk result (λ pairs. HoldsPairs pairs.items) }
{
    Ok(vec![in alloc; None; PLACES]?)
}

fn keep_pair(pairs: &mut [Option<u8>], high: u8, low: u8)
    requires { HoldsPairs pairs.old }
    ensures { HoldsPairs pairs.new }
{
    let at = place(high, low);
    if let Ok(byte) = pair_byte(high, low)
        && at < pairs.len()
    {
        pairs[at] = Some(byte);
    }
}

fn place(high: u8, low: u8) -> usize
    ensures { result ≡ high * 256 + low }
{
    usize::from(high) * 256 + usize::from(low)
}

fn pair_byte(high: u8, low: u8) -> Result<u8, FromHexError>
    ensures { result ≡ pair_value high low 0 }
{
    let mut byte = [0];
    hex::decode_to_slice([high, low], &mut byte)?;
    Ok(byte[0])
}

// The fault of a text that was not decoded. It is out of memory only if the text has no fault of its own.
#[tactic(auto, unfolding(crate::specs::Dumps::dump_reading))]
fn dump_fault(text: &[u8]) -> RunFault
    ensures { Refuses (run_refusal result) (dump_reading text.now) }
{
    if let Some(at) = first_foreign(text) {
        return RunFault::BadDump { at };
    }
    if count_digits(text) % 2 == 1 {
        return RunFault::BadDump { at: text.len() };
    }
    RunFault::Memory
}

fn first_foreign(text: &[u8]) -> Option<usize>
    ensures { result ≡ position is_foreign text.now }
{
    text.iter().position(|b| !(is_blank(*b) || is_digit(*b)))
}

fn count_digits(text: &[u8]) -> usize
    ensures { result ≡ count_by is_hex_digit text.now }
{
    text.iter().filter(|b| is_digit(**b)).count()
}

fn is_blank(b: u8) -> bool
    ensures { result ≡ is_blank b }
{
    matches!(b, b'\t' | b'\n' | b'\r' | b' ')
}

fn is_digit(b: u8) -> bool
    ensures { result ≡ is_hex_digit b }
{
    b.is_ascii_hexdigit()
}

const DIGITS: &[u8; 22] = b"0123456789abcdefABCDEF";

// The number of pairs of bytes.
const PLACES: usize = 256 * 256;

#[derive(Drop)]
pub(crate) enum TextBytes<'t> {
    Whole(Vec<u8>),
    Lent(&'t [u8]),
    // They are no dump.
    InBlocks(Blocks),
}

/// The text of a capture, which may be a dump. Contracts see its bytes.
#[derive(Drop)]
pub struct Text<'t> {
    bytes: TextBytes<'t>,
}

impl<'t> Model for Text<'t> {
    ghost use Rattle.std.specs.Prelude.{ℕ, List};
    ghost use Rattle.run_files.specs.Dumps.{bytes_of_text, BlocksAreNoDump};

    ghost Value = { List ℕ };

    ghost view = { λ t. bytes_of_text t.bytes };

    ghost invariant = { λ t. BlocksAreNoDump t.bytes };
}

impl<'t> Text<'t> {
    /// The text of these bytes.
    pub fn of(bytes: Vec<u8>) -> Text<'t>
        ensures { result ≡ bytes.items }
    {
        Text {
            bytes: TextBytes::Whole(bytes),
        }
    }

    /// The text of bytes that stay where they are.
    pub fn lent(bytes: &'t [u8]) -> Text<'t>
        ensures { result ≡ bytes.now }
    {
        Text {
            bytes: TextBytes::Lent(bytes),
        }
    }

    pub(crate) fn of_blocks(blocks: Blocks) -> Option<Text<'t>>
        ensures text { IfSome result (λ text. text ≡ blocks) }
    {
        if is_dump(blocks.slice(0, blocks.len().min(1))) {
            return None;
        }
        Some(Text {
            bytes: TextBytes::InBlocks(blocks),
        })
    }

    /// The bytes.
    pub fn bytes(&self) -> FileBytes<'_>
        ensures { bytes_of result ≡ self.now }
    {
        match &self.bytes {
            TextBytes::Whole(bytes) => FileBytes::Whole(bytes),
            TextBytes::Lent(bytes) => FileBytes::Whole(bytes),
            TextBytes::InBlocks(blocks) => FileBytes::InBlocks(blocks),
        }
    }

    /// The bytes of the capture, as a text: those of the dump if the text is taken for one. Any other text is returned as it is, not copied.
    ///
    /// # Errors
    /// Those of [`undump`](crate::undump).
    pub fn undumped(self, alloc: Global) -> Result<Text<'t>, RunFault>
        ensures { Agrees run_refusal (λ text. text) result (if is_dump self.entry then dump_reading self.entry else Ok self.entry) }
    {
        match &self.bytes {
            TextBytes::Whole(bytes) if is_dump(bytes) => Ok(Text::of(undump(alloc, bytes)?)),
            TextBytes::Lent(bytes) if is_dump(bytes) => Ok(Text::of(undump(alloc, bytes)?)),
            _ => Ok(self),
        }
    }
}
