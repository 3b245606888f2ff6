//! Texts: how words and numbers are appended.
ghost use Rattle.std.specs.Prelude.{◌≡◌, [], ◌∷◌, ◌++◌, OnOk};
ghost use Rattle.std.specs.Fmt.{decimal};

use itoa::Buffer;
use pcap_records::Values;
use std::alloc::AllocError;

/// The text of a report, or of a part of it: ASCII, each of its lines ended by LF.
pub type ReportText = Values<u8>;

pub(crate) fn push(text: &mut Vec<u8>, words: &str) -> Result<(), AllocError>
    ensures { OnOk result (text.new.items ≡ text.old.items ++ words.now) }
{
    text.extend_from_slice(words.as_bytes())?;
    Ok(())
}

#[tactic(auto, using(std::proofs::lemmas::Fmt::decimal_digit))]
pub(crate) fn push_number(text: &mut Vec<u8>, number: u64) -> Result<(), AllocError>
    ensures { OnOk result (text.new.items ≡ text.old.items ++ decimal number) }
{
    if number < 10 {
        return push_char(text, b'0' + number as u8);
    }
    push(text, Buffer::new().format(number))
}

/// Appends one character: this takes less time than a word of one.
pub(crate) fn push_char(text: &mut Vec<u8>, byte: u8) -> Result<(), AllocError>
    ensures { OnOk result (text.new.items ≡ text.old.items ++ byte ∷ []) }
{
    text.push(byte)?;
    Ok(())
}

pub(crate) fn push_char_number(text: &mut Vec<u8>, byte: u8, number: u64) -> Result<(), AllocError>
    ensures { OnOk result (text.new.items ≡ text.old.items ++ byte ∷ decimal number) }
{
    push_char(text, byte)?;
    push_number(text, number)
}

pub(crate) fn push_told(text: &mut Vec<u8>, words: &str, number: u64) -> Result<(), AllocError>
    ensures { OnOk result (text.new.items ≡ text.old.items ++ (words.now ++ decimal number)) }
{
    push(text, words)?;
    push_number(text, number)
}
