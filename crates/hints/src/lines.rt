//! Hints as lines.
ghost use Rattle.std.specs.Prelude.{◌≡◌, ◌++◌, IfOk};
ghost use Rattle.std.specs.Fmt.{decimal};
ghost use Rattle.std.specs.String.{string_bytes};
ghost use Rattle.hints.specs.Hints.{IsAbout, first_line, told};

use std::alloc::{AllocError, Global};

/// A text, unless an allocation failed.
pub type Said = Result<String, AllocError>;

/// Who tells a refusal: the program `toxicap`, by its options, or a call of its library, by the call's arguments.
#[derive(Clone, Copy, Debug, PartialEq, Eq)]
pub enum Speaker {
    Program,
    Call,
}

impl Speaker {
    /// One of two texts.
    pub(crate) fn says(self, program: &'static str, call: &'static str) -> &'static str {
        match self {
            Speaker::Program => program,
            Speaker::Call => call,
        }
    }
}

/// A hint in one line, after what it is about and its place there, which may be empty. Each is cut before its first line feed.
pub(crate) fn about(alloc: Global, subject: &str, place: &str, hint: &str) -> Said
    ensures exact { IfOk result (λ line. string_bytes line ≡ told subject.now place.now hint.now) }
    ensures about { IfOk result (λ line. IsAbout subject.now (string_bytes line)) }
{
    say!(alloc; "{}{} {}", first_line(subject), first_line(place), first_line(hint))
}

/// A word and a number.
pub(crate) fn numbered(alloc: Global, word: &str, number: usize) -> Said
    ensures { IfOk result (λ text. string_bytes text ≡ word.now ++ decimal number) }
{
    say!(alloc; "{word}{number}")
}

fn first_line(text: &str) -> &str
    ensures { result.now ≡ first_line text.now }
{
    match text.split_once('\n') {
        Some((line, _)) => line,
        None => text,
    }
}
