//! What a report says of one direction of a connection.
ghost use Rattle.std.specs.Prelude.{◌≡◌, ◌++◌, ◌+◌, ◌-◌, ◌<◌, ◌≤◌, ◌==◌, ◌^◌, [], true, max, length, if◌then◌else◌, OnOk};
ghost use Rattle.reassembly.specs.LineView.{bytes_of_parts, end_view};
ghost use Rattle.reassembly.specs.RecordedLines.{live};
ghost use Rattle.report.specs.ReportText.{end_text, end_word, longest_delay, side_text};

use crate::texts::{push, push_char, push_char_number, push_number, push_told};
use pcap_records::Moment;
use reassembly::{End, Line, LinePart};
use std::alloc::AllocError;

// The text of a direction without bytes that stays open, such as both directions of an opening without an answer.
const QUIET: &str = "0/0/0 open max 0";

/// Appends a direction's delivered, recorded and lost bytes, its end and its longest delay. Instants are in ticks since the opening.
pub(crate) fn push_side(
    text: &mut Vec<u8>,
    opened: Moment,
    refused: bool,
    recorded: &Line<'_>,
    lost: u64,
    delivered: &Line<'_>,
) -> Result<(), AllocError>
    requires recorded { length recorded.now.line.bytes < 2 ^ 32 }
    requires delivered { length delivered.now.line.bytes < 2 ^ 32 }
    ensures { OnOk result (text.new.items ≡ text.old.items
        ++ side_text opened refused (record { line = recorded.now.line; lost = lost }) delivered.now.line) }
{
    if !refused && is_quiet(recorded, lost, delivered) {
        return push(text, QUIET);
    }
    let sent = recorded.parts();
    let came = delivered.parts();
    push_number(text, byte_count(came))?;
    push_char_number(text, b'/', byte_count(sent))?;
    push_char_number(text, b'/', lost)?;
    push_char(text, b' ')?;
    push_end_word(text, refused, opened, &delivered.end())?;
    push_told(text, " max ", longest_delay(sent, came))
}

fn is_quiet(recorded: &Line<'_>, lost: u64, delivered: &Line<'_>) -> bool
    ensures recorded { result ≡ true → recorded.now.line.bytes ≡ [] }
    ensures lost { result ≡ true → lost ≡ 0 }
    ensures delivered { result ≡ true → delivered.now.line.bytes ≡ [] }
    ensures end { result ≡ true → delivered.now.line.end ≡ live }
{
    recorded.parts().is_empty()
        && lost == 0
        && delivered.parts().is_empty()
        && delivered.end() == End::Live
}

fn push_end_word(
    text: &mut Vec<u8>,
    refused: bool,
    opened: Moment,
    end: &End,
) -> Result<(), AllocError>
    ensures { OnOk result (text.new.items ≡ text.old.items ++ end_word refused opened (end_view end.now)) }
{
    if refused {
        return push(text, "refused");
    }
    push_end(text, opened, end)
}

fn push_end(text: &mut Vec<u8>, opened: Moment, end: &End) -> Result<(), AllocError>
    ensures { OnOk result (text.new.items ≡ text.old.items ++ end_text opened (end_view end.now)) }
{
    match end {
        End::Live => push(text, "open"),
        End::Fin(at) => push_told(text, "fin+", ticks_since(opened, *at)),
        End::Close(at) => push_told(text, "close+", ticks_since(opened, *at)),
        End::Reset(at) => push_told(text, "reset+", ticks_since(opened, *at)),
    }
}

fn ticks_since(opened: Moment, at: Moment) -> u64
    ensures { result ≡ at - opened }
{
    at.count().saturating_sub(opened.count())
}

fn byte_count(parts: &[LinePart<'_>]) -> u64
    requires { length (bytes_of_parts parts.now) < 2 ^ 32 }
    ensures { result ≡ length (bytes_of_parts parts.now) }
{
    let mut count = 0;
    for part in parts {
        count += part.bytes.len() as u64;
    }
    count
}

// A place in the parts of a line: the number of a part, and how many of its bytes are passed.
#[derive(Clone, Copy)]
struct Cursor {
    part: usize,
    offset: usize,
}

// The longest delay of a byte, in ticks. Both lines are compared by runs of bytes that lie in one part of either.
fn longest_delay(recorded: &[LinePart<'_>], delivered: &[LinePart<'_>]) -> u64
    ensures { result ≡ longest_delay (bytes_of_parts recorded.now) (bytes_of_parts delivered.now) }
{
    let mut longest = 0;
    let mut from = Cursor { part: 0, offset: 0 };
    let mut to = Cursor { part: 0, offset: 0 };
    'runs: while from.part < recorded.len() && to.part < delivered.len() {
        let sent = &recorded[from.part];
        let came = &delivered[to.part];
        let run = (sent.bytes.len() - from.offset).min(came.bytes.len() - to.offset);
        longest = longer(longest, run, sent.at, came.at);
        from = cursor_after(from, sent.bytes.len(), run);
        to = cursor_after(to, came.bytes.len(), run);
    }
    longest
}

// The longest delay after a run of bytes that were sent and came at these instants. An empty run changes nothing.
fn longer(longest: u64, run: usize, sent: Moment, came: Moment) -> u64
    ensures { result ≡ max longest (if run == 0 then 0 else came - sent) }
{
    if run == 0 {
        return longest;
    }
    longest.max(came.count().saturating_sub(sent.count()))
}

// The cursor after a run, in a part of `len` bytes: in the next part if none of them is left.
fn cursor_after(from: Cursor, len: usize, run: usize) -> Cursor
    requires within { from.offset + run ≤ len }
    requires few { from.part + 1 < 2 ^ 64 }
    ensures { result ≡ (if from.offset + run == len then record { part = from.part + 1; offset = 0 }
        else record { part = from.part; offset = from.offset + run }) }
{
    if from.offset + run == len {
        Cursor {
            part: from.part + 1,
            offset: 0,
        }
    } else {
        Cursor {
            part: from.part,
            offset: from.offset + run,
        }
    }
}
