//! Loading a capture by its heads, as it is read.
ghost use Rattle.std.specs.Prelude.{◌≡◌, ◌-◌, ◌<◌, ◌≤◌, ◌^◌, false, ℕ, List, [], Result, length, take, IfErr, IfOk, IfSome, ◌+◌, ◌++◌};
ghost use Rattle.run_files.specs.{Consumes, IsAtEnd, LoadsInput, Sees, SeesAs, AgreesUnlessMemory, run_refusal, IsOfFile, text_at, slice_limit, Loads, is_dump};
ghost use Rattle.run_files.specs.{held_now, capture_limit, read_on};

use crate::dumps::{Text, is_dump};
use crate::error::RunFault;
use crate::inputs::{Input, OpenFile, load_rest, opened, read_next};
use crate::streams::{Counted, READ_LEN};
use disks::ReadDisk;
use pcap_records::{CaptureFault, HeadReader, KeptHeads, SLICE_LIMIT};
use std::alloc::{AllocError, Global};
use std::io::Read;

/// What was loaded of the text of a capture if only its reports are asked for.
#[derive(Drop)]
pub enum SeenText {
    /// The text is a dump, and this is all of it.
    Dump(Text<'static>),
    /// The heads of the capture that the text is, or its first fault.
    Heads(Result<KeptHeads, CaptureFault>),
}

/// Loads the file at a path as far as reports see it: a dump whole, of any other file the heads. They are taken as it is read.
///
/// # Errors
/// Those of [`load_file`](crate::load_file). A fault of the capture itself is part of what is seen.
pub fn see_file<D: ReadDisk>(alloc: Global, disk: &D, path: &str) -> Result<SeenText, RunFault>
    ensures { (loaded : Result (List ℕ) RunFault) × SeesAs result loaded
        × IfOk loaded (λ text. length text ≤ capture_limit) × IfErr loaded IsOfFile
        × IfSome (D.history disk.now) (λ h. AgreesUnlessMemory run_refusal (λ text. text) loaded (text_at (held_now h) path.now)) }
{
    let file = opened(alloc, disk, path)?;
    see_whole(alloc, &mut OpenFile { file })
}

/// Loads all that a reader has as far as reports see it, as [`see_file`] does of a file.
///
/// # Errors
/// Those of [`load`](crate::load). A fault of the capture itself is part of what is seen.
pub fn see_input<R: Read>(alloc: Global, reader: &mut Counted<R>) -> Result<SeenText, RunFault>
    requires { reader.old.failed < 2 ^ 64 - 1 }
    ensures { (loaded : Result (List ℕ) RunFault) × SeesAs result loaded
        × IfOk loaded (λ text. length text ≤ capture_limit)
        × LoadsInput (λ text. text) loaded (λ given. Consumes (R.remaining reader.old.inner) (R.remaining reader.new.inner) given)
        (IsAtEnd (R.remaining reader.new.inner)) reader.old.failed reader.new.failed }
{
    see_whole(alloc, reader)
}

fn see_whole<I: Input>(alloc: Global, input: &mut I) -> Result<SeenText, RunFault>
    requires can { I.can_read input.old }
    requires first { I.gives input.old input.old [] }
    ensures { Sees result (Loads (I.gives input.old input.new) (I.fails input.old input.new) (I.is_at_end input.new) (λ text. text)) }
{
    let mut room = room_for_heads(alloc)?;
    let buffer = room.as_mut_slice();
    let len = read_next(input, buffer, 0)?;
    if len == 0 {
        return Ok(SeenText::Heads(HeadReader::new(alloc).finish(&[])));
    }
    if is_dump(&buffer[..len]) {
        let bytes = Vec::from_slice(alloc, &buffer[..len])?;
        return Ok(SeenText::Dump(Text::of(load_rest(input, bytes, buffer)?)));
    }
    see_rest(alloc, input, buffer, len)
}

// Sees an input that is no dump, whose first `len` bytes are at the front of a buffer.
fn see_rest<I: Input>(
    alloc: Global,
    input: &mut I,
    buffer: &mut [u8],
    len: usize,
) -> Result<SeenText, RunFault>
    requires can { I.can_read input.old }
    requires some { 0 < len }
    requires came { len ≤ length buffer.old }
    requires no_dump { is_dump (take len buffer.old) ≡ false }
    requires room { slice_limit ≤ length buffer.old }
    requires short { length buffer.old ≤ capture_limit }
    ensures { (before : I) → I.gives before input.old (take len buffer.old)
        → Sees result (Loads (I.gives before input.new) (I.fails before input.new) (I.is_at_end input.new) (λ text. text)) }
{
    let mut reader = HeadReader::new(alloc);
    let mut held = len;
    'reads: loop {
        held = take_front(&mut reader, buffer, held)?;
        let more = read_next(input, &mut buffer[held..], reader.taken() + held)?;
        if more == 0 {
            return Ok(SeenText::Heads(reader.finish(&buffer[..held])));
        }
        held += more;
    }
}

// Room for one read after the bytes that are held. It stands apart so that no other proof meets this list of zeros.
fn room_for_heads(alloc: Global) -> Result<Vec<u8>, AllocError>
    ensures more { IfOk result (λ room. slice_limit ≤ length room.items) }
    ensures within { IfOk result (λ room. length room.items ≤ capture_limit) }
{
    vec![in alloc; 0u8; READ_LEN + SLICE_LIMIT]
}

// Takes what can be taken of the `held` bytes at the front of a buffer, and moves the others to its front. Gives the number of those.
fn take_front(reader: &mut HeadReader, buffer: &mut [u8], held: usize) -> Result<usize, AllocError>
    requires held { held ≤ length buffer.old }
    requires short { reader.old.taken + held ≤ capture_limit }
    ensures few { IfOk result (λ left. left < slice_limit) }
    ensures counted { IfOk result (λ left. reader.new.taken + left ≡ reader.old.taken + held) }
    ensures len { length buffer.new ≡ length buffer.old }
    ensures same { IfOk result (λ left. (more : List ℕ) → reader.old.taken + held + length more ≤ capture_limit
        → read_on reader.old.found (take held buffer.old ++ more) ≡ read_on reader.new.found (take left buffer.new ++ more)) }
{
    let before = reader.taken();
    reader.take(&buffer[..held])?;
    let taken = reader.taken() - before;
    buffer.copy_within(taken..held, 0);
    Ok(held - taken)
}
