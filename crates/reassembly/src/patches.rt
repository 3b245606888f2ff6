//! Patches: bytes from a position on, as a slice, with the instant at which they were captured.
ghost use Rattle.std.specs.Prelude.{◌≡◌, ◌+◌, ◌≤◌, ◌<◌, [], ◌∷◌, ◌++◌, length, drop, OnOk};
ghost use Rattle.reassembly.specs.Spans.{span_of, spans, end_of, span_below, span_from, unless_empty, limit};

use pcap_records::Moment;
use std::alloc::AllocError;
use std::slice;

#[derive(Clone, Copy)]
pub(crate) struct Patch<'a> {
    pub from: usize,
    pub at: Moment,
    pub bytes: &'a [u8],
}

pub(crate) fn end(patch: &Patch) -> usize
    requires { end_of (span_of patch.now) ≤ limit }
    ensures { result ≡ end_of (span_of patch.now) }
{
    patch.from + patch.bytes.len()
}

/// The positions of a patch below `n`.
pub(crate) fn front<'a>(patch: &Patch<'a>, n: usize) -> Patch<'a>
    ensures { span_of result ≡ span_below n (span_of patch.now) }
{
    let len = n.saturating_sub(patch.from).min(patch.bytes.len());
    Patch {
        from: patch.from,
        at: patch.at,
        bytes: &patch.bytes[..len],
    }
}

/// The positions of a patch from `n` on.
pub(crate) fn back<'a>(patch: &Patch<'a>, n: usize) -> Patch<'a>
    ensures { span_of result ≡ span_from n (span_of patch.now) }
{
    let hidden = n.saturating_sub(patch.from);
    let cut = hidden.min(patch.bytes.len());
    Patch {
        from: patch.from.max(n),
        at: patch.at,
        bytes: &patch.bytes[cut..],
    }
}

pub(crate) fn patch_at<'a>(patches: &[Patch<'a>], i: usize) -> Patch<'a>
    requires { i < length patches.now }
    ensures { spans (drop i patches.now) ≡ span_of result ∷ spans (drop (i + 1) patches.now) }
{
    let patch = &patches[i];
    Patch {
        from: patch.from,
        at: patch.at,
        bytes: patch.bytes,
    }
}

pub(crate) fn add<'a>(patches: &mut Vec<Patch<'a>>, patch: &Patch<'a>) -> Result<(), AllocError>
    ensures { OnOk result (spans patches.new.items ≡ spans patches.old.items ++ span_of patch.now ∷ []) }
{
    patches.extend_from_slice(slice::from_ref(patch))?;
    Ok(())
}

/// Adds a patch, unless it is empty.
pub(crate) fn keep<'a>(patches: &mut Vec<Patch<'a>>, patch: &Patch<'a>) -> Result<(), AllocError>
    ensures { OnOk result (spans patches.new.items ≡ spans patches.old.items ++ unless_empty (span_of patch.now)) }
{
    if patch.bytes.is_empty() {
        return Ok(());
    }
    add(patches, patch)
}
