//! The files of scenarios, put together of what connections contribute: a capture as a draft, and a report as a text or a draft.
ghost use Rattle.std.specs.Prelude.{◌≡◌, ◌++◌, [], All, IfOk, map};
ghost use Rattle.toxicap.specs.Words.{flat_map, ticks_of, HasNoKeyTwice, sorted_by_key, capture_of};

use conn_workers::{RowShare, RowShares};
use disks::Disk;
use pcap_records::Unit;
use report::ReportText;
use segment_writer::SortedRow;
use std::alloc::{AllocError, Global};
use time_merge::{CaptureSink, write_capture};

// A batch with this number of bytes, or more, is appended to a draft. It fits into a processor's cache.
const BATCH_LEN: usize = 1 << 18;

// A draft that takes a capture, in batches.
#[derive(Drop)]
struct DraftSink<D: Disk> {
    draft: D::Draft,
}

impl<D: Disk> CaptureSink for DraftSink<D> {
    ghost took = { λ s bytes. D.holds s.draft bytes };

    ghost place = { λ s. D.path_of s.draft };

    fn offer(&mut self, batch: &mut Vec<u8>) {
        if batch.len() >= BATCH_LEN {
            D::append(&mut self.draft, batch);
            batch.clear();
        }
    }
}

// The segments of all shares, share by share. Their lines are dropped.
pub(crate) fn segment_rows<'w, 'a>(
    alloc: Global,
    row: RowShares<'w, 'a>,
) -> Result<Vec<SortedRow<'w, 'a>>, AllocError>
    ensures { IfOk result (λ rows. rows.items ≡ map (λ s. s.segments) row.entry) }
{
    let shares = row.into_vec();
    let mut rows = Vec::with_capacity(alloc, shares.len())?;
    for share in shares {
        rows.push(share.segments)?;
    }
    Ok(rows)
}

pub(crate) fn written_draft<D: Disk>(
    alloc: Global,
    rows: &[SortedRow<'_, '_>],
    unit: Unit,
    draft: D::Draft,
) -> Result<D::Draft, AllocError>
    requires sorted { All (λ r. sorted_by_key r ≡ r) rows.now }
    requires once { HasNoKeyTwice (flat_map (λ r. r) rows.now) }
    requires empty { D.holds draft [] }
    ensures holds { IfOk result (λ d. D.holds d (capture_of (ticks_of unit) (flat_map (λ r. r) rows.now))) }
    ensures path { IfOk result (λ d. D.path_of d ≡ D.path_of draft) }
{
    let mut sink = DraftSink::<D> { draft };
    let rest = write_capture(alloc, rows, unit, &mut sink)?;
    let DraftSink { mut draft } = sink;
    D::append(&mut draft, &rest);
    Ok(draft)
}

// Room is made for all lines at once.
pub(crate) fn whole_report(
    alloc: Global,
    head: &ReportText,
    shares: &[RowShare<'_, '_>],
) -> Result<ReportText, AllocError>
    ensures { IfOk result (λ text. text ≡ head.now ++ flat_map (λ s. s.lines) shares.now) }
{
    let head = head.as_slice();
    let room = head.len().saturating_add(lines_len(shares));
    let mut text = Vec::with_capacity(alloc, room)?;
    text.extend_from_slice(head)?;
    for share in shares {
        text.extend_from_slice(share.lines.as_slice())?;
    }
    Ok(ReportText::of(text))
}

// The number of bytes of the lines of all shares, or the greatest number if they are more.
fn lines_len(shares: &[RowShare<'_, '_>]) -> usize {
    let mut len = 0usize;
    for share in shares {
        len = len.saturating_add(share.lines.as_slice().len());
    }
    len
}

pub(crate) fn reported_draft<D: Disk>(
    draft: D::Draft,
    head: &ReportText,
    shares: &[RowShare<'_, '_>],
) -> D::Draft
    requires empty { D.holds draft [] }
    ensures holds { D.holds result (head.now ++ flat_map (λ s. s.lines) shares.now) }
    ensures path { D.path_of result ≡ D.path_of draft }
{
    let mut draft = draft;
    D::append(&mut draft, head.as_slice());
    for share in shares {
        D::append(&mut draft, share.lines.as_slice());
    }
    draft
}
