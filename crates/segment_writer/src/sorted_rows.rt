//! Rows of written segments in order of key.
ghost use Rattle.std.specs.Prelude.{◌≡◌, ◌<◌, OnOk, length, slice_index_or};
ghost use Rattle.segment_writer.specs.OpenRows.{written_in, IsOrder, IsRow};
ghost use Rattle.segment_writer.specs.SegmentOutlines.{no_segment};
ghost use Rattle.segment_writer.specs.SegmentRows.{framed_at, IsInRow};
ghost use Rattle.segment_writer.specs.WrittenSegments.{sorted_by_key};

use crate::framed::{Keys, SegKey};
use crate::open_rows::OpenRow;
use crate::row_segments::RowSegment;
use crate::short_keys::{number_in, short_order, ticks_in};
use std::alloc::{AllocError, Global};
use std::marker::Model;

/// The written segments of connections in order of key. Contracts see them with their records.
#[derive(Debug, Drop)]
pub struct SortedRow<'w, 'a> {
    row: OpenRow<'w, 'a>,
    /// The short keys of the segments in order. If there are none, the segments stand in order of key.
    short: Option<Vec<u64>>,
}

impl<'w, 'a> Model for SortedRow<'w, 'a> {
    ghost use Rattle.std.specs.Prelude.{List};
    ghost use Rattle.segment_writer.specs.declared.framed.Framed.{Framed};
    ghost use Rattle.segment_writer.specs.OpenRows.{written_in, IsOrder};
    ghost use Rattle.segment_writer.specs.WrittenSegments.{sorted_by_key};

    ghost Value = { List Framed };

    ghost view = { λ r. sorted_by_key (written_in r.row) };

    ghost invariant = { λ r. IsOrder r.row r.short };
}

impl<'w, 'a> SortedRow<'w, 'a> {
    ghost use Rattle.std.specs.Prelude.{◌≡◌, IfOk};
    ghost use Rattle.segment_writer.specs.OpenRows.{written_in, IsRow};
    ghost use Rattle.segment_writer.specs.WrittenSegments.{sorted_by_key};

    pub(crate) fn of(alloc: Global, row: OpenRow<'w, 'a>) -> Result<SortedRow<'w, 'a>, AllocError>
        requires { IsRow row }
        ensures { IfOk result (λ sorted. sorted ≡ sorted_by_key (written_in row.entry)) }
    {
        if let Some(short) = short_order(alloc, &row)? {
            return Ok(SortedRow {
                row,
                short: Some(short),
            });
        }
        let mut row = row;
        sort_segments(&mut row)?;
        Ok(SortedRow { row, short: None })
    }
}

impl Keys for SortedRow<'_, '_> {
    ghost segments = { λ l. l };

    fn count(&self) -> usize {
        self.row.segments.len()
    }

    fn ticks(&self, index: usize) -> u64 {
        match &self.short {
            Some(short) => ticks_in(&self.row.segments, short[index]),
            None => self.row.segments[index].moment.count(),
        }
    }

    fn key(&self, index: usize) -> SegKey {
        segment_at(&self.row, &self.short, index).key()
    }

    fn record_len(&self, index: usize) -> usize {
        segment_at(&self.row, &self.short, index).record_len(&self.row.gathered)
    }

    fn written_len(&self) -> usize {
        self.row.written_len()
    }

    fn put(&self, index: usize, out: &mut Vec<u8>) -> Result<(), AllocError> {
        segment_at(&self.row, &self.short, index).put(&self.row.gathered, out)
    }
}

fn segment_at<'r, 'w, 'a>(
    row: &'r OpenRow<'w, 'a>,
    short: &Option<Vec<u64>>,
    index: usize,
) -> &'r RowSegment<'w, 'a>
    requires order { IsOrder row.now short.now }
    requires within { index < length (sorted_by_key (written_in row.now)) }
    ensures framed { framed_at row.now.gathered.items result.now ≡ slice_index_or (sorted_by_key (written_in row.now)) index no_segment }
    ensures in_row { IsInRow row.now.gathered.items result.now }
{
    match short {
        Some(short) => &row.segments[number_in(short[index])],
        None => &row.segments[index],
    }
}

// Puts the segments of a row in order of key.
fn sort_segments(row: &mut OpenRow<'_, '_>) -> Result<(), AllocError>
    requires { IsRow row.old }
    ensures row { IsRow row.new }
    ensures sorted { OnOk result (written_in row.new ≡ sorted_by_key (written_in row.old)) }
{
    row.segments.sort_by_key(|segment| segment.key())
}
