//! Written segments, their order in a capture, and lists of them.
ghost use Rattle.std.specs.Prelude.{◌≡◌, ◌++◌, List, IfOk};
ghost use Rattle.segment_writer.specs.WrittenSegments.{is_key_below, sorted_by_key};
ghost use Rattle.segment_writer.specs.declared.framed.Framed.{Framed};

use itertools::Itertools;
use pcap_records::{Moment, Values};
use std::alloc::{AllocError, Global};
use std::marker::Model;

/// The key of a written segment. A capture has segments in order of key: by moment, then by connection, turn and place.
#[derive(Clone, Copy, Debug, PartialEq, Eq, PartialOrd, Ord)]
pub struct SegKey {
    /// When the segment is written.
    pub moment: Moment,
    /// The number of its connection.
    pub conn: u32,
    /// 0 for the opening, 1 for the client's line, 2 for the server's.
    pub turn: u8,
    /// Its place in that turn, from 0.
    pub place: u32,
}

/// The bytes of a record.
pub type RecordBytes = Values<u8>;

/// A written segment: its key, and the bytes of its record.
#[derive(Debug, Drop)]
pub struct Framed {
    pub key: SegKey,
    /// The record, header and frame.
    pub bytes: RecordBytes,
}

/// A list of written segments, which tells their keys and appends their records.
pub trait Keys: Drop {
    ghost use Rattle.std.specs.Prelude.{◌≡◌, ◌<◌, ◌++◌, List, length, min, slice_index_or, OnOk, OnErr};
    ghost use Rattle.std.specs.List.{flat_map};
    ghost use Rattle.segment_writer.specs.declared.framed.Framed.{Framed};
    ghost use Rattle.segment_writer.specs.SegmentOutlines.{no_segment};

    ghost segments: { Self → List Framed };

    /// The number of segments.
    fn count(&self) -> usize
        ensures { result ≡ length (segments self.now) };

    /// The ticks of a segment's moment.
    fn ticks(&self, index: usize) -> u64
        requires { index < length (segments self.now) }
        ensures { result ≡ (slice_index_or (segments self.now) index no_segment).key.moment };

    /// The key of a segment.
    fn key(&self, index: usize) -> SegKey
        requires { index < length (segments self.now) }
        ensures { result ≡ (slice_index_or (segments self.now) index no_segment).key };

    /// The number of bytes of a record, or `usize::MAX` if it is more.
    fn record_len(&self, index: usize) -> usize
        requires { index < length (segments self.now) }
        ensures { result ≡ min (length (slice_index_or (segments self.now) index no_segment).bytes) usize.MAX };

    /// The number of bytes of all records, or `usize::MAX` if it is more.
    fn written_len(&self) -> usize
        ensures { result ≡ min (length (flat_map (λ x. x.bytes) (segments self.now))) usize.MAX };

    /// Appends the record of a segment. An error leaves `out` unchanged.
    fn put(&self, index: usize, out: &mut Vec<u8>) -> Result<(), AllocError>
        requires { index < length (segments self.now) }
        ensures ok { OnOk result (out.new.items ≡ out.old.items ++ (slice_index_or (segments self.now) index no_segment).bytes) }
        ensures err { OnErr result (out.new.items ≡ out.old.items) };
}

/// Written segments, one after another.
#[derive(Debug, Drop)]
pub struct SegList {
    list: Vec<Framed>,
}

impl Model for SegList {
    ghost Value = { List Framed };

    ghost view = { λ l. l.list.items };
}

impl SegList {
    pub(crate) fn of(list: Vec<Framed>) -> SegList
        ensures { result ≡ list.items }
    {
        SegList { list }
    }

    /// The segments.
    pub fn as_slice(&self) -> &[Framed]
        ensures { result.now ≡ self.now }
    {
        &self.list
    }

    /// The segments as a `Vec`.
    pub fn into_vec(self) -> Vec<Framed>
        ensures { result.items ≡ self }
    {
        let SegList { list } = self;
        list
    }

    /// Merges two lists that are in order; of one key the left list's come first.
    pub fn join(alloc: Global, left: SegList, right: SegList) -> Result<SegList, AllocError>
        requires left { sorted_by_key left ≡ left }
        requires right { sorted_by_key right ≡ right }
        ensures { IfOk result (λ list. list ≡ sorted_by_key (left ++ right)) }
    {
        let (left, right) = (left.into_vec(), right.into_vec());
        let merged = left
            .into_iter()
            .merge_by(right, |x, y| !is_key_below(&y.key, &x.key));
        Ok(SegList::of(merged.collect(alloc)?))
    }
}

impl Keys for SegList {
    ghost segments = { λ l. l };

    fn count(&self) -> usize {
        self.list.len()
    }

    fn ticks(&self, index: usize) -> u64 {
        self.list[index].key.moment.count()
    }

    fn key(&self, index: usize) -> SegKey {
        self.list[index].key
    }

    fn record_len(&self, index: usize) -> usize {
        self.list[index].bytes.as_slice().len()
    }

    fn written_len(&self) -> usize {
        let mut len = 0usize;
        for segment in &self.list {
            len = len.saturating_add(segment.bytes.as_slice().len());
        }
        len
    }

    fn put(&self, index: usize, out: &mut Vec<u8>) -> Result<(), AllocError> {
        out.extend_from_slice(self.list[index].bytes.as_slice())
    }
}

pub(crate) fn is_key_below(a: &SegKey, b: &SegKey) -> bool
    ensures { result ≡ is_key_below a.now b.now }
{
    a < b
}
