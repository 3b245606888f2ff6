//! Lines: the bytes of one direction of a connection with their instants, as slices, and how the direction ends.
ghost use Rattle.std.specs.Prelude.{◌≡◌, ◌++◌, IfOk, OnOk};
ghost use Rattle.reassembly.specs.LineView.{bytes_of_parts, bytes_with_mark};

use pcap_records::{Moment, Unit};
use std::alloc::{AllocError, Global};
use std::marker::Model;
use std::slice;

/// Bytes of a line that became available at one instant.
#[derive(Clone, Copy, Debug, PartialEq, Eq)]
pub struct LinePart<'a> {
    /// When they became available.
    pub at: Moment,
    /// Whether a chunk starts with the first of them.
    pub starts: bool,
    /// The bytes.
    pub bytes: &'a [u8],
}

/// How a direction ends.
#[derive(Clone, Copy, Debug, PartialEq, Eq)]
pub enum End {
    /// Not at all.
    Live,
    /// By a FIN of its sender.
    Fin(Moment),
    /// By a close of a proxy.
    Close(Moment),
    /// By a reset.
    Reset(Moment),
}

impl End {
    ghost use Rattle.reassembly.specs.LineView.{end_view, end_instant, IsMovedBy};

    /// Its instant, if it has one.
    pub fn at(self) -> Option<Moment>
        ensures { result ≡ end_instant (end_view self) }
    {
        match self {
            End::Live => None,
            End::Fin(at) | End::Close(at) | End::Reset(at) => Some(at),
        }
    }

    /// The same end, at the instant that `f` gives for its own.
    pub fn map<F: FnOnce(Moment) -> Moment>(self, f: F) -> End
        requires { F.IsAlwaysCallable f }
        ensures { IsMovedBy (F.post f) (end_view self) (end_view result) }
    {
        match self {
            End::Live => End::Live,
            End::Fin(at) => End::Fin(f(at)),
            End::Close(at) => End::Close(f(at)),
            End::Reset(at) => End::Reset(f(at)),
        }
    }
}

/// The bytes of one direction, in parts with their instants, and its end. Contracts see the bytes one by one.
#[derive(Debug, Drop)]
pub struct Line<'a> {
    unit: Unit,
    parts: Vec<LinePart<'a>>,
    end: End,
}

impl<'a> Model for Line<'a> {
    ghost use Rattle.reassembly.specs.LineView.{LineView, line_view};

    ghost Value = { LineView };

    ghost view = { λ l. line_view l.unit l.parts.items l.end };
}

impl<'a> Line<'a> {
    ghost use Rattle.reassembly.specs.LineView.{line_view, bytes_of_parts, end_view};
    ghost use Rattle.pcap_records.specs.Instants.{ticks_of};

    /// The line of these parts and this end, with instants in `unit`.
    pub fn of_parts(unit: Unit, parts: Vec<LinePart<'a>>, end: End) -> Line<'a>
        ensures { result ≡ line_view unit parts.entry.items end }
    {
        Line { unit, parts, end }
    }

    /// The unit of its instants, which is the capture's.
    pub fn unit(&self) -> Unit
        ensures { ticks_of result ≡ self.now.ticks }
    {
        self.unit
    }

    /// Its parts.
    pub fn parts(&self) -> &[LinePart<'a>]
        ensures { bytes_of_parts result.now ≡ self.now.line.bytes }
    {
        &self.parts
    }

    /// Its parts as a `Vec`.
    pub fn into_parts(self) -> Vec<LinePart<'a>>
        ensures { bytes_of_parts result.items ≡ self.entry.line.bytes }
    {
        self.parts
    }

    /// Its end.
    pub fn end(&self) -> End
        ensures { end_view result ≡ self.now.line.end }
    {
        self.end
    }

    /// The same line; its parts share the slices.
    pub fn copy(&self, alloc: Global) -> Result<Line<'a>, AllocError>
        ensures { IfOk result (λ line. line ≡ self.now) }
    {
        let parts = Vec::from_slice(alloc, &self.parts)?;
        Ok(Line {
            unit: self.unit,
            parts,
            end: self.end,
        })
    }
}

pub(crate) fn add_part<'a>(
    parts: &mut Vec<LinePart<'a>>,
    part: &LinePart<'a>,
) -> Result<(), AllocError>
    ensures { OnOk result (bytes_of_parts parts.new.items ≡ bytes_of_parts parts.old.items ++ bytes_with_mark part.now.at part.now.starts part.now.bytes.now) }
{
    parts.extend_from_slice(slice::from_ref(part))?;
    Ok(())
}
