//! The written segments of connections in a row. Each record is made when it is written.
ghost use Rattle.std.specs.Prelude.{◌≡◌, ◌++◌, [], IfOk};
ghost use Rattle.reassembly.specs.LineLaws.{IsLine};
ghost use Rattle.toxic_defs.specs.DeliveredLines.{delivered_view};
ghost use Rattle.segment_writer.specs.Endpoints.{connection_between};
ghost use Rattle.segment_writer.specs.WrittenSegments.{sorted_by_key, written_turns};

use crate::connection_segments::put_connection;
use crate::endpoints::Endpoints;
use crate::open_rows::OpenRow;
use crate::sorted_rows::SortedRow;
use std::alloc::{AllocError, Global};
use std::marker::Model;
use toxic_defs::Delivered;

// The most segments of a short connection, such as one that has a request and its answer.
const SHORT_SEGMENTS: usize = 8;

/// The written segments of connections, connection by connection and turn by turn, whose endpoints and payloads are borrowed. Contracts see
/// them with their records.
#[derive(Debug, Drop)]
pub struct SegmentRow<'w, 'a> {
    row: OpenRow<'w, 'a>,
}

impl<'w, 'a> Model for SegmentRow<'w, 'a> {
    ghost use Rattle.std.specs.Prelude.{List};
    ghost use Rattle.segment_writer.specs.declared.framed.Framed.{Framed};
    ghost use Rattle.segment_writer.specs.OpenRows.{written_in, IsRow};

    ghost Value = { List Framed };

    ghost view = { λ r. written_in r.row };

    ghost invariant = { λ r. IsRow r.row };
}

impl<'w, 'a> SegmentRow<'w, 'a> {
    /// A row without segments, with room for those of `connections` short connections.
    pub fn with_room(alloc: Global, connections: usize) -> Result<SegmentRow<'w, 'a>, AllocError>
        ensures { IfOk result (λ row. row ≡ []) }
    {
        let room = connections.saturating_mul(SHORT_SEGMENTS);
        let row = OpenRow::with_room(alloc, room)?;
        Ok(SegmentRow { row })
    }

    /// Adds the segments of a connection between these endpoints: those that [`segments`](crate::segments) gives, turn by turn.
    pub fn with_connection(
        self,
        endpoints: &'w Endpoints,
        delivered: Delivered<'a>,
    ) -> Result<SegmentRow<'w, 'a>, AllocError>
        requires up { IsLine delivered.up.line }
        requires down { IsLine delivered.down.line }
        ensures { IfOk result (λ row. row ≡ self.entry
            ++ written_turns endpoints.now.ticks (connection_between endpoints.now (delivered_view delivered.entry))) }
    {
        let SegmentRow { mut row } = self;
        put_connection(&mut row, &endpoints.client, endpoints.opened, delivered)?;
        Ok(SegmentRow { row })
    }

    /// The same segments in order of key.
    pub fn sorted(self, alloc: Global) -> Result<SortedRow<'w, 'a>, AllocError>
        ensures { IfOk result (λ row. row ≡ sorted_by_key self.entry) }
    {
        let SegmentRow { row } = self;
        SortedRow::of(alloc, row)
    }
}
