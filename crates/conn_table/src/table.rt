//! The table of a capture's connections.
ghost use Rattle.std.specs.Prelude.{◌≡◌, ◌<◌, ◌^◌, IfOk, length};
ghost use Rattle.conn_table.specs.Entries.{all_of};
ghost use Rattle.conn_table.specs.Growing.{HasGrown};
ghost use Rattle.conn_table.specs.Tables.{finished};

use crate::class_counts::Counts;
use crate::conns::Conn;
use crate::entries::Entry;
use crate::growth::Growth;
use crate::partial::Partial;
use std::alloc::{AllocError, Global};
use std::marker::Model;

/// The connections of a capture's records, in the order of their beginnings.
#[derive(Drop)]
pub struct Table {
    conns: Vec<Conn>,
    unopened: u64,
    counts: Counts,
}

impl Model for Table {
    ghost use Rattle.conn_table.specs.Tables.{TableView};

    ghost Value = { TableView };

    ghost view = { λ t. record { conns = t.conns.items; unopened = t.unopened; counts = t.counts } };
}

impl Table {
    ghost use Rattle.std.specs.Prelude.{◌≡◌};

    /// The connections: that of number n is at place n.
    pub fn conns(&self) -> &[Conn]
        ensures { result.now ≡ self.now.conns }
    {
        &self.conns
    }

    /// The number of segments that stand before each beginning of their pair, and so belong to no connection.
    pub fn unopened(&self) -> u64
        ensures { result ≡ self.now.unopened }
    {
        self.unopened
    }

    /// The number of packets of each class.
    pub fn counts(&self) -> Counts
        ensures { result ≡ self.now.counts }
    {
        self.counts
    }
}

/// The table of a partial, which covers all records of the capture. Each beginning begins a connection ([`Conn`]).
/// Any other segment belongs to the last one of its pair, or to none.
pub fn finish(alloc: Global, partial: Partial) -> Result<Table, AllocError>
    ensures { IfOk result (λ table. table ≡ finished partial) }
{
    let Partial { counts, ranges, .. } = partial;
    let growth = grown_of(alloc, ranges)?;
    let Growth {
        conns,
        last_connections: _,
        unopened,
        room: _,
    } = growth;
    Ok(Table {
        conns,
        unopened,
        counts,
    })
}

// The growth of some ranges' segments, range after range. A range is dropped once its segments are taken.
fn grown_of(alloc: Global, ranges: Vec<Vec<Entry>>) -> Result<Growth, AllocError>
    requires { length (all_of ranges.items) < 2 ^ 26 }
    ensures { IfOk result (HasGrown (all_of ranges.items)) }
{
    let mut growth = Growth::of_none(alloc, &ranges)?;
    for range in ranges {
        growth.take_all(alloc, &range)?;
    }
    Ok(growth)
}
