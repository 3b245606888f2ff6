//! How lines are laid one after another.
ghost use Rattle.std.specs.Prelude.{◌≡◌, ◌++◌, [], OnOk, IfOk, map};
ghost use Rattle.std.specs.List.{flat_map};
ghost use Rattle.pcap_records.specs.Instants.{ticks_of};
ghost use Rattle.reassembly.specs.LineLaws.{IsLine};
ghost use Rattle.toxic_defs.specs.DeliveredLines.{delivered_view};
ghost use Rattle.toxic_defs.specs.Laws.{values_of};
ghost use Rattle.laid_lines.specs.FlatLines.{chunks_of, direction_of, lines_of, together};
ghost use Rattle.laid_lines.specs.RecordedLines.{after, closed, flat_view, lines_by};

use crate::laid::{LaidLines, ToxicapChunk, ToxicapConnection, ToxicapDirection};
use crate::times::{Opening, end_code, end_time, nanoseconds_at, nanoseconds_since};
use conn_workers::{Recording, UnderScenario};
use reassembly::Line;
use std::alloc::{AllocError, Global};
use toxic_defs::Delivered;

impl<'a> LaidLines<'a> {
    pub(crate) fn none(alloc: Global) -> LaidLines<'a>
        ensures { flat_view result ≡ together [] }
    {
        LaidLines {
            pieces: Vec::new(alloc),
            chunks: Vec::new(alloc),
            connections: Vec::new(alloc),
        }
    }

    /// Lays what is delivered of each connection in a scenario.
    pub(crate) fn add_row(
        &mut self,
        under: &UnderScenario<'_>,
        recordings: &[Recording<'_, 'a>],
    ) -> Result<(), AllocError>
        ensures { OnOk result (flat_view self.new
            ≡ after (flat_view self.old) (together (map (lines_by under.now.seed (under.now.number, under.now.scenario.now)) recordings.now))) }
    {
        for recording in recordings {
            let delivered = under.delivered(recording)?;
            self.add(recording, &delivered)?;
        }
        Ok(())
    }

    fn add(
        &mut self,
        recording: &Recording<'_, 'a>,
        delivered: &Delivered<'a>,
    ) -> Result<(), AllocError>
        requires up { IsLine delivered.now.up.line }
        requires down { IsLine delivered.now.down.line }
        ensures { OnOk result (flat_view self.new ≡ after (flat_view self.old) (lines_of recording.now.ticks recording.now.conn.vlan
            recording.now.conn.client recording.now.conn.server recording.now.recorded.opened (delivered_view delivered.now))) }
    {
        let conn = recording.conn();
        let at = recording.recorded().opened;
        let unit = recording.recorded().up.unit();
        let opening = Opening { unit, at };
        let up = self.add_line(&opening, delivered.refused, &delivered.up)?;
        let down = self.add_line(&opening, delivered.refused, &delivered.down)?;
        self.connections.push(ToxicapConnection {
            opened: nanoseconds_at(unit, at),
            up,
            down,
            client_address: conn.client.addr,
            server_address: conn.server.addr,
            client_port: conn.client.port,
            server_port: conn.server.port,
            vlan: u32::from(conn.vlan.unwrap_or(0)),
        })?;
        Ok(())
    }

    // A chunk is laid when the next one starts, and the last at the end.
    fn add_line(
        &mut self,
        opening: &Opening,
        refused: bool,
        line: &Line<'a>,
    ) -> Result<ToxicapDirection, AllocError>
        requires { IsLine line.now.line }
        ensures bytes { OnOk result (flat_map (λ p. p.now) self.new.pieces.items ≡ flat_map (λ p. p.now) self.old.pieces.items ++ values_of line.now.line.bytes) }
        ensures chunks { OnOk result (self.new.chunks.items ≡ self.old.chunks.items ++ chunks_of (ticks_of opening.now.unit) opening.now.at line.now.line) }
        ensures connections { self.new.connections ≡ self.old.connections }
        ensures direction { IfOk result (λ d. d ≡ direction_of (ticks_of opening.now.unit) opening.now.at refused line.now.line) }
    {
        let chunks = self.chunks.len();
        let parts = line.parts();
        let mut begun = ToxicapChunk { end: 0, time: 0 };
        for part in parts {
            if part.bytes.is_empty() {
                continue;
            }
            self.close(part.starts, begun)?;
            self.pieces.push(part.bytes)?;
            begun = ToxicapChunk {
                end: begun.end + part.bytes.len() as u64,
                time: nanoseconds_since(opening, part.at),
            };
        }
        self.close(true, begun)?;
        Ok(ToxicapDirection {
            bytes: begun.end,
            chunks: (self.chunks.len() - chunks) as u64,
            end_time: end_time(opening, line.end()),
            end: end_code(refused, line.end()),
        })
    }

    // Lays a chunk that is over, unless it has no bytes.
    fn close(&mut self, is_over: bool, begun: ToxicapChunk) -> Result<(), AllocError>
        ensures chunks { OnOk result (self.new.chunks.items ≡ self.old.chunks.items ++ closed is_over begun) }
        ensures pieces { self.new.pieces ≡ self.old.pieces }
        ensures connections { self.new.connections ≡ self.old.connections }
    {
        if is_over && begun.end > 0 {
            self.chunks.push(begun)?;
        }
        Ok(())
    }
}
