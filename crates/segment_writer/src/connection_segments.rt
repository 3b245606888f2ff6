//! All segments of a connection as they are written.
ghost use Rattle.std.specs.Prelude.{◌≡◌, false, IfOk, OnOk};
ghost use Rattle.pcap_records.specs.Instants.{ticks_of};
ghost use Rattle.reassembly.specs.LineLaws.{IsLine};
ghost use Rattle.reassembly.specs.RecordedView.{recorded_view};
ghost use Rattle.toxic_defs.specs.DeliveredLines.{delivered_view};
ghost use Rattle.segment_writer.specs.Endpoints.{connection_between, endpoints_by, IsClient};
ghost use Rattle.segment_writer.specs.OpenRows.{IsLonger, IsRow, IsSideOf};
ghost use Rattle.segment_writer.specs.WrittenConnections.{written_connection};
ghost use Rattle.segment_writer.specs.WrittenSegments.{sorted_by_key, written_segments, written_turns};
ghost use Rattle.segment_writer.specs.Senders.{in_turn, peer_in, line_written, opening_written, turns_written};
ghost use Rattle.segment_writer.specs.declared.senders.Turn.TheVariants.{Opening, ClientLine, ServerLine};
ghost use Rattle.segment_writer.specs.TimelyLines.{IsTimely};

use crate::endpoints::Endpoints;
use crate::framed::SegList;
use crate::open_rows::{OpenRow, make_room, put_bare};
use crate::senders::{Numbers, Sender, Turn, in_turn, peer_in};
use crate::turns::put_line;
use conn_table::Conn;
use frame_headers::Flags;
use pcap_records::Moment;
use reassembly::{Line, Recorded};
use std::alloc::{AllocError, Global};
use toxic_defs::Delivered;

/// The segments of a connection as they are written, in order of key. They are its opening (RFC 9293 section 3.5), and of each line the
/// pieces and the end (section 3.6). Those of a line acknowledge what their sender was delivered strictly before them (section 3.4).
/// Nothing is written at the horizon.
pub fn segments(
    alloc: Global,
    conn: &Conn,
    recorded: &Recorded<'_>,
    delivered: Delivered<'_>,
) -> Result<SegList, AllocError>
    requires up { IsLine delivered.up.line }
    requires down { IsLine delivered.down.line }
    ensures { IfOk result (λ list. list ≡ written_segments recorded.now.up.ticks
        (written_connection conn.now.number conn.now.vlan conn.now.client conn.now.server (recorded_view recorded.now)
        (delivered_view delivered.entry))) }
{
    let endpoints = Endpoints::of(conn, recorded);
    joined_turns(alloc, &endpoints.client, endpoints.opened, &delivered)
}

// Writes each turn as a list, and joins them.
fn joined_turns(
    alloc: Global,
    client: &Sender,
    at: Moment,
    delivered: &Delivered<'_>,
) -> Result<SegList, AllocError>
    requires client { IsClient client.now }
    requires up { IsTimely delivered.now.up.line }
    requires down { IsTimely delivered.now.down.line }
    ensures { IfOk result (λ list. list
        ≡ sorted_by_key (turns_written delivered.now.refused client.now at delivered.now.up.line delivered.now.down.line)) }
{
    let mut opening = OpenRow::with_room(alloc, 0)?;
    put_opening(&mut opening, client, at, delivered.refused)?;
    let upward = in_turn(client, Turn::ClientLine);
    let up = sent(alloc, client, &upward, &delivered.up, &delivered.down)?;
    let downward = peer_in(client, Turn::ServerLine);
    let down = sent(alloc, client, &downward, &delivered.down, &delivered.up)?;
    let joined = SegList::join(alloc, opening.written(alloc)?, up)?;
    SegList::join(alloc, joined, down)
}

// The segments of a line that `sender` writes.
fn sent(
    alloc: Global,
    client: &Sender,
    sender: &Sender,
    own: &Line<'_>,
    peer: &Line<'_>,
) -> Result<SegList, AllocError>
    requires side { IsSideOf client.now sender.now }
    requires own { IsTimely own.now.line }
    requires peer { IsTimely peer.now.line }
    ensures { IfOk result (λ list. list ≡ line_written sender.now own.now.line peer.now.line) }
{
    let mut row = OpenRow::with_room(alloc, 0)?;
    put_sent(&mut row, client, sender, own, peer)?;
    row.written(alloc)
}

/// Puts the segments of a connection, turn by turn, after those of a row. `client` sends in the opening.
pub(crate) fn put_connection<'w, 'a>(
    row: &mut OpenRow<'w, 'a>,
    client: &'w Sender,
    opened: Moment,
    delivered: Delivered<'a>,
) -> Result<(), AllocError>
    requires client { IsClient client.now }
    requires up { IsLine delivered.up.line }
    requires down { IsLine delivered.down.line }
    requires row { IsRow row.old }
    ensures { OnOk result (IsLonger row.old (written_turns (ticks_of client.now.unit)
        (connection_between (endpoints_by client.now opened) (delivered_view delivered.entry))) row.new) }
{
    let ups = delivered.up.parts().len();
    let downs = delivered.down.parts().len();
    make_room(row, ups.saturating_add(downs))?;
    put_turns(row, client, opened, &delivered)
}

fn put_turns<'w, 'a>(
    row: &mut OpenRow<'w, 'a>,
    client: &'w Sender,
    at: Moment,
    delivered: &Delivered<'a>,
) -> Result<(), AllocError>
    requires client { client.now.is_server ≡ false }
    requires up { IsTimely delivered.now.up.line }
    requires down { IsTimely delivered.now.down.line }
    requires row { IsRow row.old }
    ensures { OnOk result (IsLonger row.old
        (turns_written delivered.now.refused client.now at delivered.now.up.line delivered.now.down.line) row.new) }
{
    put_opening(row, client, at, delivered.refused)?;
    let upward = in_turn(client, Turn::ClientLine);
    put_sent(row, client, &upward, &delivered.up, &delivered.down)?;
    let downward = peer_in(client, Turn::ServerLine);
    put_sent(row, client, &downward, &delivered.down, &delivered.up)
}

// Puts the segments of a line that `sender` writes.
fn put_sent<'w, 'a>(
    row: &mut OpenRow<'w, 'a>,
    client: &'w Sender,
    sender: &Sender,
    own: &Line<'a>,
    peer: &Line<'_>,
) -> Result<(), AllocError>
    requires side { IsSideOf client.now sender.now }
    requires own { IsTimely own.now.line }
    requires peer { IsTimely peer.now.line }
    requires row { IsRow row.old }
    ensures { OnOk result (IsLonger row.old (line_written sender.now own.now.line peer.now.line) row.new) }
{
    let (own_end, peer_end) = (own.end(), peer.end());
    put_line(
        row,
        client,
        sender,
        own.parts(),
        &own_end,
        peer.parts(),
        &peer_end,
    )
}

// Puts SYN, SYN ACK and ACK (RFC 9293 section 3.5), or SYN and RST ACK if the connection is refused. At the horizon there are none.
fn put_opening<'w>(
    row: &mut OpenRow<'w, '_>,
    client: &'w Sender,
    at: Moment,
    refused: bool,
) -> Result<(), AllocError>
    requires client { client.now.is_server ≡ false }
    requires row { IsRow row.old }
    ensures { OnOk result (IsLonger row.old (opening_written refused client.now (peer_in client.now Opening) at) row.new) }
{
    let server = peer_in(client, Turn::Opening);
    if !at.is_before_horizon(client.unit) {
        return Ok(());
    }
    let syn = numbers(client.base, 0, 0);
    put_bare(row, client, client, at, syn, Flags::SYN)?;
    let client_next = client.base.wrapping_add(1);
    if refused {
        let refusal = numbers(0, client_next, 1);
        let flags = Flags::RST.with(Flags::ACK);
        return put_bare(row, client, &server, at, refusal, flags);
    }
    let answer = numbers(server.base, client_next, 1);
    put_bare(
        row,
        client,
        &server,
        at,
        answer,
        Flags::SYN.with(Flags::ACK),
    )?;
    let third = numbers(client_next, server.base.wrapping_add(1), 2);
    put_bare(row, client, client, at, third, Flags::ACK)
}

fn numbers(seq: u32, ack: u32, place: u32) -> Numbers
    ensures { result ≡ record { seq = seq; ack = ack; place = place } }
{
    Numbers { seq, ack, place }
}
