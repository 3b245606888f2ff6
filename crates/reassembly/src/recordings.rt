//! What the two sides of a connection of the table sent.
ghost use Rattle.std.specs.Prelude.{◌≡◌, ◌<◌, length, IfOk, All};
ghost use Rattle.frame_headers.specs.Frame.{frame_class, segment, segment_fields};
ghost use Rattle.conn_table.specs.KeptSegments.{frame_at};
ghost use Rattle.conn_table.specs.IndexedConnections.{IndexedConnection, without_indices};
ghost use Rattle.conn_table.specs.Tables.{conn_in};
ghost use Rattle.reassembly.specs.LineLaws.{IsLine};
ghost use Rattle.reassembly.specs.LineView.{end_view};
ghost use Rattle.reassembly.specs.MemberSpans.{IsInFile};
ghost use Rattle.reassembly.specs.RecordedLines.{recorded_connection};
ghost use Rattle.reassembly.specs.RecordedView.{recorded_view, IsConnOf, IsConnectionOf, IsOfMembers, other_end, first_seq};
ghost use Rattle.pcap_records.specs.Instants.{ticks_of};
ghost use Rattle.pcap_records.specs.CaptureView.{bytes_of};

use crate::line_parts::{End, Line};
use crate::positions::{effective_members, reset_at, server_base};
use crate::sides::recorded_side;
use conn_table::{Conn, Member};
use frame_headers::{Class, classify, laws};
use pcap_records::{Capture, FileBytes, Moment, Unit};
use std::alloc::{AllocError, Global};

/// What a connection's two sides sent, as far as the capture tells.
#[derive(Debug, Drop)]
pub struct Recorded<'a> {
    /// The line of the client.
    pub up: Line<'a>,
    /// The line of the server.
    pub down: Line<'a>,
    /// The number of the client's bytes after a gap or its FIN.
    pub up_lost: u64,
    /// The number of the server's bytes after a gap or its FIN.
    pub down_lost: u64,
    /// The sequence number from which the client's bytes count.
    pub client_base: u32,
    /// The sequence number from which the server's bytes count, if it answered.
    pub server_base: Option<u32>,
    /// When the connection was opened.
    pub opened: Moment,
    /// The client's Ethernet address.
    pub mac_client: [u8; 6],
    /// The server's Ethernet address.
    pub mac_server: [u8; 6],
}

#[derive(Clone, Copy)]
struct Macs {
    client: [u8; 6],
    server: [u8; 6],
}

/// The lines of both sides of a connection of the capture. The parts' bytes are slices of the capture.
pub fn lines<'a>(
    alloc: Global,
    conn: &Conn,
    capture: &Capture<'a>,
) -> Result<Recorded<'a>, AllocError>
    requires { IsConnOf capture.now conn.now }
    ensures value { IfOk result (λ r. (x : IndexedConnection) → IsConnectionOf capture.now x → conn.now ≡ conn_in capture.now x → recorded_view r ≡ recorded_connection (without_indices x)) }
    ensures up { IfOk result (λ r. IsLine r.up.line) }
    ensures down { IfOk result (λ r. IsLine r.down.line) }
    ensures up_ticks { IfOk result (λ r. r.up.ticks ≡ capture.now.ticks) }
    ensures down_ticks { IfOk result (λ r. r.down.ticks ≡ capture.now.ticks) }
{
    laws::payloads_are_in_place();
    let file = capture.bytes();
    let macs = macs_at(capture, conn.opening);
    let members = conn.members.as_slice();
    recorded_by_members(alloc, capture.unit(), conn.opened, macs, members, file)
}

fn recorded_by_members<'a>(
    alloc: Global,
    unit: Unit,
    opened: Moment,
    macs: Macs,
    members: &[Member],
    file: FileBytes<'a>,
) -> Result<Recorded<'a>, AllocError>
    requires filed { All (IsInFile (bytes_of file)) members.now }
    requires some { 0 < length members.now }
    ensures sides { IfOk result (λ r. IsOfMembers (bytes_of file.entry) members.now (recorded_view r)) }
    ensures opened { IfOk result (λ r. r.opened ≡ opened) }
    ensures client { IfOk result (λ r. r.mac_client ≡ macs.client) }
    ensures server { IfOk result (λ r. r.mac_server ≡ macs.server) }
    ensures up_ticks { IfOk result (λ r. r.up.ticks ≡ ticks_of unit) }
    ensures down_ticks { IfOk result (λ r. r.down.ticks ≡ ticks_of unit) }
{
    let client_base = first_seq(members);
    let counted = effective_members(members);
    let server_base = server_base(counted);
    let other = end_else(members);
    let up = recorded_side(alloc, Some(client_base), true, counted, file, &other)?;
    let down = recorded_side(alloc, server_base, false, counted, file, &other)?;
    let mac_client = macs.client;
    let mac_server = macs.server;
    Ok(Recorded {
        up: Line::of_parts(unit, up.parts, up.end),
        down: Line::of_parts(unit, down.parts, down.end),
        up_lost: up.lost,
        down_lost: down.lost,
        client_base,
        server_base,
        opened,
        mac_client,
        mac_server,
    })
}

fn first_seq(members: &[Member]) -> u32
    requires { 0 < length members.now }
    ensures { result ≡ first_seq members.now }
{
    let first = &members[0];
    first.seq
}

// The end of a line that is not whole.
fn end_else(members: &[Member]) -> End
    ensures { end_view result ≡ other_end members.now }
{
    match reset_at(members) {
        Some(at) => End::Reset(at),
        None => End::Live,
    }
}

fn macs_at(capture: &Capture, opening: u32) -> Macs
    requires within { opening < length capture.now.records }
    requires class { frame_class (frame_at capture.now opening) ≡ segment }
    ensures client { result.client ≡ (segment_fields (frame_at capture.now opening)).mac_from }
    ensures server { result.server ≡ (segment_fields (frame_at capture.now opening)).mac_to }
{
    match classify(capture.packet(opening as usize)) {
        Class::Segment(opening) => {
            let client = opening.mac_from;
            let server = opening.mac_to;
            Macs { client, server }
        }
        _ => unreachable!(),
    }
}
