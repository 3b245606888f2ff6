//! The line of a connection in a report.
ghost use Rattle.std.specs.Prelude.{◌≡◌, ◌++◌, IfOk, OnOk};
ghost use Rattle.reassembly.specs.RecordedView.{recorded_view};
ghost use Rattle.toxic_defs.specs.DeliveredLines.{delivered_view};
ghost use Rattle.report.specs.ReportText.{AreShort, peer_text, proxy_text, vlan_text, met_text, peers_text, connection_text};

use crate::sides::push_side;
use crate::texts::{ReportText, push, push_char, push_char_number, push_number, push_told};
use conn_table::Conn;
use frame_headers::Peer;
use reassembly::Recorded;
use std::alloc::{AllocError, Global};
use toxic_defs::Delivered;

/// The room that is allocated for a connection's line, in bytes. A line is seldom longer.
pub const LINE_ROOM: usize = 136;

/// Appends a connection's line with its LF: number, peers, VLAN if it has one, proxy, and each direction's bytes, end and longest delay.
/// If an allocation fails, `text` keeps what it had, and a first part of the line may follow.
#[tactic(auto, unfolding(crate::specs::ReportText::connection_text))]
pub fn put_line(
    text: &mut Vec<u8>,
    conn: &Conn,
    recorded: &Recorded<'_>,
    delivered: &Delivered<'_>,
) -> Result<(), AllocError>
    requires recorded { AreShort recorded.now.up.line recorded.now.down.line }
    requires delivered { AreShort delivered.now.up.line delivered.now.down.line }
    ensures { OnOk result (text.new.items ≡ text.old.items ++ connection_text conn.now.number conn.now.vlan conn.now.client conn.now.server
        (recorded_view recorded.now) (delivered_view delivered.now)) }
{
    let opened = recorded.opened;
    let refused = delivered.refused;
    push_peers(text, conn, delivered.proxy)?;
    push(text, " up ")?;
    push_side(
        text,
        opened,
        refused,
        &recorded.up,
        recorded.up_lost,
        &delivered.up,
    )?;
    push(text, " down ")?;
    push_side(
        text,
        opened,
        refused,
        &recorded.down,
        recorded.down_lost,
        &delivered.down,
    )?;
    push_char(text, b'\n')
}

/// The line of a connection, as [`put_line`] appends it.
pub fn line(
    alloc: Global,
    conn: &Conn,
    recorded: &Recorded<'_>,
    delivered: &Delivered<'_>,
) -> Result<ReportText, AllocError>
    requires recorded { AreShort recorded.now.up.line recorded.now.down.line }
    requires delivered { AreShort delivered.now.up.line delivered.now.down.line }
    ensures { IfOk result (λ text. text ≡ connection_text conn.now.number conn.now.vlan conn.now.client conn.now.server
        (recorded_view recorded.now) (delivered_view delivered.now)) }
{
    let mut text = Vec::with_capacity(alloc, LINE_ROOM)?;
    put_line(&mut text, conn, recorded, delivered)?;
    Ok(ReportText::of(text))
}

fn push_peers(text: &mut Vec<u8>, conn: &Conn, proxy: Option<u32>) -> Result<(), AllocError>
    ensures { OnOk result (text.new.items ≡ text.old.items
        ++ peers_text conn.now.number conn.now.vlan conn.now.client conn.now.server proxy) }
{
    push_number(text, u64::from(conn.number))?;
    push_char(text, b' ')?;
    push_peer(text, conn.client)?;
    push(text, " > ")?;
    push_peer(text, conn.server)?;
    push_met(text, conn.vlan, proxy)
}

fn push_met(text: &mut Vec<u8>, vlan: Option<u16>, proxy: Option<u32>) -> Result<(), AllocError>
    ensures { OnOk result (text.new.items ≡ text.old.items ++ met_text vlan proxy) }
{
    push_vlan(text, vlan)?;
    push(text, " proxy ")?;
    push_proxy(text, proxy)
}

// Appends a peer, as `a.b.c.d:port`.
fn push_peer(text: &mut Vec<u8>, peer: Peer) -> Result<(), AllocError>
    ensures { OnOk result (text.new.items ≡ text.old.items ++ peer_text peer) }
{
    push_number(text, u64::from(peer.addr / (1 << 24)))?;
    push_char_number(text, b'.', u64::from(peer.addr / (1 << 16) % 256))?;
    push_char_number(text, b'.', u64::from(peer.addr / 256 % 256))?;
    push_char_number(text, b'.', u64::from(peer.addr % 256))?;
    push_char_number(text, b':', u64::from(peer.port))
}

fn push_vlan(text: &mut Vec<u8>, vlan: Option<u16>) -> Result<(), AllocError>
    ensures { OnOk result (text.new.items ≡ text.old.items ++ vlan_text vlan) }
{
    match vlan {
        Some(number) => push_told(text, " vlan ", u64::from(number)),
        None => Ok(()),
    }
}

fn push_proxy(text: &mut Vec<u8>, proxy: Option<u32>) -> Result<(), AllocError>
    ensures { OnOk result (text.new.items ≡ text.old.items ++ proxy_text proxy) }
{
    match proxy {
        Some(number) => push_number(text, u64::from(number)),
        None => push_char(text, b'-'),
    }
}
