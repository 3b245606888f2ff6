//! Scripts: what the closed loop keeps of a connection's recording; hearings: what it takes of a rehearsal.
ghost use Rattle.std.specs.Prelude.{◌≡◌, ◌<◌, ◌^◌, find, option_map, IfOk};
ghost use Rattle.reassembly.specs.LineView.{end_view, end_instant};
ghost use Rattle.reassembly.specs.RecordedView.{recorded_view};
ghost use Rattle.toxic_defs.specs.DeliveredLines.{delivered_view};
ghost use Rattle.closed_loop.specs.Scripts.{peer_number, vlan_number, ports_number, is_farewell, farewell_in, last_in, script_of, closing_instant, hearing_of};

use crate::arrivals::{Arrivals, line_arrivals};
use crate::packets::{Bringers, Making, Packet, packets_of};
use crate::times::earlier;
use conn_table::{Conn, Member};
use frame_headers::{Flags, Peer};
use reassembly::{End, Recorded};
use std::alloc::{AllocError, Global};
use std::marker::Model;
use toxic_defs::Delivered;

/// What the closed loop keeps of a connection's recording. Packets are known by the numbers of their records.
#[derive(Drop)]
pub(crate) struct Script {
    pub(crate) opening: u32,
    /// The client's first FIN or reset.
    pub(crate) farewell: Option<u32>,
    /// What had ended it.
    pub(crate) ended: Option<u64>,
    pub(crate) last: u32,
    /// The client's address.
    pub(crate) client: u32,
    /// Both peers and the VLAN, as one number.
    pub(crate) ports: u128,
    /// Its packets after the opening.
    pub(crate) packets: Vec<Packet>,
}

impl Model for Script {
    ghost use Rattle.closed_loop.specs.Scripts.{ScriptView};

    ghost Value = { ScriptView };

    ghost view = { λ p. record {
      opening = p.opening;
      farewell = p.farewell;
      ended = p.ended;
      last = p.last;
      client = p.client;
      ports = p.ports;
      packets = p.packets.items;
    } };
}

/// What a rehearsal delivers of a connection.
#[derive(Drop)]
pub(crate) struct Hearing {
    pub(crate) up: Arrivals,
    pub(crate) down: Arrivals,
    /// Whether a disabled proxy refused it.
    pub(crate) refused: bool,
    /// When the server's line ended.
    pub(crate) told: Option<u64>,
    /// When a close or a reset came.
    pub(crate) closed: Option<u64>,
}

impl Model for Hearing {
    ghost use Rattle.closed_loop.specs.Times.{spread};
    ghost use Rattle.closed_loop.specs.Scripts.{HearingView};

    ghost Value = { HearingView };

    ghost view = { λ h. record {
      up = spread h.up;
      down = spread h.down;
      refused = h.refused;
      told = h.told;
      closed = h.closed;
    } };
}

fn peer_number(p: Peer) -> u128
    ensures value { result ≡ peer_number p }
    ensures small { result < 2 ^ 48 }
{
    u128::from(p.addr) * 0x1_0000 + u128::from(p.port)
}

fn vlan_number(vlan: Option<u16>) -> u128
    ensures value { result ≡ vlan_number vlan }
    ensures small { result < 2 ^ 17 }
{
    match vlan {
        Some(vlan) => u128::from(vlan) + 1,
        None => 0,
    }
}

fn ports_number(vlan: Option<u16>, a: Peer, b: Peer) -> u128
    ensures { result ≡ ports_number vlan a b }
{
    let vlan = vlan_number(vlan);
    let a = peer_number(a);
    let b = peer_number(b);
    (vlan * 0x1_0000_0000_0000 + a.min(b)) * 0x1_0000_0000_0000 + a.max(b)
}

fn is_farewell(m: &Member) -> bool
    ensures { result ≡ is_farewell m.now }
{
    m.from_client && (m.flags.has(Flags::FIN) || m.flags.has(Flags::RST))
}

fn first_farewell(members: &[Member]) -> Option<u32>
    ensures { result ≡ option_map (λ m. m.index) (find is_farewell members.now) }
{
    for m in members {
        if is_farewell(m) {
            return Some(m.index);
        }
    }
    None
}

fn farewell_in(members: &[Member]) -> Option<u32>
    ensures { result ≡ farewell_in members.now }
{
    match members.split_first() {
        Some((_, later)) => first_farewell(later),
        None => None,
    }
}

fn last_in(opening: u32, members: &[Member]) -> u32
    ensures { result ≡ last_in opening members.now }
{
    match members.last() {
        Some(m) => m.index,
        None => opening,
    }
}

fn end_number(end: End) -> Option<u64>
    ensures { result ≡ end_instant (end_view end) }
{
    match end.at() {
        Some(at) => Some(at.count()),
        None => None,
    }
}

fn wide(number: Option<u32>) -> Option<u64>
    ensures { result ≡ number }
{
    match number {
        Some(number) => Some(u64::from(number)),
        None => None,
    }
}

/// The script of a connection; `numbered` is what is recorded of it if instants are numbers of records.
pub(crate) fn script_of(
    alloc: Global,
    making: Making<'_>,
    conn: &Conn,
    numbered: &Recorded<'_>,
) -> Result<Script, AllocError>
    ensures { IfOk result (λ p. p ≡ script_of making.entry.manners making.entry.recorded.now conn.now (recorded_view numbered.now)) }
{
    let up = line_arrivals(alloc, &numbered.up)?;
    let down = line_arrivals(alloc, &numbered.down)?;
    let brought = Bringers {
        up: &up,
        down: &down,
    };
    let members = conn.members.as_slice();
    let packets = packets_of(alloc, making, brought, members)?;
    let farewell = farewell_in(members);
    let told = end_number(numbered.down.end());
    Ok(Script {
        opening: conn.opening,
        farewell,
        ended: earlier(wide(farewell), told),
        last: last_in(conn.opening, members),
        client: conn.client.addr,
        ports: ports_number(conn.vlan, conn.client, conn.server),
        packets,
    })
}

fn closing_instant(end: End) -> Option<u64>
    ensures { result ≡ closing_instant (end_view end) }
{
    match end {
        End::Close(at) | End::Reset(at) => Some(at.count()),
        End::Live | End::Fin(_) => None,
    }
}

/// What is delivered of a connection.
pub(crate) fn hearing_of(alloc: Global, d: &Delivered<'_>) -> Result<Hearing, AllocError>
    ensures { IfOk result (λ h. h ≡ hearing_of (delivered_view d.now)) }
{
    Ok(Hearing {
        up: line_arrivals(alloc, &d.up)?,
        down: line_arrivals(alloc, &d.down)?,
        refused: d.refused,
        told: end_number(d.down.end()),
        closed: earlier(closing_instant(d.up.end()), closing_instant(d.down.end())),
    })
}
