//! Who sends segments, and what the headers of these say.
ghost use Rattle.std.specs.Prelude.{◌≡◌};
ghost use Rattle.segment_writer.specs.Senders.{peer_in, in_turn, header_with, turn_number};

use crate::framed::SegKey;
use frame_headers::{Flags, Header, Peer};
use pcap_records::{Moment, Unit};

/// Whose turn it is to write. At one instant a connection's turns write in this order.
#[derive(Clone, Copy, Debug)]
pub(crate) enum Turn {
    /// Both sides write it.
    Opening,
    ClientLine,
    ServerLine,
}

impl Turn {
    ghost use Rattle.std.specs.Prelude.{◌≡◌};
    ghost use Rattle.segment_writer.specs.Senders.{turn_number};

    fn number(self) -> u8
        ensures { result ≡ turn_number self }
    {
        match self {
            Turn::Opening => 0,
            Turn::ClientLine => 1,
            Turn::ServerLine => 2,
        }
    }
}

/// Who sends the segments of a turn, and in which unit instants count.
#[derive(Clone, Copy, Debug)]
pub(crate) struct Sender {
    pub unit: Unit,
    pub conn: u32,
    pub turn: Turn,
    pub is_server: bool,
    pub mac_from: [u8; 6],
    pub mac_to: [u8; 6],
    pub vlan: Option<u16>,
    pub from: Peer,
    pub to: Peer,
    pub base: u32,
    pub peer_base: u32,
}

/// The numbers of a segment, and its place in its turn.
#[derive(Clone, Copy)]
pub(crate) struct Numbers {
    pub seq: u32,
    pub ack: u32,
    pub place: u32,
}

pub(crate) fn peer_in(sender: &Sender, turn: Turn) -> Sender
    ensures { result ≡ peer_in sender.now turn }
{
    let mac_from = sender.mac_to;
    let mac_to = sender.mac_from;
    Sender {
        unit: sender.unit,
        conn: sender.conn,
        turn,
        is_server: !sender.is_server,
        mac_from,
        mac_to,
        vlan: sender.vlan,
        from: sender.to,
        to: sender.from,
        base: sender.peer_base,
        peer_base: sender.base,
    }
}

pub(crate) fn in_turn(sender: &Sender, turn: Turn) -> Sender
    ensures { result ≡ in_turn sender.now turn }
{
    Sender { turn, ..*sender }
}

pub(crate) fn header_with(sender: &Sender, seq: u32, ack: u32, flags: Flags) -> Header
    ensures { result ≡ header_with sender.now seq ack flags }
{
    let mac_from = sender.mac_from;
    let mac_to = sender.mac_to;
    Header {
        mac_from,
        mac_to,
        vlan: sender.vlan,
        from: sender.from,
        to: sender.to,
        seq,
        ack,
        flags,
    }
}

pub(crate) fn key_at(sender: &Sender, moment: Moment, place: u32) -> SegKey
    ensures { result ≡ record { moment = moment; conn = sender.now.conn; turn = turn_number sender.now.turn; place = place } }
{
    SegKey {
        moment,
        conn: sender.conn,
        turn: sender.turn.number(),
        place,
    }
}
