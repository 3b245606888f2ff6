//! Connections, their members, and the pairs that they join: two peers and their VLAN.
ghost use Rattle.std.specs.Prelude.{◌≡◌, if◌then◌else◌};
ghost use Rattle.conn_table.specs.IndexedSegments.{peer_le, pair_of};

use frame_headers::{Flags, Peer};
use pcap_records::Moment;
use std::alloc::{AllocError, Global};
use std::marker::Model;

/// A connection: the segments of a pair of peers from a beginning up to the pair's next one. An opening has SYN, and neither ACK nor RST
/// (RFC 9293 section 3.5). It is a beginning unless its pair's last opening has the same sender and sequence number.
#[derive(Debug, Drop)]
pub struct Conn {
    /// The number of connections that begin earlier in the file.
    pub number: u32,
    /// The number of the record of its beginning.
    pub opening: u32,
    /// The instant of its beginning.
    pub opened: Moment,
    /// The number of its VLAN, if it has one (IEEE 802.1Q).
    pub vlan: Option<u16>,
    /// The sender of its beginning.
    pub client: Peer,
    pub server: Peer,
    /// Its segments, the beginning first.
    pub members: Members,
}

/// A segment of a connection, with what its stream needs of it. It takes 24 bytes.
#[derive(Clone, Copy, Debug, PartialEq, Eq)]
pub struct Member {
    /// When it was captured: the greatest stamp of the file up to its record.
    pub at: Moment,
    /// The number of its record, from 0.
    pub index: u32,
    pub seq: u32,
    /// The place of the payload in the file.
    pub start: u32,
    /// The number of bytes of the payload.
    pub len: u16,
    pub flags: Flags,
    /// Whether the connection's client sent it.
    pub from_client: bool,
}

/// The members of a connection, in the order of the file.
#[derive(Debug, Drop)]
pub struct Members {
    list: Vec<Member>,
}

impl Model for Members {
    ghost use Rattle.std.specs.Prelude.{List};
    ghost use Rattle.conn_table.specs.declared.conns.Member.{Member};

    ghost Value = { List Member };

    ghost view = { λ m. m.list.items };
}

impl Members {
    ghost use Rattle.std.specs.Prelude.{◌≡◌, [], ◌∷◌, ◌++◌, IfOk, OnOk};

    pub(crate) fn of_first(alloc: Global, room: usize, first: Member) -> Result<Members, AllocError>
        ensures { IfOk result (λ members. members ≡ first ∷ []) }
    {
        let mut list = Vec::with_capacity(alloc, room)?;
        list.push(first)?;
        Ok(Members { list })
    }

    pub(crate) fn push(&mut self, member: Member) -> Result<(), AllocError>
        ensures { OnOk result (self.new ≡ self.old ++ member ∷ []) }
    {
        self.list.push(member)?;
        Ok(())
    }

    /// The members.
    pub fn as_slice(&self) -> &[Member]
        ensures { result.now ≡ self.now }
    {
        &self.list
    }

    /// The members as a `Vec`.
    pub fn into_vec(self) -> Vec<Member>
        ensures { result.items ≡ self }
    {
        let Members { list } = self;
        list
    }
}

/// Two peers without order, the lower one first, by address and then by port, and their VLAN. Peers in another VLAN are others.
#[derive(Clone, Copy, Debug, PartialEq, Eq)]
pub struct Pair {
    pub vlan: Option<u16>,
    pub low: Peer,
    pub high: Peer,
}

impl Pair {
    pub(crate) fn sender(self, from_low: bool) -> Peer
        ensures { result ≡ (if from_low then self.low else self.high) }
    {
        if from_low { self.low } else { self.high }
    }

    pub(crate) fn receiver(self, from_low: bool) -> Peer
        ensures { result ≡ (if from_low then self.high else self.low) }
    {
        if from_low { self.high } else { self.low }
    }
}

// By address, and then by port.
pub(crate) fn is_lower_or_same(a: Peer, b: Peer) -> bool
    ensures { result ≡ peer_le a b }
{
    a.addr < b.addr || (a.addr == b.addr && a.port <= b.port)
}

pub(crate) fn pair_of(vlan: Option<u16>, a: Peer, b: Peer) -> Pair
    ensures { result ≡ pair_of vlan a b }
{
    let (low, high) = if is_lower_or_same(a, b) {
        (a, b)
    } else {
        (b, a)
    };
    Pair { vlan, low, high }
}
