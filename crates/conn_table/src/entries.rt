//! The segments of a range in the order of the file, each with its pair.
ghost use Rattle.std.specs.Prelude.{◌≡◌, ◌==◌, ◌&&◌};
ghost use Rattle.std.specs.Bool.{beq};

use crate::conns::{Member, Pair, is_lower_or_same, pair_of};
use frame_headers::{Flags, Peer, Segment};
use pcap_records::Moment;

/// What makes an opening a repeat: its sender in the pair, and its sequence number.
#[derive(Clone, Copy, Debug)]
pub(crate) struct Opening {
    pub(crate) from_low: bool,
    pub(crate) seq: u32,
}

impl Opening {
    pub(crate) fn is_same(self, other: Opening) -> bool
        ensures { result ≡ (beq self.from_low other.from_low && (self.seq == other.seq)) }
    {
        self.from_low == other.from_low && self.seq == other.seq
    }
}

/// A segment of a range. It takes 40 bytes: the fields of its pair stand side by side, without the padding of two peers.
#[derive(Clone, Copy, Debug)]
pub(crate) struct Entry {
    /// The segment as a member, if its pair's lower peer is the client.
    pub(crate) member: Member,
    pub(crate) vlan: Option<u16>,
    pub(crate) low_port: u16,
    pub(crate) high_port: u16,
    pub(crate) low_addr: u32,
    pub(crate) high_addr: u32,
}

impl Entry {
    ghost use Rattle.std.specs.Prelude.{◌≡◌, ◌+◌, ◌<◌, ◌^◌, ◌&&◌, length, not};
    ghost use Rattle.frame_headers.specs.Class.{fields_of_segment};
    ghost use Rattle.frame_headers.specs.Flags.{has_flag, syn_flag, ack_flag, rst_flag};
    ghost use Rattle.conn_table.specs.KeptSegments.{kept_at, segment_read};
    ghost use Rattle.conn_table.specs.Entries.{kept_by, pair_in};

    // The segment of the packet that begins at `start` in the file.
    pub(crate) fn of_segment(index: u32, at: Moment, start: u32, segment: &Segment<'_>) -> Entry
        requires within { start + segment.now.offset < 2 ^ 32 }
        requires short { length segment.now.payload.now < 2 ^ 16 }
        ensures { kept_by result
            ≡ kept_at (start + segment.now.offset) (segment_read index at (fields_of_segment segment.now)) }
    {
        let pair = pair_of(segment.vlan, segment.from, segment.to);
        Entry {
            member: Member {
                at,
                index,
                seq: segment.seq,
                start: start + u32::from(segment.offset),
                len: segment.payload.len() as u16,
                flags: segment.flags,
                from_client: is_lower_or_same(segment.from, segment.to),
            },
            vlan: pair.vlan,
            low_port: pair.low.port,
            high_port: pair.high.port,
            low_addr: pair.low.addr,
            high_addr: pair.high.addr,
        }
    }

    pub(crate) fn pair(&self) -> Pair
        ensures { result ≡ pair_in self.now }
    {
        Pair {
            vlan: self.vlan,
            low: Peer {
                addr: self.low_addr,
                port: self.low_port,
            },
            high: Peer {
                addr: self.high_addr,
                port: self.high_port,
            },
        }
    }

    // SYN, and neither ACK nor RST (RFC 9293 section 3.5).
    pub(crate) fn opens(&self) -> bool
        ensures { result ≡ (has_flag self.now.member.flags syn_flag
            && not (has_flag self.now.member.flags ack_flag) && not (has_flag self.now.member.flags rst_flag)) }
    {
        let flags = self.member.flags;
        flags.has(Flags::SYN) && !flags.has(Flags::ACK) && !flags.has(Flags::RST)
    }

    pub(crate) fn opening(&self) -> Opening
        ensures { result ≡ record { from_low = self.now.member.from_client; seq = self.now.member.seq } }
    {
        Opening {
            from_low: self.member.from_client,
            seq: self.member.seq,
        }
    }

    // The segment as a member of a connection whose client is the lower peer, or is not.
    pub(crate) fn member_of(&self, client_low: bool) -> Member
        ensures { result ≡ record self.now.member { from_client = beq self.now.member.from_client client_low } }
    {
        Member {
            from_client: self.member.from_client == client_low,
            ..self.member
        }
    }
}
