//! A segment in a row.
ghost use Rattle.std.specs.Prelude.{◌≡◌, ◌++◌, ℕ, Bool, OnErr, OnOk, length, min};
ghost use Rattle.pcap_records.specs.Writing.{record_bytes};
ghost use Rattle.segment_writer.specs.SegmentOutlines.{side_sender};
ghost use Rattle.segment_writer.specs.SegmentRows.{framed_at, segment_key, IsInRow};
ghost use Rattle.segment_writer.specs.Senders.{frame_with, header_with};

use crate::framed::SegKey;
use crate::payloads::{Payload, payload_bytes};
use crate::records::{put_record, record_len};
use crate::segment_outline::side_sender;
use crate::senders::{Sender, header_with};
use frame_headers::Flags;
use pcap_records::Moment;
use std::alloc::AllocError;

/// A segment in a row: all of it but the bytes of its headers. `client` is that of its connection, in the opening.
#[derive(Clone, Copy, Debug)]
pub(crate) struct RowSegment<'w, 'a> {
    pub(crate) moment: Moment,
    pub(crate) payload: Payload<'a>,
    pub(crate) client: &'w Sender,
    pub(crate) place: u32,
    pub(crate) seq: u32,
    pub(crate) ack: u32,
    pub(crate) turn: u8,
    pub(crate) is_server: bool,
    pub(crate) flags: Flags,
}

impl RowSegment<'_, '_> {
    ghost use Rattle.std.specs.Prelude.{◌≡◌, ◌++◌, OnErr, OnOk, length, min};
    ghost use Rattle.segment_writer.specs.SegmentRows.{framed_at, segment_key, IsInRow};

    pub(crate) fn key(&self) -> SegKey
        ensures { result ≡ segment_key self.now }
    {
        SegKey {
            moment: self.moment,
            conn: self.client.conn,
            turn: self.turn,
            place: self.place,
        }
    }

    /// The length of its record, or `usize::MAX` if it is more.
    pub(crate) fn record_len(&self, gathered: &[u8]) -> usize
        requires { IsInRow gathered.now self.now }
        ensures { result ≡ min (length (framed_at gathered.now self.now).bytes) usize.MAX }
    {
        sent_len(self.client, payload_bytes(gathered, &self.payload))
    }

    /// Appends its record. An error leaves `out` unchanged.
    pub(crate) fn put(&self, gathered: &[u8], out: &mut Vec<u8>) -> Result<(), AllocError>
        requires { IsInRow gathered.now self.now }
        ensures ok { OnOk result (out.new.items ≡ out.old.items ++ (framed_at gathered.now self.now).bytes) }
        ensures err { OnErr result (out.new.items ≡ out.old.items) }
    {
        let sender = side_sender(self.client, self.is_server);
        let header = header_with(&sender, self.seq, self.ack, self.flags);
        let payload = payload_bytes(gathered, &self.payload);
        put_record(out, sender.unit, self.moment, &header, payload)
    }
}

// The length of the record of a segment that a client or its server sends, or `usize::MAX` if it is more.
fn sent_len(client: &Sender, payload: &[u8]) -> usize
    ensures { (is_server : Bool) (ticks at seq ack flags : ℕ)
        → result ≡ min (length (record_bytes ticks at (frame_with (header_with (side_sender client.now is_server) seq ack flags) payload.now))) usize.MAX }
{
    let mac_from: &[u8] = &client.mac_from;
    let mac_to: &[u8] = &client.mac_to;
    prove!(mac_from.len() == 6);
    prove!(mac_to.len() == 6);
    record_len(client.vlan, payload.len())
}
