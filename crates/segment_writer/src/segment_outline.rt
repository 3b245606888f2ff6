//! Segments in outline: all of a written segment but the bytes of its record.
ghost use Rattle.std.specs.Prelude.{◌≡◌};
ghost use Rattle.segment_writer.specs.SegmentOutlines.{side_sender};

use crate::framed::SegKey;
use crate::pieces::Cursor;
use crate::senders::{Sender, Turn, peer_in};
use frame_headers::Flags;

/// A segment that is to be written. The `len` bytes of its payload begin at a cursor over the parts of its sender's line.
#[derive(Clone, Copy, Debug)]
pub(crate) struct SegmentOutline {
    pub(crate) key: SegKey,
    pub(crate) is_server: bool,
    pub(crate) flags: Flags,
    pub(crate) seq: u32,
    pub(crate) ack: u32,
    pub(crate) from: Cursor,
    pub(crate) len: usize,
}

/// The client of a connection, or its server.
pub(crate) fn side_sender(client: &Sender, is_server: bool) -> Sender
    ensures { result ≡ side_sender client.now is_server }
{
    if is_server {
        peer_in(client, Turn::Opening)
    } else {
        *client
    }
}
