//! Theorems about the definitions of this crate: the contract of each function is the theorem.
ghost use Rattle.reassembly.specs.ConnectionInstants.{ConnectionsAreInTime};
ghost use Rattle.reassembly.specs.LineLaws.{RecordedSidesAreLines, RecordedSidesLieBetween};
ghost use Rattle.reassembly.specs.RecordedView.{ConnectionsAreOfCapture, ConnsAreOfCapture};

use conn_table::laws::indexed_connections_agree;
use frame_headers::laws::payloads_are_in_place;

/// The segments of each connection in a range of records are in the capture, go between two peers, and have instants that never fall.
#[tactic(auto, using(crate::proofs::OfCapture::connections_are_of_capture))]
pub fn connections_are_of_capture()
    ensures { ConnectionsAreOfCapture }
{}

/// So `lines` can be called with each connection that the table of a range shows.
#[tactic(auto, using(crate::proofs::OfCapture::conns_are_of_capture))]
pub fn conns_are_of_capture()
    ensures { ConnsAreOfCapture }
{}

/// A recorded line begins with a chunk, its instants never fall, a chunk has one instant, and no end is before the last byte.
/// It has fewer than 2^32 bytes. The segments' instants must not fall in file order, and no payload may be longer than a capture.
#[tactic(auto, using(crate::proofs::Chunks::recorded_sides_are_lines))]
pub fn recorded_sides_are_lines()
    ensures { RecordedSidesAreLines }
{}

/// If all segments were recorded between two instants, no byte is before or after these, and no end is before the first.
#[tactic(auto, using(crate::proofs::Chunks::recorded_sides_lie_between))]
pub fn recorded_sides_lie_between()
    ensures { RecordedSidesLieBetween }
{}

/// Each connection's segments were recorded from its opening to the horizon, at instants that never fall. No payload is longer than a capture.
#[tactic(auto, using(crate::proofs::InTime::connections_are_in_time))]
pub fn connections_are_in_time()
    ensures { ConnectionsAreInTime }
{
    payloads_are_in_place();
    indexed_connections_agree();
}
