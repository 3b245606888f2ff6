//! Theorems about the definitions of this crate, and worked rows of them: the contract of each function is a theorem, or is evaluated.
ghost use Rattle.segment_writer.specs.FirstPieces.{FirstPiece};
ghost use Rattle.segment_writer.specs.KeyLaws.{KeysRise, KeysStandOnce, OnceInAnyOrder, OneOrder, SortedNeverFalls};
ghost use Rattle.segment_writer.specs.KeyOrder.{RisingIsSorted};
ghost use Rattle.segment_writer.specs.SentRows.{LaterSent, CrossingSent, TurnsInOrder, RefusedInOrder, NoneAtHorizon, PiecesCut};
ghost use Rattle.segment_writer.specs.TimelyLines.{LinesAreTimely};

/// Segments whose keys rise are in order already.
#[tactic(auto, using(crate::proofs::InOrder::rising_is_sorted))]
pub fn rising_is_sorted()
    ensures { RisingIsSorted }
{}

/// The first piece of some bytes is what their chunk still has, at most what there is room for.
/// The bytes after it are cut with room for the limit.
#[tactic(auto, using(crate::proofs::PieceCuts::first_piece))]
pub fn first_piece()
    ensures { FirstPiece }
{}

/// In a line that follows the rule of lines instants never fall, and its bytes fit the space of sequence numbers.
#[tactic(auto, using(crate::proofs::WholeSegments::lines_are_timely))]
pub fn lines_are_timely()
    ensures { LinesAreTimely }
{}

/// If no key stands twice, segments have one order of key, whichever stands first.
pub fn one_order()
    ensures { OneOrder }
{}

/// The keys of what is written of a connection rise, so no key stands twice.
#[tactic(auto, using(crate::proofs::KeysApart::keys_rise))]
pub fn keys_rise()
    ensures { KeysRise }
{}

/// No key stands twice among the segments of connections that are numbered in turn.
pub fn keys_stand_once()
    ensures { KeysStandOnce }
{}

/// Of segments in order of key none has a key below one before it.
#[tactic(auto, using(crate::proofs::InOrder::sorted_never_falls))]
pub fn sorted_never_falls()
    ensures { SortedNeverFalls }
{}

/// If no key stands twice, none does in another order of the segments.
pub fn once_in_any_order()
    ensures { OnceInAnyOrder }
{}

#[tactic(auto, unfolding(crate::specs::WrittenSegments::pieces, crate::specs::WrittenSegments::segments_sent_from))]
fn sent_rows()
    ensures later { LaterSent }
    ensures crossing { CrossingSent }
    ensures pieces { PiecesCut }
{}

#[tactic(auto, unfolding(crate::specs::WrittenSegments::pieces, crate::specs::WrittenSegments::segments_sent_from, crate::specs::WrittenSegments::sorted_by_key, crate::specs::WrittenSegments::written_segments))]
fn order_rows()
    ensures turns { TurnsInOrder }
    ensures refused { RefusedInOrder }
    ensures horizon { NoneAtHorizon }
{}
