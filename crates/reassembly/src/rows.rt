//! Worked rows of the definitions: each function does nothing, and its contract is evaluated.
ghost use Rattle.reassembly.specs.RecordedRows.{NumbersWrap, GapKept, NothingSent, StampsFell, SessionClosed, SynFinWithData, EarlyFinCounts, FinWaits, ResetEndsBoth, FarPositions};

#[tactic(auto, unfolding(crate::specs::RecordedLines::recorded_side))]
fn byte_rows()
    ensures numbers_wrap { NumbersWrap }
    ensures gap_kept { GapKept }
    ensures nothing_sent { NothingSent }
    ensures stamps_fell { StampsFell }
    ensures far_positions { FarPositions }
{}

#[tactic(auto, unfolding(crate::specs::RecordedLines::recorded_side))]
fn end_rows()
    ensures session_closed { SessionClosed }
    ensures syn_fin_with_data { SynFinWithData }
    ensures early_fin_counts { EarlyFinCounts }
    ensures fin_waits { FinWaits }
    ensures reset_ends_both { ResetEndsBoth }
{}
