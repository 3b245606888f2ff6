//! Theorems about toxics and the session cut. Each function does nothing: its contract is the theorem.
ghost use Rattle.toxic_defs.specs.Laws.{CutLinesAreLines, FirstBytesStay, CutLinesEndInTime, CutEndsAreNotEarly, ToxicsKeepLines, ChainsKeepLines, IdleChainsChangeNothing};
ghost use Rattle.toxic_defs.specs.Laws.{RecordedLinesDelay, ToxicsDelay, ChainsDelay, CutLinesDelay, DelayedBytesAreTheFirst, DeliveredIsRecorded};

/// The session cut makes a line of a line: its chunks, instants, end and length are as those of recorded lines.
#[tactic(auto, using(crate::proofs::CutLines::cut_lines_are_lines))]
pub fn cut_lines_are_lines()
    ensures { CutLinesAreLines }
{}

/// The bytes that the session cut leaves of a line are its first ones, each at its instant.
#[tactic(auto, using(crate::proofs::CutLines::first_bytes_stay))]
pub fn first_bytes_stay()
    ensures { FirstBytesStay }
{}

/// After the session cut each byte and an end that has an instant are before the horizon.
#[tactic(auto, using(crate::proofs::CutLines::cut_lines_end_in_time))]
pub fn cut_lines_end_in_time()
    ensures { CutLinesEndInTime }
{}

/// If no end is before an instant, such as the opening, no end of a cut line is.
pub fn cut_ends_are_not_early()
    ensures { CutEndsAreNotEarly }
{}

/// A toxic makes a line of a line, and so does a chain of toxics.
#[tactic(auto, using(crate::proofs::ToxicLines::toxics_keep_lines, crate::proofs::ToxicLines::chains_keep_lines))]
pub fn toxics_keep_lines()
    ensures toxic { ToxicsKeepLines }
    ensures chain { ChainsKeepLines }
{}

/// A chain leaves a line as it is if none of its toxics applies.
#[tactic(auto, using(crate::proofs::ToxicLines::idle_chains_change_nothing))]
pub fn idle_chains_change_nothing()
    ensures { IdleChainsChangeNothing }
{}

/// A recorded line has the first recorded bytes, none before it was recorded, and no end before the opening.
#[tactic(auto, using(crate::proofs::CutLines::recorded_lines_delay))]
pub fn recorded_lines_delay()
    ensures { RecordedLinesDelay }
{}

/// Toxics keep this: a line has the first recorded bytes, none before it was recorded, and no end before the opening.
pub fn toxics_delay()
    ensures toxic { ToxicsDelay }
    ensures chain { ChainsDelay }
{}

/// The session cut keeps what toxics keep: a line has the first recorded bytes, none before it was recorded, and no end before the opening.
pub fn cut_lines_delay()
    ensures { CutLinesDelay }
{}

/// If bytes are the first recorded ones, none before it was recorded, their values are the first recorded values.
#[tactic(auto, using(crate::proofs::KeptBytes::the_first))]
pub fn delayed_bytes_are_the_first()
    ensures { DelayedBytesAreTheFirst }
{}

/// By any proxy or none, each direction delivers the first recorded bytes, none before it was recorded, and no end before the opening.
/// Recorded lines have to be as those of captures are: no byte is before the opening or past the horizon.
#[tactic(auto, using(crate::proofs::ToxicLines::delivered_is_recorded))]
pub fn delivered_is_recorded()
    ensures { DeliveredIsRecorded }
{}
