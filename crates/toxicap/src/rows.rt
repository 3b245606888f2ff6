//! Worked rows of the definitions: each function does nothing, and its contract is evaluated.
ghost use Rattle.toxicap.specs.{SessionWritten, RefusedWritten, RefusedPart, RepeatedGrouped, InTurnGrouped, UnopenedFirstGrouped, BothSidesGrouped};
ghost use Rattle.toxicap.specs.{LateAnswersGrouped};

fn written_rows()
    ensures session_written { SessionWritten }
    ensures refused_written { RefusedWritten }
    ensures refused_part { RefusedPart }
{}

fn grouping_rows()
    ensures repeated { RepeatedGrouped }
    ensures in_turn { InTurnGrouped }
    ensures unopened_first { UnopenedFirstGrouped }
    ensures both_sides { BothSidesGrouped }
    ensures late_answers { LateAnswersGrouped }
{}
