//! Worked rows of the definitions: the function does nothing, and its contract is evaluated.
ghost use Rattle.report.specs.ReportRows.{SessionTold, RefusedTold, LimitedText, ResetText, StoppedText, ResetAtOnceText, TieText, FinStaysText, AtHorizonText, BeforeHorizonText, LaterText, LongestText};

fn line_rows()
    ensures session { SessionTold }
    ensures refused { RefusedTold }
    ensures limited { LimitedText }
    ensures reset { ResetText }
    ensures stopped { StoppedText }
    ensures reset_at_once { ResetAtOnceText }
    ensures tie { TieText }
    ensures fin_stays { FinStaysText }
    ensures at_horizon { AtHorizonText }
    ensures before_horizon { BeforeHorizonText }
    ensures later { LaterText }
    ensures longest { LongestText }
{}
