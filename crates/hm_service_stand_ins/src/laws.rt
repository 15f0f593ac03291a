//! Worked examples. Each is a function with an empty body, whose contract is the example.
ghost use Rattle.hm_service_stand_ins.specs.Worked.{GoodRow, MissedRow, SecondSetRow, SkippedRow, StandInRow};

/// The last good text of a source after a check.
#[tactic(auto, using(crate::proofs::WorkedStandIns::worked_good))]
pub fn worked_good()
    ensures { GoodRow }
{}

/// The text that stands for a source in a second check.
#[tactic(auto, using(crate::proofs::WorkedStandIns::worked_stand_in))]
pub fn worked_stand_in()
    ensures { StandInRow }
{}

/// Diagnostics of a second check that are shown, and some that aren't.
#[tactic(auto, using(crate::proofs::WorkedStandIns::worked_missed, crate::proofs::WorkedSets::worked_skipped))]
pub fn worked_missed()
    ensures missed { MissedRow }
    ensures skipped { SkippedRow }
{}

/// Whether there is a second check.
#[tactic(auto, using(crate::proofs::WorkedSets::worked_second_set))]
pub fn worked_second_set()
    ensures { SecondSetRow }
{}
