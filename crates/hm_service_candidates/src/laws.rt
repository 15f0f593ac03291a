//! Worked examples. Each is a function with an empty body, whose contract is the example.
ghost use Rattle.hm_service_candidates.specs.Worked.{CandidateRow, EditedRow, RangeRow};

/// A text with an edit.
#[tactic(auto, using(crate::proofs::WorkedCandidates::worked_edited))]
pub fn worked_edited()
    ensures { EditedRow }
{}

/// The messages and the candidates of a fault.
#[tactic(auto, using(crate::proofs::WorkedCandidates::worked_candidates))]
pub fn worked_candidates()
    ensures { CandidateRow }
{}

/// The changes that are tried for a range.
#[tactic(auto, using(crate::proofs::WorkedCandidates::worked_ranges))]
pub fn worked_ranges()
    ensures { RangeRow }
{}
