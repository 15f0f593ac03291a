//! Worked examples: a function with an empty body, whose contract has the facts.
ghost use Rattle.hm_messages_causes.specs.Worked.{CauseRow};

/// Verdicts in which two definitions have types, and one in which only the first has.
#[tactic(auto, using(crate::proofs::WorkedCauses::worked_causes))]
pub fn worked_causes()
    ensures { CauseRow }
{}
