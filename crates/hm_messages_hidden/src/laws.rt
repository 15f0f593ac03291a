//! Worked examples, in a function with an empty body, whose contract has them.
ghost use Rattle.hm_messages_hidden.specs.WorkedHidden.{BeyondRow, DefinitionsRow, HeldRow, LaterRow, ReplacedRow};

/// A source with a definition of a name that isn't in scope, one with a replaced definition, faults of later phases, and verdicts beyond a fault of names.
#[tactic(auto, using(crate::proofs::WorkedHidden::worked_definitions, crate::proofs::WorkedHidden::worked_replaced, crate::proofs::WorkedHidden::worked_held, crate::proofs::WorkedHidden::worked_later, crate::proofs::WorkedHidden::worked_beyond))]
pub fn worked_hidden()
    ensures definitions { DefinitionsRow }
    ensures replaced { ReplacedRow }
    ensures held { HeldRow }
    ensures later { LaterRow }
    ensures beyond { BeyondRow }
{}
