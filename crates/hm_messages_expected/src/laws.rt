//! Worked examples, in a function with an empty body, whose contract has them.
ghost use Rattle.hm_messages_expected.specs.WorkedExpected.{ExpectedRow, OpenedRow};

/// A source with a variable of every type in place of a name, the names that get definitions, and a name of which a type is expected.
#[tactic(auto, using(crate::proofs::WorkedExpectations::worked_opened, crate::proofs::WorkedExpectations::worked_types))]
pub fn worked_expected()
    ensures opened { OpenedRow }
    ensures types { ExpectedRow }
{}
