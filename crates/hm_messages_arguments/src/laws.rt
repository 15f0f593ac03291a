//! Worked examples: a function with an empty body, whose contract has the facts.
ghost use Rattle.hm_messages_arguments.specs.WorkedArguments.{AppliedRow};

/// Names with the number of their arguments, and a number that isn't so.
#[tactic(auto, using(crate::proofs::WorkedArguments::worked_arguments))]
pub fn worked_arguments()
    ensures { AppliedRow }
{}
