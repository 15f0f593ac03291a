//! Worked examples: a function with an empty body, whose contract has the facts.
ghost use Rattle.hm_messages_type_names.specs.WorkedTypeNames.{BareNameRow};

/// Bare names that mean types of a module, and names that don't.
#[tactic(auto, using(crate::proofs::WorkedTypeNames::worked_bare_names))]
pub fn worked_bare_names()
    ensures { BareNameRow }
{}
