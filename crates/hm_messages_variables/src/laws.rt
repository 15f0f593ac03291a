//! What follows from the definitions: functions with empty bodies, whose contracts have the facts.
ghost use Rattle.hm_messages_variables.specs.InScope.{TypesInScope};
ghost use Rattle.hm_messages_variables.specs.Worked.{LikeRow};

/// A table of a scope has a type with a name exactly if such a type is in scope under this name alone.
pub fn types_in_scope()
    ensures { TypesInScope }
{}

/// Type variables that are named like types in scope, and one that isn't.
#[tactic(auto, using(crate::proofs::WorkedLikes::worked_likes))]
pub fn worked_likes()
    ensures { LikeRow }
{}
