//! Worked examples: a function with an empty body, whose contract has the facts.
ghost use Rattle.hm_messages_hints.specs.Worked.{AlternativeRow, ClosedRow, DeclarationRow, ElseRow, GuardRow, PatternsRow, PlaceRow, RightRow, StringRow, ThenRow, TypeRow};

/// Symbols that end within a type, after an `if` without `else`, within an alternative, and after the definitions of a `let`.
#[tactic(auto, using(crate::proofs::WorkedContexts::worked_types, crate::proofs::WorkedContexts::worked_elses, crate::proofs::WorkedContexts::worked_alternatives, crate::proofs::WorkedContexts::worked_closed))]
pub fn worked_contexts()
    ensures types { TypeRow }
    ensures elses { ElseRow }
    ensures alternatives { AlternativeRow }
    ensures closed { ClosedRow }
{}

/// Symbols that end within patterns or a guard, after an `if` without `then`, and where a context can be.
#[tactic(auto, using(crate::proofs::WorkedPatterns::worked_thens, crate::proofs::WorkedPatterns::worked_patterns, crate::proofs::WorkedPatterns::worked_guards, crate::proofs::WorkedPatterns::worked_places))]
pub fn worked_patterns()
    ensures thens { ThenRow }
    ensures patterns { PatternsRow }
    ensures guards { GuardRow }
    ensures places { PlaceRow }
{}

/// Where the right side of a declaration begins, where an import can't be, and strings that are closed on their lines.
#[tactic(auto, using(crate::proofs::WorkedPatterns::worked_rights, crate::proofs::WorkedPatterns::worked_declarations, crate::proofs::WorkedPatterns::worked_strings))]
pub fn worked_declarations()
    ensures rights { RightRow }
    ensures declarations { DeclarationRow }
    ensures strings { StringRow }
{}
