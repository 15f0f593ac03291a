//! Worked examples: functions with empty bodies, whose contracts have the facts.
ghost use Rattle.hm_messages_copies.specs.Worked.{FunctionsRow, NestedRow, SourcesRow};

/// Functions of a definition's type and of a part's, sources with a declaration more, and definitions inside of each other.
#[tactic(auto, using(crate::proofs::WorkedChanges::worked_functions, crate::proofs::WorkedChanges::worked_sources, crate::proofs::WorkedChanges::worked_nested))]
pub fn worked_changes()
    ensures functions { FunctionsRow }
    ensures sources { SourcesRow }
    ensures nested { NestedRow }
{}
