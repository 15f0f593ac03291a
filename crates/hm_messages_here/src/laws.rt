//! Worked examples: functions with empty bodies, whose contracts have the facts.
ghost use Rattle.hm_messages_here.specs.Worked.{TextsRow, TiesRow, TypesRow, WithoutRow};

/// The texts of two types, a source in which a module exports no variable for a type, sources without definitions, and what ties copies.
#[tactic(auto, using(crate::proofs::WorkedHere::worked_texts, crate::proofs::WorkedHere::worked_types, crate::proofs::WorkedHere::worked_without, crate::proofs::WorkedHere::worked_ties))]
pub fn worked_types_here()
    ensures texts { TextsRow }
    ensures types { TypesRow }
    ensures without { WithoutRow }
    ensures ties { TiesRow }
{}
