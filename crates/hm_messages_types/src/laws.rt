//! Worked examples, and a law: functions with empty bodies, whose contracts have the facts.
ghost use Rattle.hm_messages_types.specs.InfiniteTypes.{NoCommonInstance};
ghost use Rattle.hm_messages_types.specs.WorkedInstances.{InstancesRow};
ghost use Rattle.hm_messages_types.specs.WorkedLetters.{LettersRow, SignedRow};
ghost use Rattle.hm_messages_types.specs.WorkedShown.{AliasRow, FoldedRow, WholeNamesRow};

/// No substitution makes two types equal that are equal only if a type contains itself.
pub fn infinite_types()
    ensures { NoCommonInstance }
{}

/// Texts of types with a name for a part of them, and synonyms that are names for types.
#[tactic(auto, using(crate::proofs::WorkedShown::worked_folded, crate::proofs::WorkedShown::worked_whole_names, crate::proofs::WorkedShown::worked_aliases))]
pub fn worked_names()
    ensures folded { FoldedRow }
    ensures whole { WholeNamesRow }
    ensures aliases { AliasRow }
{}

/// Types that can be the same type, and types that can't.
#[tactic(auto, using(crate::proofs::WorkedInstances::worked_instances_row))]
pub fn worked_instances()
    ensures { InstancesRow }
{}

/// Types with the letters of a signature, and signatures of a source.
#[tactic(auto, using(crate::proofs::WorkedLetters::worked_letters, crate::proofs::WorkedLetters::worked_signatures))]
pub fn worked_letters()
    ensures letters { LettersRow }
    ensures signed { SignedRow }
{}
