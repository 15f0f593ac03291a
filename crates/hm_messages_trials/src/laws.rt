//! Worked examples: functions with empty bodies, whose contracts have the facts.
ghost use Rattle.hm_messages_trials.specs.Worked.{HolesRow, MendsRow, PartsRow, TypesRow, VerdictsRow, WrappedRow};
ghost use Rattle.hm_messages_trials.specs.WorkedLimits.{LimitsRow};
ghost use Rattle.hm_messages_trials.specs.WorkedPartTypes.{ExportsRow, GoodRow, InfiniteRow, OthersRow, ProbesRow, SignaturesRow, SignedRow, TextsRow};

/// Sources with a hole, parts of a source, verdicts with which a definition has a type, and sources in which it has one.
#[tactic(auto, using(crate::proofs::WorkedHoles::worked_holes, crate::proofs::WorkedHoles::worked_parts, crate::proofs::WorkedHoles::worked_verdicts, crate::proofs::WorkedHoles::worked_types))]
pub fn worked_holes()
    ensures holes { HolesRow }
    ensures parts { PartsRow }
    ensures verdicts { VerdictsRow }
    ensures types { TypesRow }
{}

/// A source without a pattern, with two parts exchanged, with a text put in, and with a constructor in front of a part.
#[tactic(auto, using(crate::proofs::WorkedMends::worked_mends_row, crate::proofs::WorkedMends::worked_wrapped_row))]
pub fn worked_mends()
    ensures mends { MendsRow }
    ensures wrapped { WrappedRow }
{}

/// Sources with a function of two types or a definition alone, the texts of two types, a source in which a module exports a variable, sources in which one
/// is good and in which it isn't, types that are equal only as an infinite type, and modules with and without a signature.
#[tactic(auto, using(crate::proofs::WorkedPartTypes::worked_probes, crate::proofs::WorkedPartTypes::worked_texts, crate::proofs::WorkedPartTypes::worked_exports, crate::proofs::WorkedPartTypes::worked_others, crate::proofs::WorkedPartTypes::worked_signatures, crate::proofs::WorkedPartTypes::worked_good, crate::proofs::WorkedPartTypes::worked_infinite, crate::proofs::WorkedPartTypes::worked_signed))]
pub fn worked_part_types()
    ensures probes { ProbesRow }
    ensures texts { TextsRow }
    ensures exports { ExportsRow }
    ensures others { OthersRow }
    ensures signatures { SignaturesRow }
    ensures good { GoodRow }
    ensures infinite { InfiniteRow }
    ensures signed { SignedRow }
{}

/// An effort that is used up, and one that isn't.
#[tactic(auto, using(crate::proofs::WorkedLimits::worked_limits_row))]
pub fn worked_limits()
    ensures { LimitsRow }
{}
