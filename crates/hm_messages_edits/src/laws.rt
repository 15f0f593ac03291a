//! Laws and worked examples: functions with an empty body, whose contracts have the facts.
ghost use Rattle.hm_messages_edits.specs.Edits.{EditsMend};
ghost use Rattle.hm_messages_edits.specs.Worked.{EditsRow, SignatureRow};

/// With the edits of a mend the definition has a type.
#[tactic(auto, using(crate::proofs::Mending::edits_mend))]
pub fn edits_mend()
    ensures { EditsMend }
{}

/// The edits of an exchange, and of a constructor, and what they make of a source.
#[tactic(auto, using(crate::proofs::Worked::worked_edits))]
pub fn worked_edits()
    ensures { EditsRow }
{}

/// A signature with another type, its part, and a signature of two variables.
#[tactic(auto, using(crate::proofs::Worked::worked_signatures))]
pub fn worked_signatures()
    ensures { SignatureRow }
{}
