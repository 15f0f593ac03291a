//! Worked examples: functions with empty bodies, whose contracts have the facts.
ghost use Rattle.hm_messages_joint.specs.Worked.{BothRow, UntypedRow};

/// A source with holes in place of two parts, and sources in which a definition is a type fault and in which it isn't.
#[tactic(auto, using(crate::proofs::WorkedJoints::worked_both, crate::proofs::WorkedJoints::worked_untyped))]
pub fn worked_joints()
    ensures both { BothRow }
    ensures untyped { UntypedRow }
{}
