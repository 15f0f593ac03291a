//! Worked examples, in functions with an empty body, whose contracts have them.
ghost use Rattle.hm_service_rename.specs.PreparedRow.{TargetRow};
ghost use Rattle.hm_service_rename.specs.Worked.{HeldRow, NamesRow, ReplacedRow};

/// Texts with a new name, the sources that hold them, and tokens that are one name.
#[tactic(auto, using(crate::proofs::WorkedRenames::worked_held, crate::proofs::WorkedRenames::worked_names, crate::proofs::WorkedRenames::worked_replaced))]
pub fn worked_renames()
    ensures replaced { ReplacedRow }
    ensures held { HeldRow }
    ensures names { NamesRow }
{}

/// The name that a rename is of.
#[tactic(auto, using(crate::proofs::WorkedPrepared::worked_target))]
pub fn worked_targets()
    ensures { TargetRow }
{}
