//! Worked examples, in functions with an empty body, whose contracts have them.
ghost use Rattle.hm_scope_names.specs.Worked.{ApartRow, MeantRow};

/// What means something in a small module.
#[tactic(auto, using(crate::proofs::WorkedNames::worked_meanings))]
pub fn worked_meanings()
    ensures { MeantRow }
{}

/// Pairs whose names are apart.
#[tactic(auto, using(crate::proofs::WorkedNames::worked_apart))]
pub fn worked_apart()
    ensures { ApartRow }
{}
