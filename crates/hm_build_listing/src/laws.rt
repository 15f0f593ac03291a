//! Worked examples of listings, in functions with an empty body, whose contracts have them.
ghost use Rattle.hm_build_listing.specs.Worked.{MissingRow, NothingRow};

/// The listing of no modules, and what isn't one.
#[tactic(auto, using(crate::proofs::Worked::nothing))]
pub fn worked_nothing()
    ensures { NothingRow }
{}

/// The object of a set that lacks a module.
#[tactic(auto, using(crate::proofs::Worked::missing))]
pub fn worked_missing()
    ensures { MissingRow }
{}
