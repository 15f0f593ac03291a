//! A law of what is at a place, and worked examples, in functions with an empty body, whose contracts have them.
ghost use Rattle.hm_build_places.specs.Laws.{SkippedHaveNoUses};
ghost use Rattle.hm_build_places.specs.Worked.{BoundRow, ByteRow, HereRow, NothingRow, PartsRow, TypedRow};

/// In a settled set a module has no uses exactly if it is skipped.
#[tactic(auto, using(crate::proofs::SkippedModules::skipped_have_no_uses))]
pub fn skipped_modules_have_no_uses()
    ensures { SkippedHaveNoUses }
{}

/// The byte of a character, and parts in a row.
#[tactic(auto, using(crate::proofs::WorkedPlaces::worked_bytes, crate::proofs::WorkedPlaces::worked_parts))]
pub fn worked_parts()
    ensures bytes { ByteRow }
    ensures parts { PartsRow }
{}

/// Where a name of Prelude is bound, names without a type, a definition with a name, and a place without a name.
#[tactic(auto, using(crate::proofs::WorkedPlaces::worked_bound, crate::proofs::WorkedPlaces::worked_typed, crate::proofs::WorkedPlaces::worked_here, crate::proofs::WorkedPlaces::worked_nothing))]
pub fn worked_places()
    ensures bound { BoundRow }
    ensures typed { TypedRow }
    ensures here { HereRow }
    ensures nothing { NothingRow }
{}
