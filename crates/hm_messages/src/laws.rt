//! Laws and worked examples: functions with an empty body, whose contracts have the facts.
ghost use Rattle.hm_messages.specs.Laws.{HasNoForeignRefusal};
ghost use Rattle.hm_messages.specs.Worked.{CutRow, ForeignRow, FurtherCountRow, FurtherRow, MessageRow, ModuleRow, NearModuleRow, PlaceRow, PositionRow, TwinRow};

/// The refusal of sources isn't foreign to them.
#[tactic(auto, using(crate::proofs::OfSources::refusals_are_theirs))]
pub fn refusals_are_theirs()
    ensures { HasNoForeignRefusal }
{}

/// The faults of two further sources, of none, and after a fault of syntax.
#[tactic(auto, using(crate::proofs::WorkedFaults::worked_faults))]
pub fn worked_faults()
    ensures { FurtherRow }
{}

/// A message at the one place of an empty source, and at another place.
#[tactic(auto, using(crate::proofs::WorkedMessages::worked_messages))]
pub fn worked_messages()
    ensures { MessageRow }
{}

/// Long texts that are cut, and shorter ones that aren't.
#[tactic(auto, using(crate::proofs::WorkedTexts::worked_cuts))]
pub fn worked_cuts()
    ensures { CutRow }
{}

/// The line about skipped modules without notes, and a count without it.
#[tactic(auto, using(crate::proofs::WorkedTexts::worked_further))]
pub fn worked_further()
    ensures { FurtherCountRow }
{}

/// The position of no place, and that of a place in an empty source.
#[tactic(auto, using(crate::proofs::WorkedMessages::worked_positions))]
pub fn worked_positions()
    ensures { PositionRow }
{}

/// Faults of sources that aren't there, and of one that is.
#[tactic(auto, using(crate::proofs::WorkedMessages::worked_foreign))]
pub fn worked_foreign()
    ensures { ForeignRow }
{}

/// A module with the name of an earlier one, and one with a name of its own.
#[tactic(auto, using(crate::proofs::WorkedFaults::worked_twins))]
pub fn worked_twins()
    ensures { TwinRow }
{}

/// Near names of modules, and one that no module has.
#[tactic(auto, using(crate::proofs::NearModules::worked_near_modules))]
pub fn worked_near_modules()
    ensures { NearModuleRow }
{}

/// The module that a place is in, and the module after it.
#[tactic(auto, using(crate::proofs::WorkedPlaces::worked_modules))]
pub fn worked_modules()
    ensures { ModuleRow }
{}

/// Places at which sources are refused, and places at which they aren't.
#[tactic(auto, using(crate::proofs::WorkedPlaces::worked_places))]
pub fn worked_places()
    ensures { PlaceRow }
{}
