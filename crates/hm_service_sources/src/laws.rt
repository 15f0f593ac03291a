//! Laws of held sources, and worked examples. Each is a function with an empty body, whose contract is the law.
ghost use Rattle.hm_service_sources.specs.Laws.{LawfulSetsAreWhole};
ghost use Rattle.hm_service_sources.specs.Worked.{LeftOutRow, StandingRow};

/// If the modules of sources are a lawful set, all sources can be checked.
#[tactic(auto, using(crate::proofs::Lawful::none_left_out))]
pub fn lawful_sets_are_whole()
    ensures { LawfulSetsAreWhole }
{}

/// The text that stands for a source.
#[tactic(auto, using(crate::proofs::WorkedSources::worked_standing))]
pub fn worked_standing()
    ensures { StandingRow }
{}

/// A source that is left out, and one that isn't.
#[tactic(auto, using(crate::proofs::WorkedSources::worked_left_out))]
pub fn worked_left_out()
    ensures { LeftOutRow }
{}
