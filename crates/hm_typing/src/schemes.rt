//! Laws that relate the types of the code to the types here.

ghost use Rattle.hm_typing.specs.Laws.{ProgramsDecideGenerality, ProgramsUnifyAlike};

/// A closed scheme is at least as general as another if and only if `hm_types_subsumption::instance_of` says so.
pub fn programs_decide_generality()
    ensures { ProgramsDecideGenerality }
{}

/// Equations between types of the code, which may have rigid variables, have the unifiers of the corresponding problem here.
pub fn programs_unify_alike()
    ensures { ProgramsUnifyAlike }
{}
