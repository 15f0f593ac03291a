//! Worked examples of the texts of a place, in functions with an empty body, whose contracts have them.
ghost use Rattle.hm_build_place_texts.specs.Worked.{BindingRow, NothingRow, ProseRow, TypesRow};

/// The text for readers of a use, of two names, of a name in a skipped module, and of a place without a name.
#[tactic(auto, using(crate::proofs::WorkedTexts::worked_prose))]
pub fn worked_prose()
    ensures { ProseRow }
{}

/// The objects of a place without a name, of where a name is bound, and of its types.
#[tactic(auto, using(crate::proofs::WorkedTexts::worked_nothing, crate::proofs::WorkedTexts::worked_bindings, crate::proofs::WorkedTexts::worked_types))]
pub fn worked_objects()
    ensures nothing { NothingRow }
    ensures bound { BindingRow }
    ensures types { TypesRow }
{}
