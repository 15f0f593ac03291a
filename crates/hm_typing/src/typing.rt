//! Laws of the typing relation.

ghost use Rattle.hm_typing.specs.Laws.{FormsAgree, Substitutes, Survives};

/// Typing is preserved by more general assumptions and by substitutions, and its two forms agree (Damas and Milner 1982, propositions 1 and 2).
pub fn typing_is_stable()
    ensures survives { Survives }
    ensures substitutes { Substitutes }
    ensures forms_agree { FormsAgree }
{}
