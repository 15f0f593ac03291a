//! Laws of names that mean the same, and worked examples, in functions with an empty body, whose contracts have them.
ghost use Rattle.hm_uses_references.specs.Laws.{ReferencesAreOneList, SameIsSymmetric, SameIsTransitive};
ghost use Rattle.hm_uses_references.specs.Worked.{OthersRow, ReferencesRow, VariablesRow};

/// A place has one list of references.
pub fn one_list()
    ensures { ReferencesAreOneList }
{}

/// Names that mean the same are classes.
pub fn classes()
    ensures symmetric { SameIsSymmetric }
    ensures transitive { SameIsTransitive }
{}

/// Names that mean the same, and names that don't.
pub fn worked_meanings()
    ensures variables { VariablesRow }
    ensures others { OthersRow }
{}

/// The references of an entity and of a local variable in two modules.
pub fn worked_references()
    ensures { ReferencesRow }
{}
