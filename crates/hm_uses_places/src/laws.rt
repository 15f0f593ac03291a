//! Worked examples, in functions with an empty body, whose contracts have them.
ghost use Rattle.hm_uses_places.specs.Worked.{DeclaredRow, QualifiedRow};

/// The places on a name with a qualifier.
pub fn worked_places()
    ensures { QualifiedRow }
{}

/// Where a function of two clauses is declared.
pub fn worked_declarations()
    ensures { DeclaredRow }
{}
