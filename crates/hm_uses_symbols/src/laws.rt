//! Worked examples, in functions with an empty body, whose contracts have them.
ghost use Rattle.hm_uses_symbols.specs.Worked.{ClausesRow, KindsRow, TwiceRow};

/// The symbols of functions, of types and their constructors, and of a name that is declared twice.
#[tactic(auto, using(crate::proofs::WorkedSymbols::worked_clauses, crate::proofs::WorkedSymbols::worked_kinds, crate::proofs::WorkedSymbols::worked_twice))]
pub fn worked_symbols()
    ensures clauses { ClausesRow }
    ensures kinds { KindsRow }
    ensures twice { TwiceRow }
{}
