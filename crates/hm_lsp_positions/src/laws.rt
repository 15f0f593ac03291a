//! Laws about positions. Each is a function with an empty body, and its contract states the law.
ghost use Rattle.std.specs.Prelude.{◌≡◌, ℕ, List};
ghost use Rattle.hm_lsp_positions.specs.Positions.{IsOffsetOf, IsPlace, IsPositionOf};
ghost use Rattle.hm_lsp_positions.specs.Worked.{CursorsRow, LinesRow, UnitsRow};
ghost use Rattle.hm_lsp_positions.specs.declared.positions.Position.{Position};
ghost use Rattle.hm_lsp_positions.specs.declared.units.Encoding.{Encoding};

/// A place has one position, and that position leads back to it.
#[tactic(auto, using(crate::proofs::Returns::same_place))]
pub fn kept_places()
    ensures { (encoding : Encoding) (text : List ℕ) (offset again : ℕ) (p : Position) → IsPositionOf encoding text offset p → IsPlace text p.line offset → IsOffsetOf encoding text p again → again ≡ offset }
{}

/// Lines, units and cursors of small texts.
#[tactic(auto, using(crate::proofs::WorkedPositions::worked_cursors, crate::proofs::WorkedPositions::worked_lines, crate::proofs::WorkedPositions::worked_units))]
pub fn worked_positions()
    ensures lines { LinesRow }
    ensures units { UnitsRow }
    ensures cursors { CursorsRow }
{}
