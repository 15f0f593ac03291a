//! Rigid variables that escape from their declared type.

ghost use Rattle.std.specs.Prelude.{◌≡◌, ◌<◌, ◌+◌, ◌^◌, ℕ, true, false};
ghost use Rattle.hm_infer_generalisation.specs.Escapes.{Escapes, TellsEscape};

use hm_unify::{Solver, UnifyFault};

/// Returns whether one of the `count` rigid variables from `first` on is in the value of an older variable.
fn has_escaped(solver: &Solver, first: usize, count: usize) -> bool
    requires fits { first + count < 2 ^ 64 }
    ensures escaped { result ≡ true → (i : ℕ) × ((i < count) × Escapes first solver.now i) }
    ensures none { result ≡ false → (i : ℕ) → i < count → ¬ (Escapes first solver.now i) }
{
    for i in 0..count {
        if solver.is_outer_rigid(first, first + i) {
            return true;
        }
    }
    false
}

/// Returns `Clash` if one of the `count` rigid variables from `first` on escapes.
pub fn forbid_escape(solver: &Solver, first: usize, count: usize) -> Result<(), UnifyFault>
    requires fits { first + count < 2 ^ 64 }
    ensures { TellsEscape first count solver.now result }
{
    solver.has_solution();
    if has_escaped(solver, first, count) {
        return Err(UnifyFault::Clash);
    }
    Ok(())
}
