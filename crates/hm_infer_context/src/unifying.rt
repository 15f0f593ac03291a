//! Steps of the solver, in the terms of the typing relation.

ghost use Rattle.std.specs.Prelude.{◌≡◌, ◌+◌, ◌<◌, ◌^◌, IfOk, OnOk, IfErr};
ghost use Rattle.hm_types.specs.Shape.{type_of};
ghost use Rattle.hm_typing.specs.Problems.{FactsBelow};
ghost use Rattle.hm_types.specs.Types.{put};
ghost use Rattle.hm_unify.specs.WellFormed.{IsWellFormed};
ghost use Rattle.hm_unify.specs.declared.faults.UnifyFault.TheVariants.{Memory};
ghost use Rattle.hm_infer_context.specs.Problems.{Answers, monotype, problem, bound};

use hm_types::Ty;
use hm_unify::{Solver, UnifyFault};

/// Makes two types equal. Takes the second type by value.
///
/// # Errors
///
/// `Clash` if the equations would have no unifier, and `Memory` if memory ran out.
pub fn equate(solver: &mut Solver, left: &Ty, right: Ty) -> Result<(), UnifyFault>
    requires left { IsWellFormed solver.old.given (type_of left.now) }
    requires right { IsWellFormed solver.old.given (type_of right) }
    ensures answers { Answers (λ r. put r (monotype (type_of left.now)) ≡ put r (monotype (type_of right))) solver.old solver.new result }
    ensures given { OnOk result (solver.new.given ≡ solver.old.given) }
{
    solver.well_formed();
    let done = solver.unify(left, right);
    solver.well_formed();
    done
}

/// Makes `count` new variables, and returns the number of the first. The others follow it.
///
/// # Errors
///
/// `Memory` if memory ran out.
pub fn new_variables(solver: &mut Solver, count: usize) -> Result<usize, UnifyFault>
    ensures first { IfOk result (λ n. n ≡ solver.old.given) }
    ensures fits { IfOk result (λ n. n + count < 2 ^ 64) }
    ensures next { OnOk result (solver.new ≡ record solver.old { given = solver.old.given + count }) }
    ensures refused { IfErr result (λ e. e ≡ Memory) }
    ensures below { FactsBelow (bound solver.old) (problem solver.old) }
{
    solver.well_formed();
    Ok(solver.give(count)?)
}
