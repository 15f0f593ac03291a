//! Types that can't be the same type.
ghost use Rattle.std.specs.Prelude.{◌≡◌, IfOk, false, true};
ghost use Rattle.hm_types.specs.Shape.{type_of};
ghost use Rattle.hm_unify.specs.WellFormed.{IsWellFormed};
ghost use Rattle.hm_messages_types.specs.CommonInstances.{HaveCommonInstance};

use hm_types::Ty;
use hm_unify::{Solver, UnifyFault};
use std::alloc::{AllocError, Global};

/// The most levels of a type that two types have as their common instance.
const MOST_LEVELS: usize = 1 << 12;

/// The most nodes that are visited for it.
const MOST_NODES: usize = 1 << 16;

/// Returns whether two types have no common instance. The numbers of their variables are below `variables`.
///
/// # Errors
///
/// Memory ran out, or a type would have grown past a limit of its size.
pub fn are_apart(alloc: Global, variables: usize, left: &Ty, right: &Ty) -> Result<bool, AllocError>
    requires left { IsWellFormed variables (type_of left.now) }
    requires right { IsWellFormed variables (type_of right.now) }
    ensures yes { IfOk result (λ apart. apart ≡ true → ¬ (HaveCommonInstance (type_of left.now) (type_of right.now))) }
    ensures no { IfOk result (λ apart. apart ≡ false → HaveCommonInstance (type_of left.now) (type_of right.now)) }
{
    let mut solver = Solver::with_limits(alloc, MOST_LEVELS, MOST_NODES);
    let _first = solver.give(variables)?;
    let right = right.copy(alloc)?;
    match solver.unify(left, right) {
        Ok(()) => Ok(false),
        Err(UnifyFault::Clash) => Ok(true),
        Err(UnifyFault::Memory) => Err(AllocError),
    }
}
