//! Limits for the levels and nodes of types. No clause states them: above a limit a solver fails like an allocation.

ghost use Rattle.std.specs.Prelude.{◌≡◌, ◌<◌, IfOk, OnOk};
ghost use Rattle.hm_types.specs.Shape.{type_of};
ghost use Rattle.hm_unify.specs.WellFormed.{IsWellFormed};

use crate::types::integer;
use hm_types::Ty;
use hm_unify::{Solver, UnifyFault};
use std::alloc::{AllocError, Global};
use std::test::Fail;

/// Returns the function type from a variable to the integers.
fn function_of(alloc: Global, variable: usize) -> Result<Ty, AllocError>
    requires { variable < 3 }
    ensures { IfOk result (λ t. IsWellFormed 3 (type_of t)) }
{
    let outcome = integer(alloc)?;
    Ok(Ty::function(alloc, Ty::Var(variable), outcome)?)
}

/// Equates a variable with the function type of another one. Returns whether they unify.
fn bind(
    alloc: Global,
    solver: &mut Solver,
    variable: usize,
    argument: usize,
) -> Result<bool, AllocError>
    requires given { solver.old.given ≡ 3 }
    requires variable { variable < 3 }
    requires argument { argument < 3 }
    ensures { solver.new.given ≡ 3 }
{
    let function = function_of(alloc, argument)?;
    match solver.unify(&Ty::Var(variable), function) {
        Ok(()) => Ok(true),
        Err(UnifyFault::Clash) => Ok(false),
        Err(UnifyFault::Memory) => Err(AllocError),
    }
}

/// Gives three variables from a solver that has given none.
fn give_three(solver: &mut Solver) -> Result<(), AllocError>
    requires { solver.old.given ≡ 0 }
    ensures { OnOk result (solver.new.given ≡ 3) }
{
    solver.fresh()?;
    solver.fresh()?;
    solver.fresh()?;
    Ok(())
}

/// Returns a solver with these limits, which has given the variables 0 to 2.
fn solver_within(alloc: Global, levels: usize, nodes: usize) -> Result<Solver, AllocError>
    ensures { IfOk result (λ solver. solver.given ≡ 3) }
{
    let mut solver = Solver::with_limits(alloc, levels, nodes);
    give_three(&mut solver)?;
    Ok(solver)
}

/// Returns whether the value of variable 0 is refused, if it is a function of variable 1, and that is a function of variable 2. It has three
/// levels, with a constant as the third. Each equation visits two arguments, and the value four.
fn has_long_value(alloc: Global, solver: &mut Solver) -> Result<Option<bool>, AllocError>
    requires { solver.old.given ≡ 3 }
{
    if !bind(alloc, solver, 0, 1)? || !bind(alloc, solver, 1, 2)? {
        return Ok(None);
    }
    Ok(Some(solver.value(&Ty::Var(0)).is_err()))
}

#[test]
fn no_value_has_more_levels_than_the_limit(rt: HostRuntime) -> Result<(), Fail> {
    for depth in 0..5 {
        let mut solver = solver_within(rt.alloc(), depth, 100)?;
        assert!(rt; has_long_value(rt.alloc(), &mut solver)? == Some(depth < 3));
    }
    Ok(())
}

#[test]
fn no_value_has_more_nodes_than_are_left(rt: HostRuntime) -> Result<(), Fail> {
    for nodes in 4..12 {
        let mut solver = solver_within(rt.alloc(), 3, nodes)?;
        assert!(rt; has_long_value(rt.alloc(), &mut solver)? == Some(nodes < 8));
    }
    Ok(())
}

/// Adds the same equations the other way round. The second binds a variable to the type of three levels. Returns whether it is refused, or
/// `None` if a refused solver gives another variable, or a renewed one gives none.
fn is_refused(alloc: Global, solver: &mut Solver) -> Result<Option<bool>, AllocError>
    requires { solver.old.given ≡ 3 }
{
    if !bind(alloc, solver, 1, 2)? {
        return Ok(None);
    }
    let refused = bind(alloc, solver, 0, 1).is_err();
    if solver.fresh().is_err() != refused || solver.renewed().fresh().is_err() {
        return Ok(None);
    }
    Ok(Some(refused))
}

#[test]
fn no_binding_has_more_levels_than_the_limit(rt: HostRuntime) -> Result<(), Fail> {
    for depth in 2..5 {
        let mut solver = solver_within(rt.alloc(), depth, 100)?;
        assert!(rt; is_refused(rt.alloc(), &mut solver)? == Some(depth < 3));
    }
    Ok(())
}
