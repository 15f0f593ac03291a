//! Declared types in inference (Haskell 98 Report, sections 3.16 and 4.4.1).

ghost use Rattle.std.specs.Prelude.{◌≡◌, ◌<◌, ◌+◌, ◌^◌, IfErr, IfOk, OnOk};
ghost use Rattle.hm_types.specs.Shape.{type_of};
ghost use Rattle.hm_types.specs.Types.{Var as leaf, put};
ghost use Rattle.hm_types.specs.Monotypes.{rigid};
ghost use Rattle.hm_typing.specs.Problems.{FactsBelow};
ghost use Rattle.hm_typing.specs.Programs.{monotype_of};
ghost use Rattle.hm_typing.specs.Patterns.{Instantiates};
ghost use Rattle.hm_unify.specs.WellFormed.{IsWellFormed};
ghost use Rattle.hm_unify.specs.declared.faults.UnifyFault.TheVariants.{Memory};
ghost use Rattle.hm_names.specs.Types.{declared_type};
ghost use Rattle.hm_infer_context.specs.Problems.{Answers, bound, given_more, monotype, number, problem};

use hm_infer_context::{VariableKind, check_scheme, instantiate, new_variables};
use hm_names::DeclaredType;
use hm_syntax::TypeExpr;
use hm_types::Ty;
use hm_unify::{Solver, UnifyFault};
use std::alloc::{AllocError, Global};

/// Returns the declared type for a type of a core.
pub fn declare(alloc: Global, ty: &TypeExpr) -> Result<DeclaredType, AllocError>
    ensures body { IfOk result (λ d. monotype_of (type_of d.body) ≡ declared_type ty.now) }
    ensures given { IfOk result (λ d. IsWellFormed d.count (type_of d.body)) }
{
    Ok(hm_names::declared_type(alloc, ty)?)
}

/// A declared type whose variables are the rigid ones from `first` on.
#[derive(Drop)]
pub struct RigidType {
    pub body: Ty,
    pub first: usize,
}

/// Replaces the variables of a declared type by new rigid variables.
pub fn with_rigid_variables(
    alloc: Global,
    solver: &mut Solver,
    declared: &DeclaredType,
) -> Result<RigidType, UnifyFault>
    requires { IsWellFormed declared.now.count (type_of declared.now.body) }
    ensures first { IfOk result (λ t. t.first ≡ solver.old.given) }
    ensures fits { IfOk result (λ t. t.first + declared.now.count < 2 ^ 64) }
    ensures next { OnOk result (solver.new ≡ given_more solver.old declared.now.count) }
    ensures body { IfOk result (λ t. monotype (type_of t.body)
        ≡ put (λ i. leaf (number (rigid (solver.old.given + i)))) (monotype_of (type_of declared.now.body))) }
    ensures given { IfOk result (λ t. IsWellFormed solver.new.given (type_of t.body)) }
    ensures refused { IfErr result (λ e. e ≡ Memory) }
    ensures below { FactsBelow (bound solver.old) (problem solver.old) }
{
    let first = new_variables(solver, declared.count)?;
    let kind = VariableKind::Rigid;
    let body = instantiate(alloc, kind, declared.count, first, &declared.body)?;
    Ok(RigidType { body, first })
}

/// Equates a type with an instance of a declared type.
///
/// # Errors
///
/// `Clash` if the type can't be an instance of it, and `Memory` if memory ran out.
pub fn check_instance(
    alloc: Global,
    solver: &mut Solver,
    declared: &DeclaredType,
    t: &Ty,
) -> Result<(), UnifyFault>
    requires declared { IsWellFormed declared.now.count (type_of declared.now.body) }
    requires given { IsWellFormed solver.old.given (type_of t.now) }
    ensures { Answers (λ r. Instantiates (monotype_of (type_of declared.now.body)) (put r (monotype (type_of t.now)))) solver.old solver.new result }
{
    check_scheme(alloc, solver, declared.count, &declared.body, t)
}
