//! Instances of schemes.

ghost use Rattle.std.specs.Prelude.{◌≡◌, ◌+◌, ◌<◌, ◌^◌, IfErr, IfOk};
ghost use Rattle.hm_types.specs.Shape.{type_of};
ghost use Rattle.hm_types.specs.Types.{put, Var as leaf};
ghost use Rattle.hm_typing.specs.Patterns.{Instantiates};
ghost use Rattle.hm_typing.specs.Programs.{monotype_of};
ghost use Rattle.hm_unify.specs.WellFormed.{IsWellFormed};
ghost use Rattle.hm_unify.specs.declared.faults.UnifyFault.TheVariants.{Memory};
ghost use Rattle.hm_names.specs.Syntax.{constructor_type_of};
ghost use Rattle.hm_infer_context.specs.Constructors.{known_of};
ghost use Rattle.hm_infer_context.specs.Problems.{monotype, Answers};
ghost use Rattle.hm_infer_context.specs.Environments.{opened, quantified_leaf, IsInstanceUnder};
ghost use Rattle.hm_infer_context.specs.Inferred.{IsInferred};
ghost use Rattle.hm_infer_context.specs.VariableKinds.{is_rigid};

use crate::constructors::Constructors;
use crate::unifying::{equate, new_variables};
use hm_syntax::Name;
use hm_types::{Scheme, Ty, Types};
use hm_unify::{Solver, UnifyFault};
use std::alloc::{AllocError, Global};

/// The kind of a type variable. A flexible one is solved; a rigid one stands for an unknown type.
#[derive(Clone, Copy)]
pub enum VariableKind {
    Flexible,
    Rigid,
}

/// Returns the instance of a scheme whose quantified variables are those of a kind from `base` on.
pub fn instantiate(
    alloc: Global,
    kind: VariableKind,
    quantified: usize,
    base: usize,
    body: &Ty,
) -> Result<Ty, AllocError>
    requires { base + quantified < 2 ^ 64 }
    ensures { IfOk result (λ t. type_of t ≡ put (opened (is_rigid kind) quantified base) (type_of body.now)) }
{
    match body {
        Ty::Var(n) => {
            if *n < quantified {
                Ok(quantified_variable(kind, base + *n))
            } else {
                Ok(Ty::Var(*n - quantified))
            }
        }
        Ty::Rigid(n) => {
            if *n < quantified {
                Ok(quantified_variable(kind, base + *n))
            } else {
                Ok(Ty::Rigid(*n - quantified))
            }
        }
        Ty::App(head, arguments) => {
            let row = arguments.as_slice();
            let mut made = Vec::with_capacity(alloc, row.len())?;
            for argument in row {
                made.push(instantiate(alloc, kind, quantified, base, argument)?)?;
            }
            Ok(Ty::App(head.copy()?, Types::new(made)))
        }
    }
}

/// Returns the variable of a kind with this number.
fn quantified_variable(kind: VariableKind, number: usize) -> Ty
    ensures { type_of result ≡ leaf (quantified_leaf (is_rigid kind) number 0) }
{
    match kind {
        VariableKind::Flexible => Ty::Var(number),
        VariableKind::Rigid => Ty::Rigid(number),
    }
}

/// Makes a type equal to an instance of a scheme.
///
/// # Errors
///
/// `Clash` if the type can't be an instance of the scheme, and `Memory` if memory ran out.
pub fn check_scheme(
    alloc: Global,
    solver: &mut Solver,
    quantified: usize,
    body: &Ty,
    t: &Ty,
) -> Result<(), UnifyFault>
    requires scheme { IsWellFormed (quantified + solver.old.given) (type_of body.now) }
    requires given { IsWellFormed solver.old.given (type_of t.now) }
    ensures { Answers (λ r. IsInstanceUnder (record { quantified = quantified; body = type_of body.now }) r (put r (monotype (type_of t.now))))
        solver.old solver.new result }
{
    let base = new_variables(solver, quantified)?;
    let instance = instantiate(alloc, VariableKind::Flexible, quantified, base, body)?;
    equate(solver, t, instance)
}

/// Makes a type equal to an instance of a declared scheme.
pub(crate) fn check_declared(
    alloc: Global,
    solver: &mut Solver,
    scheme: &Scheme,
    t: &Ty,
) -> Result<(), UnifyFault>
    requires { IsWellFormed solver.old.given (type_of t.now) }
    ensures { Answers (λ r. Instantiates (monotype_of scheme.now.body) (put r (monotype (type_of t.now)))) solver.old solver.new result }
{
    check_scheme(alloc, solver, scheme.vars(), scheme.body(), t)
}

/// Makes a type equal to an instance of a constructor's scheme.
///
/// # Errors
///
/// `Clash` if the type can't be an instance of the scheme, and `Memory` if memory ran out.
pub fn check_constructor(
    alloc: Global,
    solver: &mut Solver,
    constructors: &Constructors,
    name: &Name,
    t: &Ty,
) -> Result<(), UnifyFault>
    requires { IsWellFormed solver.old.given (type_of t.now) }
    ensures { Answers (λ r. Instantiates (constructor_type_of (known_of constructors.now) name.now) (put r (monotype (type_of t.now)))) solver.old
        solver.new result }
{
    let scheme = constructors.find(alloc, name)?;
    check_declared(alloc, solver, scheme.as_scheme(), t)
}

/// Returns an instance of a scheme with new variables.
pub(crate) fn scheme_instance(
    alloc: Global,
    solver: &mut Solver,
    quantified: usize,
    body: &Ty,
) -> Result<Ty, UnifyFault>
    requires scheme { IsWellFormed (quantified + solver.old.given) (type_of body.now) }
    ensures inferred { IfOk result (λ t. IsInferred (IsInstanceUnder (record { quantified = quantified; body = type_of body.now })) solver.old solver.new (type_of t)) }
    ensures given { IfOk result (λ t. IsWellFormed solver.new.given (type_of t)) }
    ensures refused { IfErr result (λ e. e ≡ Memory) }
{
    let base = new_variables(solver, quantified)?;
    solver.well_formed();
    Ok(instantiate(alloc, VariableKind::Flexible, quantified, base, body)?)
}

/// Returns an instance of a constructor's scheme with new variables.
///
/// # Errors
///
/// `Memory` if memory ran out.
pub fn constructor_instance(
    alloc: Global,
    solver: &mut Solver,
    constructors: &Constructors,
    name: &Name,
) -> Result<Ty, UnifyFault>
    ensures inferred { IfOk result (λ t. IsInferred (λ r u. Instantiates (constructor_type_of (known_of constructors.now) name.now) u) solver.old
        solver.new (type_of t)) }
    ensures given { IfOk result (λ t. IsWellFormed solver.new.given (type_of t)) }
    ensures refused { IfErr result (λ e. e ≡ Memory) }
{
    let scheme = constructors.find(alloc, name)?;
    let scheme = scheme.as_scheme();
    scheme_instance(alloc, solver, scheme.vars(), scheme.body())
}
