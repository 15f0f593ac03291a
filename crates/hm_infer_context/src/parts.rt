//! Splits types: makes a type equal to one whose parts are new variables.

ghost use Rattle.std.specs.Prelude.{◌≡◌, ◌+◌, ◌<◌, ◌^◌, IfErr, IfOk, IsTrue, length};
ghost use Rattle.hm_types.specs.Shape.{type_of};
ghost use Rattle.hm_types.specs.Types.{App as app, put};
ghost use Rattle.hm_types.specs.Monotypes.{Monos};
ghost use Rattle.hm_types.specs.declared.Head.TheVariants as head;
ghost use Rattle.hm_typing.specs.Patterns.{arrows, tuple, list};
ghost use Rattle.hm_typing.specs.Problems.{FactsBelow};
ghost use Rattle.hm_typing.specs.Programs.{monotype_of};
ghost use Rattle.hm_unify.specs.WellFormed.{IsWellFormed};
ghost use Rattle.hm_infer_context.specs.Problems.{Answers, Refuses, monotype, problem, bound, given_more, new_at};
ghost use Rattle.hm_infer_context.specs.Inferred.{AreParts, IsFound, IsSomeFunction};
ghost use Rattle.hm_infer_context.specs.ConstructorParts.{AreGivenTypes, HasArguments, IsConstructed, put_types};

use crate::fronts::{Front, instance_front};
use crate::shapes::{function_type, list_type, tuple_type};
use crate::unifying::{equate, new_variables};
use hm_types::{Head, Scheme, Ty};
use hm_unify::{Solver, UnifyFault};
use std::alloc::Global;

/// Makes a type equal to that of functions from `count` new variables to another new one, which
/// comes last. Returns the number of the first.
pub(crate) fn function_parts(
    alloc: Global,
    solver: &mut Solver,
    count: usize,
    t: &Ty,
) -> Result<usize, UnifyFault>
    requires { IsWellFormed solver.old.given (type_of t.now) }
    ensures first { IfOk result (λ n. n ≡ solver.old.given) }
    ensures fits { IfOk result (λ n. n + (count + 1) < 2 ^ 64) }
    ensures below { FactsBelow (bound solver.old) (problem solver.old) }
    ensures answers { Answers (λ r. put r (monotype (type_of t.now))
        ≡ arrows count (new_at solver.old.given r) 0 (new_at solver.old.given r count)) (given_more solver.old (count + 1)) solver.new result }
{
    solver.well_formed();
    if count == usize::MAX {
        return Err(UnifyFault::Memory);
    }
    let first = new_variables(solver, count + 1)?;
    let whole = function_type(alloc, first, count, &Ty::Var(first + count))?;
    equate(solver, t, whole)?;
    Ok(first)
}

/// Makes a type equal to that of tuples of `count` new variables. Returns the number of the first.
///
/// # Errors
///
/// `Clash` if the type can't be that of such tuples, and `Memory` if memory ran out.
pub fn tuple_parts(
    alloc: Global,
    solver: &mut Solver,
    count: usize,
    t: &Ty,
) -> Result<usize, UnifyFault>
    requires { IsWellFormed solver.old.given (type_of t.now) }
    ensures first { IfOk result (λ n. n ≡ solver.old.given) }
    ensures fits { IfOk result (λ n. n + count < 2 ^ 64) }
    ensures below { FactsBelow (bound solver.old) (problem solver.old) }
    ensures answers { Answers (λ r. put r (monotype (type_of t.now))
        ≡ tuple count (new_at solver.old.given r)) (given_more solver.old count) solver.new result }
{
    let first = new_variables(solver, count)?;
    let whole = tuple_type(alloc, first, count)?;
    equate(solver, t, whole)?;
    Ok(first)
}

/// Makes a type equal to that of lists of a new variable. Returns its number.
///
/// # Errors
///
/// `Clash` if the type can't be that of lists, and `Memory` if memory ran out.
pub fn list_part(alloc: Global, solver: &mut Solver, t: &Ty) -> Result<usize, UnifyFault>
    requires { IsWellFormed solver.old.given (type_of t.now) }
    ensures first { IfOk result (λ n. n ≡ solver.old.given) }
    ensures fits { IfOk result (λ n. n + 1 < 2 ^ 64) }
    ensures below { FactsBelow (bound solver.old) (problem solver.old) }
    ensures answers { Answers (λ r. put r (monotype (type_of t.now)) ≡ list (new_at solver.old.given r 0)) (given_more solver.old 1) solver.new result }
{
    let first = new_variables(solver, 1)?;
    let whole = list_type(alloc, first)?;
    equate(solver, t, whole)?;
    Ok(first)
}

/// The parts of the type of a function.
#[derive(Drop)]
pub struct FunctionType {
    pub argument: Ty,
    pub outcome: Ty,
}

impl FunctionType {
    /// Returns the type of the outcome.
    pub fn into_outcome(self) -> Ty
        ensures { result ≡ self.outcome }
    {
        let FunctionType {
            argument: _argument,
            outcome,
        } = self;
        outcome
    }
}

/// Returns whether a type is one of functions.
fn is_function(t: &Ty) -> bool
    ensures { IsTrue result → (ts : Monos) × (type_of t.now ≡ app head.Arrow ts) }
{
    match t {
        Ty::App(head, _) => head.is_same(&Head::Arrow),
        _ => false,
    }
}

/// Makes a type equal to that of functions from a new variable to another one.
fn new_parts(alloc: Global, solver: &mut Solver, t: &Ty) -> Result<FunctionType, UnifyFault>
    requires given { IsWellFormed solver.old.given (type_of t.now) }
    ensures parts { IfOk result (λ parts. AreParts (type_of t.now) solver.old solver.new (type_of parts.argument) (type_of parts.outcome)) }
    ensures given { IfOk result (λ parts. IsWellFormed solver.new.given (type_of parts.argument) × IsWellFormed solver.new.given (type_of parts.outcome)) }
    ensures refused { IfErr result (Refuses (IsSomeFunction (type_of t.now)) solver.old) }
{
    let first = new_variables(solver, 2)?;
    let whole = Ty::function(alloc, Ty::Var(first), Ty::Var(first + 1))?;
    equate(solver, t, whole)?;
    Ok(FunctionType {
        argument: Ty::Var(first),
        outcome: Ty::Var(first + 1),
    })
}

/// Makes a type equal to one of functions, and returns its parts. A type that is one already is taken apart.
///
/// # Errors
///
/// `Clash` if the type can't be one of functions, and `Memory` if memory ran out.
pub fn split_function(alloc: Global, solver: &mut Solver, t: Ty) -> Result<FunctionType, UnifyFault>
    requires given { IsWellFormed solver.old.given (type_of t) }
    ensures parts { IfOk result (λ parts. AreParts (type_of t) solver.old solver.new (type_of parts.argument) (type_of parts.outcome)) }
    ensures given { IfOk result (λ parts. IsWellFormed solver.new.given (type_of parts.argument) × IsWellFormed solver.new.given (type_of parts.outcome)) }
    ensures refused { IfErr result (Refuses (IsSomeFunction (type_of t)) solver.old) }
{
    if !is_function(&t) {
        return new_parts(alloc, solver, &t);
    }
    solver.well_formed();
    let Ty::App(_head, arguments) = t else {
        return Err(UnifyFault::Memory);
    };
    let mut row = arguments.into_vec();
    let Some(outcome) = row.pop() else {
        return Err(UnifyFault::Memory);
    };
    let Some(argument) = row.pop() else {
        return Err(UnifyFault::Memory);
    };
    Ok(FunctionType { argument, outcome })
}

// Why: docs/DECISIONS.md, "Types of patterns".
/// Takes an instance of a constructor's scheme apart: into the types of `count` arguments and the outcome, which is made equal to `t`. Returns the
/// types of the arguments.
pub(crate) fn constructor_parts(
    alloc: Global,
    solver: &mut Solver,
    scheme: &Scheme,
    count: usize,
    t: &Ty,
) -> Result<Vec<Ty>, UnifyFault>
    requires { IsWellFormed solver.old.given (type_of t.now) }
    ensures found { IfOk result (λ ts. IsFound (HasArguments (monotype_of scheme.now.body) count (type_of t.now)) solver.old solver.new (λ r. put_types r ts.items)) }
    ensures len { IfOk result (λ ts. length ts.items ≡ count) }
    ensures given { IfOk result (λ ts. AreGivenTypes solver.new.given ts.items) }
    ensures refused { IfErr result (Refuses (IsConstructed (monotype_of scheme.now.body) count (type_of t.now)) solver.old) }
{
    let front = instance_front(alloc, solver, scheme, count)?;
    let Front {
        mut arguments,
        mut rest,
    } = front;
    'arguments: for _ in arguments.len()..count {
        let FunctionType { argument, outcome } = split_function(alloc, solver, rest)?;
        arguments.push(argument)?;
        rest = outcome;
    }
    equate(solver, t, rest)?;
    Ok(arguments)
}
