//! Takes an instance of a declared scheme apart, without making the types of functions in it.

ghost use Rattle.std.specs.Prelude.{◌≡◌, ◌≤◌, IfErr, IfOk, IfSome, IsTrue, length};
ghost use Rattle.hm_types.specs.Shape.{type_of};
ghost use Rattle.hm_types.specs.Types.{App as app, done as none, more};
ghost use Rattle.hm_types.specs.declared.Head.TheVariants as head;
ghost use Rattle.hm_typing.specs.Programs.{monotype_of};
ghost use Rattle.hm_unify.specs.WellFormed.{IsWellFormed};
ghost use Rattle.hm_unify.specs.declared.faults.UnifyFault.TheVariants.{Memory};
ghost use Rattle.hm_infer_context.specs.ConstructorParts.{AreGivenTypes, IsFrontFound};

use crate::instances::{VariableKind, instantiate};
use crate::unifying::new_variables;
use hm_types::{Head, Scheme, Ty};
use hm_unify::{Solver, UnifyFault};
use std::alloc::Global;

/// The borrowed parts of the type of a function.
#[derive(Clone, Copy)]
struct LentFunction<'t> {
    argument: &'t Ty,
    outcome: &'t Ty,
}

/// Returns the parts of a type that is one of functions, if they are wanted.
fn lent_parts(t: &Ty, is_wanted: bool) -> Option<LentFunction<'_>>
    ensures wanted { IfSome result (λ _. IsTrue is_wanted) }
    ensures parts { IfSome result (λ p. type_of t.now ≡ app head.Arrow (more (type_of p.argument.now) (more (type_of p.outcome.now) none))) }
{
    if !is_wanted {
        return None;
    }
    let Ty::App(head, arguments) = t else {
        return None;
    };
    if !head.is_same(&Head::Arrow) {
        return None;
    }
    let row = arguments.as_slice();
    if row.len() != 2 {
        return None;
    }
    Some(LentFunction {
        argument: &row[0],
        outcome: &row[1],
    })
}

/// The types of the first arguments of an instance of a scheme, and what the instance is after them.
#[derive(Drop)]
pub(crate) struct Front {
    pub arguments: Vec<Ty>,
    pub rest: Ty,
}

// Why: docs/DECISIONS.md, "Types of patterns".
/// Returns an instance of a declared scheme with new variables, without the first arguments that it is written with, at most `count`.
pub(crate) fn instance_front(
    alloc: Global,
    solver: &mut Solver,
    scheme: &Scheme,
    count: usize,
) -> Result<Front, UnifyFault>
    ensures found { IfOk result (λ f. IsFrontFound (monotype_of scheme.now.body) (length f.arguments.items) solver.old solver.new f.arguments.items (type_of f.rest)) }
    ensures len { IfOk result (λ f. length f.arguments.items ≤ count) }
    ensures arguments { IfOk result (λ f. AreGivenTypes solver.new.given f.arguments.items) }
    ensures rest { IfOk result (λ f. IsWellFormed solver.new.given (type_of f.rest)) }
    ensures refused { IfErr result (λ e. e ≡ Memory) }
{
    let kind = VariableKind::Flexible;
    let quantified = scheme.vars();
    let base = new_variables(solver, quantified)?;
    solver.well_formed();
    let mut arguments = Vec::with_capacity(alloc, count)?;
    let mut rest = scheme.body();
    'arguments: while let Some(parts) = lent_parts(rest, arguments.len() < count) {
        arguments.push(instantiate(alloc, kind, quantified, base, parts.argument)?)?;
        rest = parts.outcome;
    }
    let rest = instantiate(alloc, kind, quantified, base, rest)?;
    Ok(Front { arguments, rest })
}
