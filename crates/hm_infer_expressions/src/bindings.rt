//! Pattern bindings (Haskell 98 Report, section 4.4.3.2).

ghost use Rattle.std.specs.Prelude.{◌≡◌, ◌<◌, ◌≤◌, OnOk, length};
ghost use Rattle.hm_types.specs.Types.{put};
ghost use Rattle.hm_typing.specs.Names.{Identifier};
ghost use Rattle.hm_typing.specs.Patterns.{Matches};
ghost use Rattle.hm_typing.specs.Schemes.{Monotype};
ghost use Rattle.hm_typing.specs.Syntax.{pattern_names};
ghost use Rattle.hm_names.specs.Syntax.{pattern_of};
ghost use Rattle.hm_infer_context.specs.Constructors.{known_of};
ghost use Rattle.hm_infer_expressions.specs.GroupQuestions.{AreGivenTypes, HaveTypesBefore, HaveNodeTypes, type_at};
ghost use Rattle.hm_infer_context.specs.Kept.{variables_of};
ghost use Rattle.hm_infer_context.specs.Patterns.{AreGiven, put_each};
ghost use Rattle.hm_infer_context.specs.Problems.{Answers};

use hm_infer_context::{Constructors, Variable, Variables, equate, match_pattern};
use hm_syntax::Pat;
use hm_types::Ty;
use hm_unify::{Solver, UnifyFault};
use std::alloc::Global;

/// A node of a list, with the type variables of all nodes.
#[derive(Clone, Copy)]
pub(crate) struct TypedNode<'t> {
    pub types: &'t [usize],
    pub own: usize,
}

/// Equates the types of variables with those of their nodes. These are before the node `own`, with
/// that of the first variable next to it.
fn equate_types(
    solver: &mut Solver,
    items: &[Variable<'_>],
    types: &[usize],
    own: usize,
) -> Result<(), UnifyFault>
    requires own { own < length types.now }
    requires before { length items.now ≤ own }
    requires given { AreGivenTypes solver.old.given types.now }
    requires items { AreGiven solver.old.given (variables_of items.now) }
    ensures answers { Answers (HaveNodeTypes types.now own items.now) solver.old solver.new result }
    ensures given { OnOk result (solver.new.given ≡ solver.old.given) }
{
    solver.well_formed();
    'items: for i in 0..items.len() {
        let number = types[own - 1 - i];
        let item = &items[i];
        equate(solver, &item.ty, Ty::Var(number))?;
    }
    Ok(())
}

/// Matches the pattern of a binding against the type of its node. Each of its variables gets the
/// type of its own node. The nodes of the variables are before that of the binding, the first next to it.
pub(crate) fn match_binding(
    alloc: Global,
    solver: &mut Solver,
    constructors: &Constructors,
    pat: &Pat,
    node: &TypedNode<'_>,
) -> Result<(), UnifyFault>
    requires own { node.now.own < length node.now.types.now }
    requires before { length (pattern_names (pattern_of (known_of constructors.now) pat.now)) ≤ node.now.own }
    requires given { AreGivenTypes solver.old.given node.now.types.now }
    ensures answers { let p = pattern_of (known_of constructors.now) pat.now in
        (τ : Identifier → Monotype) → HaveTypesBefore τ (pattern_names p) node.now.types.now node.now.own
        → Answers (λ r. Matches (put_each r τ) p (put r (type_at node.now.types.now node.now.own))) solver.old solver.new result }
    ensures grows { OnOk result (solver.old.given ≤ solver.new.given) }
{
    let mut variables = Variables::new(alloc);
    let number = node.types[node.own];
    match_pattern(solver, constructors, &mut variables, pat, &Ty::Var(number))?;
    equate_types(solver, variables.as_slice(), node.types, node.own)?;
    Ok(())
}
