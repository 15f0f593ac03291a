//! Checks expressions against types (Damas and Milner 1982, section 6), with their right
//! sides and alternatives (Haskell 98 Report, section 3.13).

ghost use Rattle.std.specs.Prelude.{◌≡◌, ℕ, ◌+◌, ◌<◌, ◌≤◌, ◌^◌, ◌++◌, List, All, IfErr, IfOk, length, cond, OnOk};
ghost use Rattle.hm_types.specs.Shape.{type_of};
ghost use Rattle.hm_types.specs.Types.{Var, put};
ghost use Rattle.hm_types.specs.Monotypes.{var};
ghost use Rattle.hm_syntax.specs.Lists.{expressions, body, bodies, alternatives, patterns, declarations};
ghost use Rattle.hm_graph_components.specs.Digraph.{lists};
ghost use Rattle.hm_syntax.specs.Trees.{application, no_bodies, typed_expression, Declarations};
ghost use Rattle.hm_typing.specs.Assumptions.{assumptions_put};
ghost use Rattle.hm_typing.specs.Schemes.{arrow, Monotype};
ghost use Rattle.hm_typing.specs.Syntax.{names, pattern, no_pattern};
ghost use Rattle.hm_typing.specs.Orders.{AreNumberedGroups};
ghost use Rattle.hm_typing.specs.Typing.{HasFunction, HasLocal};
ghost use Rattle.hm_typing.specs.SecondForm.{Derives, DeriveAll, DeriveRightSides, DeriveClauses, DerivedSchemes};
ghost use Rattle.hm_unify.specs.WellFormed.{IsWellFormed};
ghost use Rattle.hm_infer_context.specs.Problems.{Answers, Refuses, monotype};
ghost use Rattle.hm_infer_context.specs.Inferred.{IsInferred, IsTyped};
ghost use Rattle.hm_infer_expressions.specs.ExpressionTypes.{HasType};
ghost use Rattle.hm_infer_context.specs.Environments.{AreAssumed, Assumed, assumptions, Extends};
ghost use Rattle.hm_infer_expressions.specs.GroupQuestions.{AreGivenTypes, AreMembers, HaveTypesOf, HaveTypesOfAll, MemberHas, MembersHave, StandBefore, type_at};
ghost use Rattle.hm_infer_expressions.specs.JudgedGroups.{JudgesGroup};
ghost use Rattle.hm_infer_expressions.specs.Lists.{Listed};
ghost use Rattle.hm_infer_expressions.specs.OpenGroups.{AreUpTo, ChangesOnly};
ghost use Rattle.hm_infer_expressions.specs.SignedLists.{AreSignatures, SignedClauseHas, SignedClausesHave};
ghost use Rattle.hm_infer_expressions.specs.Stages.{ClosesGroup, InfersGroup, IsListFound, list_of};
ghost use Rattle.hm_typing.specs.Names.{Identifier, IsDistinct};
ghost use Rattle.hm_infer_dependencies.specs.Groups.{node_name};
ghost use Rattle.hm_infer_dependencies.specs.Members.{AreRows};
ghost use Rattle.hm_infer_dependencies.specs.Nodes.{list_nodes};
ghost use Rattle.hm_infer_context.specs.PartTypes.{is_one, first_of};
ghost use Rattle.hm_infer_context.specs.Patterns.{from_number, put_each};
ghost use Rattle.hm_names.specs.Syntax.{Known, bindings_of, expression_of, expressions_of, bodies_of, right_sides_of, where_of, pattern_of, patterns_of, alternatives_of};
ghost use Rattle.hm_infer_context.specs.Constructors.{known_of};

use crate::bindings::{TypedNode, match_binding};
use crate::grouping::{TypedGroup, close_group, open_group};
use crate::listing::listed_groups;
use crate::signed::{bind_signed, declared_for, signatures_of};
use hm_infer_binding_groups::BindingGroups;
use hm_infer_context::{
    Constructors, FunctionType, Inference, PartTypes, check_constructor, check_name,
    constructor_instance, equate, list_part, name_instance, new_variables, open_alternative,
    open_function, split_function, tuple_parts,
};
use hm_infer_dependencies::Member;
use hm_infer_generalisation::{check_instance, declare, forbid_escape, with_rigid_variables};
use hm_syntax::{Alt, Decl, DeclKind, Expr, ExprKind, Pat, Rhs, TypeExpr};
use hm_types::Ty;
use hm_unify::UnifyFault;
use indexmap::IndexMap;

// Why: docs/DECISIONS.md, "State and context", "Constructors outside the state".
/// A binding list that is checked: the known constructors, its declarations, its groups, and the
/// declared types of its variables by their texts.
#[derive(Clone, Copy)]
pub struct CheckedList<'l, 'a, 'c> {
    pub constructors: &'l Constructors<'c>,
    pub decls: &'a [Decl],
    pub found: &'l BindingGroups<'a>,
    pub signatures: &'l IndexMap<&'a str, &'a TypeExpr>,
}

/// The types of a `case`: the variable for the type of the scrutinee, and the type of the
/// whole.
#[derive(Clone, Copy)]
struct CaseTypes<'t> {
    inner: usize,
    outcome: &'t Ty,
}

/// Checks an expression against a type.
#[cycle(checking)]
pub(crate) fn check_expression<'a>(
    inference: &mut Inference<'a>,
    constructors: &Constructors,
    e: &'a Expr,
    t: &Ty,
) -> Result<(), UnifyFault>
    requires given { IsWellFormed inference.old.solver.given (type_of t.now) }
    requires assumed { AreAssumed inference.old.solver.given inference.old.environment }
    ensures answers { Answers (λ r. Derives (assumptions_put r (assumptions inference.old.environment))
        (expression_of (known_of constructors.now) e.now) (put r (monotype (type_of t.now)))) inference.old.solver inference.new.solver result }
    ensures same { OnOk result (inference.new.environment ≡ inference.old.environment) }
    ensures kept { Extends inference.old.environment inference.new.environment }
{
    match &e.kind {
        ExprKind::Var(name) => check_name(
            inference.alloc,
            &mut inference.solver,
            &inference.environment,
            name,
            t,
        ),
        ExprKind::Con(name) => check_constructor(
            inference.alloc,
            &mut inference.solver,
            constructors,
            name,
            t,
        ),
        ExprKind::Literal(literal) => {
            let own = constructors.literal_type(inference.alloc, literal)?;
            equate(&mut inference.solver, t, own)
        }
        ExprKind::Apply(function, argument) => {
            check_application(inference, constructors, function, argument, t)
        }
        ExprKind::If(condition, one, other) => {
            let wanted = constructors.truth();
            check_expression(inference, constructors, condition, wanted)?;
            check_expression(inference, constructors, one, t)?;
            check_expression(inference, constructors, other, t)
        }
        ExprKind::Tuple(parts) => {
            let first = tuple_parts(inference.alloc, &mut inference.solver, parts.len(), t)?;
            check_expressions(inference, constructors, parts, PartTypes::Row(first))
        }
        ExprKind::List(parts) => {
            let first = list_part(inference.alloc, &mut inference.solver, t)?;
            check_expressions(inference, constructors, parts, PartTypes::One(first))
        }
        ExprKind::Lambda(pats, body) => {
            let depth = inference.environment.len();
            let outcome = open_function(inference, constructors, pats, t)?;
            check_expression(inference, constructors, body, &Ty::Var(outcome))?;
            inference.environment.truncate(depth);
            Ok(())
        }
        ExprKind::Let(list, body) => {
            let depth = inference.environment.len();
            check_bindings(inference, constructors, list)?;
            check_expression(inference, constructors, body, t)?;
            inference.environment.truncate(depth);
            Ok(())
        }
        ExprKind::Case(inner, choices) => {
            let first = new_variables(&mut inference.solver, 1)?;
            check_expression(inference, constructors, inner, &Ty::Var(first))?;
            let types = CaseTypes {
                inner: first,
                outcome: t,
            };
            check_alternatives(inference, constructors, choices, &types)
        }
        ExprKind::Typed(inner, ty) => check_typed(inference, constructors, inner, ty, t),
    }
}

/// Checks an expression that has a declared type. The expression has this type with new rigid
/// variables, which don't escape, and `t` is an instance of it (Haskell 98
/// Report, section 3.16).
#[cycle(checking)]
fn check_typed<'a>(
    inference: &mut Inference<'a>,
    constructors: &Constructors,
    inner: &'a Expr,
    ty: &TypeExpr,
    t: &Ty,
) -> Result<(), UnifyFault>
    requires given { IsWellFormed inference.old.solver.given (type_of t.now) }
    requires assumed { AreAssumed inference.old.solver.given inference.old.environment }
    ensures answers { Answers (λ r. Derives (assumptions_put r (assumptions inference.old.environment))
        (expression_of (known_of constructors.now) (typed_expression inner.now ty.now)) (put r (monotype (type_of t.now)))) inference.old.solver
        inference.new.solver result }
    ensures same { OnOk result (inference.new.environment ≡ inference.old.environment) }
    ensures kept { Extends inference.old.environment inference.new.environment }
{
    let declared = declare(inference.alloc, ty)?;
    let own = with_rigid_variables(inference.alloc, &mut inference.solver, &declared)?;
    check_expression(inference, constructors, inner, &own.body)?;
    forbid_escape(&inference.solver, own.first, declared.count)?;
    check_instance(inference.alloc, &mut inference.solver, &declared, t)
}

// Why: docs/DECISIONS.md, "Types of applications".
/// Checks an application against a type. Takes the type of the function apart. The outcome is made equal to the type before the argument is
/// checked, because it is smaller then.
#[cycle(checking)]
fn check_application<'a>(
    inference: &mut Inference<'a>,
    constructors: &Constructors,
    function: &'a Expr,
    argument: &'a Expr,
    t: &Ty,
) -> Result<(), UnifyFault>
    requires given { IsWellFormed inference.old.solver.given (type_of t.now) }
    requires assumed { AreAssumed inference.old.solver.given inference.old.environment }
    ensures answers { Answers (λ r. HasType (known_of constructors.now) (application function.now argument.now) inference.old.environment r
        (put r (monotype (type_of t.now)))) inference.old.solver inference.new.solver result }
    ensures same { OnOk result (inference.new.environment ≡ inference.old.environment) }
    ensures kept { Extends inference.old.environment inference.new.environment }
{
    let found = infer_function(inference, constructors, function)?;
    let parts = split_function(inference.alloc, &mut inference.solver, found)?;
    let FunctionType {
        argument: own,
        outcome,
    } = parts;
    equate(&mut inference.solver, t, outcome)?;
    check_expression(inference, constructors, argument, &own)
}

/// Infers the type of an application. Takes the type of the function apart.
#[cycle(checking)]
fn infer_application<'a>(
    inference: &mut Inference<'a>,
    constructors: &Constructors,
    function: &'a Expr,
    argument: &'a Expr,
) -> Result<Ty, UnifyFault>
    requires assumed { AreAssumed inference.old.solver.given inference.old.environment }
    ensures inferred { IfOk result (λ t. IsInferred (HasType (known_of constructors.now) (application function.now argument.now) inference.old.environment)
        inference.old.solver inference.new.solver (type_of t)) }
    ensures given { IfOk result (λ t. IsWellFormed inference.new.solver.given (type_of t)) }
    ensures refused { IfErr result (Refuses (IsTyped (HasType (known_of constructors.now) (application function.now argument.now) inference.old.environment))
        inference.old.solver) }
    ensures same { OnOk result (inference.new.environment ≡ inference.old.environment) }
    ensures kept { Extends inference.old.environment inference.new.environment }
{
    let found = infer_function(inference, constructors, function)?;
    let parts = split_function(inference.alloc, &mut inference.solver, found)?;
    check_expression(inference, constructors, argument, &parts.argument)?;
    Ok(parts.into_outcome())
}

/// Infers the type of an expression that is applied.
#[cycle(checking)]
fn infer_function<'a>(
    inference: &mut Inference<'a>,
    constructors: &Constructors,
    e: &'a Expr,
) -> Result<Ty, UnifyFault>
    requires assumed { AreAssumed inference.old.solver.given inference.old.environment }
    ensures inferred { IfOk result (λ t. IsInferred (HasType (known_of constructors.now) e.now inference.old.environment)
        inference.old.solver inference.new.solver (type_of t)) }
    ensures given { IfOk result (λ t. IsWellFormed inference.new.solver.given (type_of t)) }
    ensures refused { IfErr result (Refuses (IsTyped (HasType (known_of constructors.now) e.now inference.old.environment)) inference.old.solver) }
    ensures same { OnOk result (inference.new.environment ≡ inference.old.environment) }
    ensures kept { Extends inference.old.environment inference.new.environment }
{
    match &e.kind {
        ExprKind::Var(name) => name_instance(
            inference.alloc,
            &mut inference.solver,
            &inference.environment,
            name,
        ),
        ExprKind::Con(name) => constructor_instance(
            inference.alloc,
            &mut inference.solver,
            constructors,
            name,
        ),
        ExprKind::Apply(function, argument) => {
            infer_application(inference, constructors, function, argument)
        }
        _ => infer_other(inference, constructors, e),
    }
}

/// Infers the type of an expression: checks it against a new variable.
#[cycle(checking)]
fn infer_other<'a>(
    inference: &mut Inference<'a>,
    constructors: &Constructors,
    e: &'a Expr,
) -> Result<Ty, UnifyFault>
    requires assumed { AreAssumed inference.old.solver.given inference.old.environment }
    ensures inferred { IfOk result (λ t. IsInferred (HasType (known_of constructors.now) e.now inference.old.environment)
        inference.old.solver inference.new.solver (type_of t)) }
    ensures given { IfOk result (λ t. IsWellFormed inference.new.solver.given (type_of t)) }
    ensures refused { IfErr result (Refuses (IsTyped (HasType (known_of constructors.now) e.now inference.old.environment)) inference.old.solver) }
    ensures same { OnOk result (inference.new.environment ≡ inference.old.environment) }
    ensures kept { Extends inference.old.environment inference.new.environment }
{
    let own = new_variables(&mut inference.solver, 1)?;
    check_expression(inference, constructors, e, &Ty::Var(own))?;
    Ok(Ty::Var(own))
}

/// Checks expressions against their types.
#[cycle(checking)]
pub(crate) fn check_expressions<'a>(
    inference: &mut Inference<'a>,
    constructors: &Constructors,
    parts: &'a [Expr],
    types: PartTypes,
) -> Result<(), UnifyFault>
    requires given { (j : ℕ) → j < length parts.now → cond (is_one types) (first_of types) (first_of types + j) < inference.old.solver.given }
    requires fits { cond (is_one types) (first_of types) (first_of types + length parts.now) < 2 ^ 64 }
    requires assumed { AreAssumed inference.old.solver.given inference.old.environment }
    ensures answers { Answers (λ r. DeriveAll (assumptions_put r (assumptions inference.old.environment))
        (expressions_of (known_of constructors.now) (expressions parts.now)) (λ j.
        put r (from_number (is_one types) (first_of types) j)) 0) inference.old.solver inference.new.solver result }
    ensures same { OnOk result (inference.new.environment ≡ inference.old.environment) }
    ensures kept { Extends inference.old.environment inference.new.environment }
{
    inference.solver.well_formed();
    'parts: for j in 0..parts.len() {
        let number = types.at(j);
        check_expression(inference, constructors, &parts[j], &Ty::Var(number))?;
    }
    Ok(())
}

/// Checks an expression, and its guard if it has one, against a type.
#[cycle(checking)]
pub(crate) fn check_body<'a>(
    inference: &mut Inference<'a>,
    constructors: &Constructors,
    guard: &'a Option<Expr>,
    e: &'a Expr,
    t: &Ty,
) -> Result<(), UnifyFault>
    requires given { IsWellFormed inference.old.solver.given (type_of t.now) }
    requires assumed { AreAssumed inference.old.solver.given inference.old.environment }
    ensures answers { Answers (λ r. DeriveRightSides (assumptions_put r (assumptions inference.old.environment))
        (bodies_of (known_of constructors.now) (body guard.now e.now no_bodies)) (put r (monotype (type_of t.now)))) inference.old.solver
        inference.new.solver result }
    ensures same { OnOk result (inference.new.environment ≡ inference.old.environment) }
    ensures kept { Extends inference.old.environment inference.new.environment }
{
    match guard {
        None => check_expression(inference, constructors, e, t),
        Some(condition) => {
            let wanted = constructors.truth();
            check_expression(inference, constructors, condition, wanted)?;
            check_expression(inference, constructors, e, t)
        }
    }
}

/// Checks the expressions of a right side, with their guards, against a type.
#[cycle(checking)]
pub(crate) fn check_bodies<'a>(
    inference: &mut Inference<'a>,
    constructors: &Constructors,
    parts: &'a [(Option<Expr>, Expr)],
    t: &Ty,
) -> Result<(), UnifyFault>
    requires given { IsWellFormed inference.old.solver.given (type_of t.now) }
    requires assumed { AreAssumed inference.old.solver.given inference.old.environment }
    ensures answers { Answers (λ r. DeriveRightSides (assumptions_put r (assumptions inference.old.environment))
        (bodies_of (known_of constructors.now) (bodies parts.now)) (put r (monotype (type_of t.now)))) inference.old.solver inference.new.solver result }
    ensures same { OnOk result (inference.new.environment ≡ inference.old.environment) }
    ensures kept { Extends inference.old.environment inference.new.environment }
{
    inference.solver.well_formed();
    'parts: for j in 0..parts.len() {
        let part = &parts[j];
        check_body(inference, constructors, &part.0, &part.1, t)?;
    }
    Ok(())
}

/// Checks a right side, with the bindings of its `where`, against a type.
#[cycle(checking)]
pub(crate) fn check_right_side<'a>(
    inference: &mut Inference<'a>,
    constructors: &Constructors,
    rhs: &'a Rhs,
    t: &Ty,
) -> Result<(), UnifyFault>
    requires given { IsWellFormed inference.old.solver.given (type_of t.now) }
    requires assumed { AreAssumed inference.old.solver.given inference.old.environment }
    ensures answers { let k = known_of constructors.now in
        Answers (λ r. HasLocal (assumptions_put r (assumptions inference.old.environment)) (where_of k rhs.now) (λ B. DerivedSchemes (assumptions_put r (assumptions inference.old.environment)) (where_of k rhs.now) B) (λ C. DeriveRightSides C (right_sides_of k rhs.now) (put r (monotype (type_of t.now))))) inference.old.solver inference.new.solver result }
    ensures same { OnOk result (inference.new.environment ≡ inference.old.environment) }
    ensures kept { Extends inference.old.environment inference.new.environment }
{
    let depth = inference.environment.len();
    check_bindings(inference, constructors, &rhs.local)?;
    check_bodies(inference, constructors, &rhs.parts, t)?;
    inference.environment.truncate(depth);
    Ok(())
}

/// Checks an alternative, given by its pattern and its right side, against the types of its `case`.
#[cycle(checking)]
fn check_alternative<'a>(
    inference: &mut Inference<'a>,
    constructors: &Constructors,
    pat: &'a Pat,
    rhs: &'a Rhs,
    types: &CaseTypes<'_>,
) -> Result<(), UnifyFault>
    requires inner { types.now.inner < inference.old.solver.given }
    requires given { IsWellFormed inference.old.solver.given (type_of types.now.outcome.now) }
    requires assumed { AreAssumed inference.old.solver.given inference.old.environment }
    ensures answers { let k = known_of constructors.now in
        Answers (λ r. HasFunction (assumptions_put r (assumptions inference.old.environment)) (pattern (pattern_of k pat.now) no_pattern) (put r (arrow (monotype (Var (var types.now.inner))) (monotype (type_of types.now.outcome.now)))) (λ A u. HasLocal A (where_of k rhs.now) (λ B. DerivedSchemes A (where_of k rhs.now) B) (λ C. DeriveRightSides C (right_sides_of k rhs.now) u))) inference.old.solver inference.new.solver result }
    ensures same { OnOk result (inference.new.environment ≡ inference.old.environment) }
    ensures kept { Extends inference.old.environment inference.new.environment }
{
    let depth = inference.environment.len();
    open_alternative(inference, constructors, pat, types.inner, types.outcome)?;
    check_right_side(inference, constructors, rhs, types.outcome)?;
    inference.environment.truncate(depth);
    Ok(())
}

/// Checks alternatives against the types of their `case`.
#[cycle(checking)]
fn check_alternatives<'a>(
    inference: &mut Inference<'a>,
    constructors: &Constructors,
    choices: &'a [Alt],
    types: &CaseTypes<'_>,
) -> Result<(), UnifyFault>
    requires inner { types.now.inner < inference.old.solver.given }
    requires given { IsWellFormed inference.old.solver.given (type_of types.now.outcome.now) }
    requires assumed { AreAssumed inference.old.solver.given inference.old.environment }
    ensures answers { Answers (λ r. DeriveClauses (assumptions_put r (assumptions inference.old.environment))
        (alternatives_of (known_of constructors.now) (alternatives choices.now))
        (put r (arrow (monotype (Var (var types.now.inner))) (monotype (type_of types.now.outcome.now))))) inference.old.solver inference.new.solver result }
    ensures same { OnOk result (inference.new.environment ≡ inference.old.environment) }
    ensures kept { Extends inference.old.environment inference.new.environment }
{
    inference.solver.well_formed();
    'choices: for j in 0..choices.len() {
        let choice = &choices[j];
        check_alternative(inference, constructors, &choice.pat, &choice.rhs, types)?;
    }
    Ok(())
}

/// Checks a clause, given by its patterns and its right side, against a type.
#[cycle(checking)]
pub(crate) fn check_clause<'a>(
    inference: &mut Inference<'a>,
    constructors: &Constructors,
    pats: &'a [Pat],
    rhs: &'a Rhs,
    t: &Ty,
) -> Result<(), UnifyFault>
    requires given { IsWellFormed inference.old.solver.given (type_of t.now) }
    requires assumed { AreAssumed inference.old.solver.given inference.old.environment }
    ensures answers { let k = known_of constructors.now in
        Answers (λ r. HasFunction (assumptions_put r (assumptions inference.old.environment)) (patterns_of k (patterns pats.now)) (put r (monotype (type_of t.now))) (λ A u. HasLocal A (where_of k rhs.now) (λ B. DerivedSchemes A (where_of k rhs.now) B) (λ C. DeriveRightSides C (right_sides_of k rhs.now) u))) inference.old.solver inference.new.solver result }
    ensures same { OnOk result (inference.new.environment ≡ inference.old.environment) }
    ensures kept { Extends inference.old.environment inference.new.environment }
{
    let depth = inference.environment.len();
    let outcome = open_function(inference, constructors, pats, t)?;
    check_right_side(inference, constructors, rhs, &Ty::Var(outcome))?;
    inference.environment.truncate(depth);
    Ok(())
}

/// Checks a declaration of a group: a clause has the type of its node, and a pattern and its right
/// side have the type of theirs.
#[cycle(checking)]
fn check_member<'a>(
    inference: &mut Inference<'a>,
    constructors: &Constructors,
    decl: &'a Decl,
    node: &TypedNode<'_>,
) -> Result<(), UnifyFault>
    requires own { node.now.own < length node.now.types.now }
    requires before { StandBefore (known_of constructors.now) node.now.own decl.now }
    requires given { AreGivenTypes inference.old.solver.given node.now.types.now }
    requires assumed { AreAssumed inference.old.solver.given inference.old.environment }
    ensures answers { let k = known_of constructors.now in
        (τ : Identifier → Monotype) → HaveTypesOf k τ node.now.types.now node.now.own decl.now
        → Answers (λ r. MemberHas k (assumptions_put r (assumptions inference.old.environment)) (put_each r τ)
        (put r (type_at node.now.types.now node.now.own)) decl.now) inference.old.solver inference.new.solver result }
    ensures same { OnOk result (inference.new.environment ≡ inference.old.environment) }
    ensures kept { Extends inference.old.environment inference.new.environment }
    ensures grows { OnOk result (inference.old.solver.given ≤ inference.new.solver.given) }
{
    inference.solver.well_formed();
    let number = node.types[node.own];
    match &decl.kind {
        DeclKind::Clause { name: _, pats, rhs } => check_clause(
            inference,
            constructors,
            pats,
            rhs,
            &Ty::Var(number),
        ),
        DeclKind::Pattern { place: _, pat, rhs } => {
            match_binding(
                inference.alloc,
                &mut inference.solver,
                constructors,
                pat,
                node,
            )?;
            check_clause(inference, constructors, &[], rhs, &Ty::Var(number))
        }
        DeclKind::DataType {
            name: _,
            params: _,
            constrs: _,
        } => Ok(()),
        DeclKind::Newtype {
            name: _,
            params: _,
            constr: _,
        } => Ok(()),
        DeclKind::Synonym {
            name: _,
            params: _,
            ty: _,
        } => Ok(()),
        DeclKind::Signature { names: _, ty: _ } => Ok(()),
    }
}

/// Checks the declarations of a group.
#[cycle(checking)]
fn check_members<'a>(
    inference: &mut Inference<'a>,
    constructors: &Constructors,
    decls: &'a [Decl],
    members: &[Member],
    types: &[usize],
) -> Result<(), UnifyFault>
    requires members { AreMembers (known_of constructors.now) decls.now (length types.now) members.now }
    requires given { AreGivenTypes inference.old.solver.given types.now }
    requires assumed { AreAssumed inference.old.solver.given inference.old.environment }
    ensures answers { let k = known_of constructors.now in
        (τ : Identifier → Monotype) → HaveTypesOfAll k decls.now τ types.now members.now
        → Answers (MembersHave k decls.now types.now τ members.now (assumptions inference.old.environment)) inference.old.solver
        inference.new.solver result }
    ensures same { OnOk result (inference.new.environment ≡ inference.old.environment) }
    ensures kept { Extends inference.old.environment inference.new.environment }
    ensures grows { OnOk result (inference.old.solver.given ≤ inference.new.solver.given) }
{
    inference.solver.well_formed();
    'members: for j in 0..members.len() {
        let member = &members[j];
        let node = TypedNode {
            types,
            own: member.node,
        };
        check_member(inference, constructors, &decls[member.place], &node)?;
    }
    Ok(())
}

// Why: docs/DECISIONS.md, "Levels of groups", "A level is a number".
/// Infers the schemes of a group of a list, and binds its names in the environment. Variables in
/// the value of a variable older than the group aren't quantified.
#[cycle(checking)]
pub fn infer_group<'a>(
    inference: &mut Inference<'a>,
    list: &CheckedList<'_, 'a, '_>,
    group: &[usize],
    types: &mut [usize],
) -> Result<(), UnifyFault>
    requires list { IsListFound (known_of list.now.constructors.now) list.now.decls.now list.now.found.now.numbers (lists list.now.found.now.rows.items) }
    requires nodes { All (λ j. j < length list.now.found.now.numbers) group.now }
    requires types { length types.old ≡ length list.now.found.now.numbers }
    requires some { 0 < length group.now }
    requires numbers { AreUpTo inference.old.solver.given types.old }
    requires assumed { AreAssumed inference.old.solver.given inference.old.environment }
    ensures inferred { (added base : List Assumed) → inference.old.environment ≡ added ++ base
        → InfersGroup (known_of list.now.constructors.now) list.now.decls.now group.now base inference.old.solver inference.old.environment
        inference.new.solver inference.new.environment result }
    ensures assumed { OnOk result (AreAssumed inference.new.solver.given inference.new.environment) }
    ensures judged { (added base : List Assumed) → inference.old.environment ≡ added ++ base
        → JudgesGroup (known_of list.now.constructors.now) list.now.decls.now group.now base inference.old.solver inference.old.environment
        inference.new.environment result }
    ensures closed { OnOk result ((added base : List Assumed) → inference.old.environment ≡ added ++ base
        → ClosesGroup (known_of list.now.constructors.now) list.now.decls.now group.now base inference.old.solver inference.old.environment
        inference.new.environment) }
    ensures closed_first { OnOk result (inference.old.solver.given ≡ 0 → AreAssumed 0 inference.old.environment → AreAssumed 0 inference.new.environment) }
    ensures numbers { OnOk result (AreUpTo inference.new.solver.given types.new) }
    ensures kept { Extends inference.old.environment inference.new.environment }
    ensures changed { ChangesOnly group.now types.old types.new }
{
    let older = inference.solver.given();
    let inner = inference.environment.len();
    let members = open_group(inference, list.found, group, types)?;
    check_members(inference, list.constructors, list.decls, &members, types)?;
    inference.environment.truncate(inner);
    let typed = TypedGroup {
        numbers: &list.found.numbers,
        nodes: group,
        types,
        older,
    };
    close_group(
        inference.alloc,
        &inference.solver,
        &mut inference.environment,
        &typed,
    )?;
    Ok(())
}

// Why: docs/DECISIONS.md, "Signed lists".
/// Checks a clause of a variable with a signature against the declared type, with new rigid
/// variables. Requires nothing of other declarations.
#[cycle(checking)]
pub fn check_signed<'a>(
    inference: &mut Inference<'a>,
    constructors: &Constructors,
    signatures: &IndexMap<&str, &TypeExpr>,
    decl: &'a Decl,
) -> Result<(), UnifyFault>
    requires assumed { AreAssumed inference.old.solver.given inference.old.environment }
    ensures answers { (all : Declarations) → AreSignatures all signatures.now
        → Answers (λ r. SignedClauseHas (known_of constructors.now) all (assumptions_put r (assumptions inference.old.environment)) decl.now)
        inference.old.solver inference.new.solver result }
    ensures same { OnOk result (inference.new.environment ≡ inference.old.environment) }
    ensures kept { Extends inference.old.environment inference.new.environment }
    ensures grows { OnOk result (inference.old.solver.given ≤ inference.new.solver.given) }
{
    inference.solver.well_formed();
    let DeclKind::Clause { name, pats, rhs } = &decl.kind else {
        return Ok(());
    };
    let Some(ty) = declared_for(signatures, name) else {
        return Ok(());
    };
    let declared = declare(inference.alloc, ty)?;
    let own = with_rigid_variables(inference.alloc, &mut inference.solver, &declared)?;
    check_clause(inference, constructors, pats, rhs, &own.body)?;
    forbid_escape(&inference.solver, own.first, declared.count)?;
    Ok(())
}

/// Checks the clauses of a list whose variables have signatures.
#[cycle(checking)]
fn check_all_signed<'a>(
    inference: &mut Inference<'a>,
    list: &CheckedList<'_, 'a, '_>,
) -> Result<(), UnifyFault>
    requires signatures { AreSignatures (declarations list.now.decls.now) list.now.signatures.now }
    requires assumed { AreAssumed inference.old.solver.given inference.old.environment }
    ensures answers { Answers (λ r. SignedClausesHave (known_of list.now.constructors.now) (declarations list.now.decls.now)
        (assumptions_put r (assumptions inference.old.environment)) list.now.decls.now) inference.old.solver inference.new.solver result }
    ensures same { OnOk result (inference.new.environment ≡ inference.old.environment) }
    ensures kept { Extends inference.old.environment inference.new.environment }
{
    inference.solver.well_formed();
    let decls = list.decls;
    'decls: for j in 0..decls.len() {
        check_signed(inference, list.constructors, list.signatures, &decls[j])?;
    }
    Ok(())
}

/// Infers the schemes of a binding list, and binds its names in the environment: first the declared
/// names, then the groups in order. Checks the bindings with signatures last.
///
/// # Errors
///
/// `Clash` if the list has no typing, and `Memory` if memory ran out.
#[cycle(checking)]
pub fn check_bindings<'a>(
    inference: &mut Inference<'a>,
    constructors: &Constructors,
    list: &'a [Decl],
) -> Result<(), UnifyFault>
    requires { AreAssumed inference.old.solver.given inference.old.environment }
    ensures listed { Listed (list_of (known_of constructors.now) list.now) inference.old.solver inference.old.environment inference.new.solver
        inference.new.environment result }
    ensures closed { OnOk result (AreAssumed 0 inference.old.environment → AreAssumed 0 inference.new.environment) }
    ensures kept { Extends inference.old.environment inference.new.environment }
{
    inference.solver.well_formed();
    if list.is_empty() {
        return Ok(());
    }
    let found = listed_groups(inference.alloc, list)?;
    let signatures = signatures_of(inference.alloc, list)?;
    let checked = CheckedList {
        constructors,
        decls: list,
        found: &found,
        signatures: &signatures,
    };
    check_list(inference, &checked)
}

/// Does what `check_bindings` does, for a list with known groups and signatures.
#[cycle(checking)]
fn check_list<'a>(
    inference: &mut Inference<'a>,
    list: &CheckedList<'_, 'a, '_>,
) -> Result<(), UnifyFault>
    requires assumed { AreAssumed inference.old.solver.given inference.old.environment }
    requires nodes { list.now.found.now.numbers ≡ list_nodes (declarations list.now.decls.now) (declarations list.now.decls.now) }
    requires rows { AreRows list.now.decls.now (length list.now.found.now.numbers) (lists list.now.found.now.rows.items) }
    requires distinct { (k : Known) → IsDistinct (names (bindings_of k (declarations list.now.decls.now) (declarations list.now.decls.now))) }
    requires groups { (k : Known) → AreNumberedGroups (bindings_of k (declarations list.now.decls.now) (declarations list.now.decls.now))
        (node_name k (declarations list.now.decls.now)) (length list.now.found.now.numbers) (lists list.now.found.now.groups.items) }
    requires signatures { AreSignatures (declarations list.now.decls.now) list.now.signatures.now }
    ensures listed { Listed (list_of (known_of list.now.constructors.now) list.now.decls.now) inference.old.solver inference.old.environment
        inference.new.solver inference.new.environment result }
    ensures closed { OnOk result (AreAssumed 0 inference.old.environment → AreAssumed 0 inference.new.environment) }
    ensures kept { Extends inference.old.environment inference.new.environment }
{
    inference.solver.well_formed();
    bind_signed(
        inference.alloc,
        &mut inference.environment,
        list.signatures,
        list.decls,
    )?;
    let count = list.found.numbers.len();
    let mut types = vec![in inference.alloc; 0; count]?;
    'groups: for i in 0..list.found.groups.len() {
        infer_group(inference, list, &list.found.groups[i], &mut types)?;
    }
    check_all_signed(inference, list)?;
    Ok(())
}
