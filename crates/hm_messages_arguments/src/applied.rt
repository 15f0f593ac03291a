//! The names that the expressions of a module apply, with the number of their arguments.
ghost use Rattle.std.specs.Prelude.{◌≡◌, ◌+◌, ◌++◌, ◌∷◌, [], IfOk, OnOk, flat_map, map};
ghost use Rattle.hm_syntax.specs.Lists.{alternatives, expressions};
ghost use Rattle.hm_messages_arguments.specs.Applied.{alternatives_applied, applied_of, applied_to, bodies_of_applied, declaration_applied, expressions_applied, guard_applied, list_applied, module_applied, right_side_applied};

use hm_syntax::{Alt, Decl, DeclKind, Expr, ExprKind, Module, Name, Rhs};
use std::alloc::{AllocError, Global};

/// A name in an expression, and how many arguments follow it.
#[derive(Clone, Copy)]
pub(crate) struct Applied<'a> {
    pub name: &'a Name,
    pub arguments: usize,
}

/// Adds a name with so many arguments.
fn add_name<'a>(
    out: &mut Vec<Applied<'a>>,
    name: &'a Name,
    arguments: usize,
) -> Result<(), AllocError>
    ensures { OnOk result (map applied_of out.new.items ≡ map applied_of out.old.items ++ record { name = name.now; arguments = arguments } ∷ []) }
{
    out.push(Applied { name, arguments })?;
    Ok(())
}

/// Returns a number of arguments and one more.
fn one_more(arguments: usize) -> Result<usize, AllocError>
    ensures { IfOk result (λ n. n ≡ arguments + 1) }
{
    arguments.checked_add(1).ok_or(AllocError)
}

/// Adds the names of an expression that so many arguments follow.
#[cycle(exprs)]
fn add_expr<'a>(
    out: &mut Vec<Applied<'a>>,
    expr: &'a Expr,
    arguments: usize,
) -> Result<(), AllocError>
    ensures { OnOk result (map applied_of out.new.items ≡ map applied_of out.old.items ++ applied_to arguments expr.now) }
{
    match &expr.kind {
        ExprKind::Var(name) => Ok(add_name(out, name, arguments)?),
        ExprKind::Con(name) => Ok(add_name(out, name, arguments)?),
        ExprKind::Literal(_) => Ok(()),
        ExprKind::Apply(function, argument) => {
            add_expr(out, function, one_more(arguments)?)?;
            add_expr(out, argument, 0)?;
            Ok(())
        }
        ExprKind::Lambda(_, body) => Ok(add_expr(out, body, 0)?),
        ExprKind::Let(decls, body) => {
            add_list(out, decls)?;
            add_expr(out, body, 0)?;
            Ok(())
        }
        ExprKind::If(condition, yes, no) => {
            add_expr(out, condition, 0)?;
            add_expr(out, yes, 0)?;
            add_expr(out, no, 0)?;
            Ok(())
        }
        ExprKind::Case(scrutinee, alts) => {
            add_expr(out, scrutinee, 0)?;
            add_alts(out, alts)?;
            Ok(())
        }
        ExprKind::Tuple(items) => Ok(add_exprs(out, items)?),
        ExprKind::List(items) => Ok(add_exprs(out, items)?),
        ExprKind::Typed(inner, _) => Ok(add_expr(out, inner, 0)?),
    }
}

/// Adds the names of a row of expressions.
#[cycle(exprs)]
#[tactic(auto, using(hm_names::proofs::Rows::expression_falls))]
fn add_exprs<'a>(out: &mut Vec<Applied<'a>>, row: &'a [Expr]) -> Result<(), AllocError>
    ensures { OnOk result (map applied_of out.new.items ≡ map applied_of out.old.items ++ expressions_applied (expressions row.now)) }
{
    'row: for expr in row {
        add_expr(out, expr, 0)?;
    }
    Ok(())
}

/// Adds the names of a row of alternatives.
#[cycle(exprs)]
#[tactic(auto, using(hm_names::proofs::Rows::alternative_falls))]
fn add_alts<'a>(out: &mut Vec<Applied<'a>>, row: &'a [Alt]) -> Result<(), AllocError>
    ensures { OnOk result (map applied_of out.new.items ≡ map applied_of out.old.items ++ alternatives_applied (alternatives row.now)) }
{
    'row: for alt in row {
        add_rhs(out, &alt.rhs)?;
    }
    Ok(())
}

/// Adds the names of a right side with its `where`.
#[cycle(exprs)]
fn add_rhs<'a>(out: &mut Vec<Applied<'a>>, rhs: &'a Rhs) -> Result<(), AllocError>
    ensures { OnOk result (map applied_of out.new.items ≡ map applied_of out.old.items ++ right_side_applied rhs.now) }
{
    add_bodies(out, &rhs.parts)?;
    add_list(out, &rhs.local)?;
    Ok(())
}

/// Adds the names of expressions with their guards.
#[cycle(exprs)]
#[tactic(auto, using(hm_names::proofs::Rows::part_falls))]
fn add_bodies<'a>(
    out: &mut Vec<Applied<'a>>,
    row: &'a [(Option<Expr>, Expr)],
) -> Result<(), AllocError>
    ensures { OnOk result (map applied_of out.new.items ≡ map applied_of out.old.items ++ bodies_of_applied row.now) }
{
    'row: for part in row {
        add_guard(out, &part.0)?;
        add_expr(out, &part.1, 0)?;
    }
    Ok(())
}

/// Adds the names of a guard, if there is one.
#[cycle(exprs)]
fn add_guard<'a>(out: &mut Vec<Applied<'a>>, guard: &'a Option<Expr>) -> Result<(), AllocError>
    ensures { OnOk result (map applied_of out.new.items ≡ map applied_of out.old.items ++ guard_applied guard.now) }
{
    match guard {
        Some(guard) => Ok(add_expr(out, guard, 0)?),
        None => Ok(()),
    }
}

/// Adds the names of a declaration list.
#[cycle(exprs)]
#[tactic(auto, using(hm_names::proofs::Rows::declaration_falls))]
fn add_list<'a>(out: &mut Vec<Applied<'a>>, decls: &'a [Decl]) -> Result<(), AllocError>
    ensures { OnOk result (map applied_of out.new.items ≡ map applied_of out.old.items ++ list_applied decls.now) }
{
    'row: for decl in decls {
        add_decl(out, decl)?;
    }
    Ok(())
}

/// Adds the names of a declaration.
#[cycle(exprs)]
fn add_decl<'a>(out: &mut Vec<Applied<'a>>, decl: &'a Decl) -> Result<(), AllocError>
    ensures { OnOk result (map applied_of out.new.items ≡ map applied_of out.old.items ++ declaration_applied decl.now) }
{
    match &decl.kind {
        DeclKind::DataType { .. } => Ok(()),
        DeclKind::Newtype { .. } => Ok(()),
        DeclKind::Synonym { .. } => Ok(()),
        DeclKind::Signature { .. } => Ok(()),
        DeclKind::Clause { rhs, .. } => Ok(add_rhs(out, rhs)?),
        DeclKind::Pattern { rhs, .. } => Ok(add_rhs(out, rhs)?),
    }
}

/// Returns the names that the expressions of modules apply, in order.
pub(crate) fn applied_in(alloc: Global, modules: &[Module]) -> Result<Vec<Applied<'_>>, AllocError>
    ensures { IfOk result (λ found. map applied_of found.items ≡ flat_map module_applied modules.entry.now) }
{
    let mut found = Vec::new(alloc);
    for module in modules {
        add_list(&mut found, module.decls.as_slice())?;
    }
    Ok(found)
}
