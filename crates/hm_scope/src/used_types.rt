//! The type constructors that a module uses outside of the right sides of its synonyms, borrowed, in order.

ghost use Rattle.std.specs.Prelude.{◌≡◌, ◌++◌, OnOk};
ghost use Rattle.hm_syntax.specs.Lists.{expressions, alternatives, body, bodies, declarations, constructors};
ghost use Rattle.hm_syntax.specs.Trees.{no_bodies};
ghost use Rattle.hm_scope.specs.UsedTypes.{expression_types, expressions_types, alternatives_types, right_side_types, bodies_types, declaration_types, declarations_types, constructor_types, constructors_types, types_outside, all_types_outside};

use crate::type_names::{add_type, add_types};
use hm_names::LentNames;
use hm_syntax::{Alt, Constr, Decl, DeclKind, Expr, ExprKind, Rhs};
use std::alloc::AllocError;

/// Adds the type constructors in an expression.
#[cycle(exprs)]
fn add_expr<'a>(out: &mut LentNames<'a>, expr: &'a Expr) -> Result<(), AllocError>
    ensures { OnOk result (out.new ≡ out.old ++ expression_types expr.now) }
{
    match &expr.kind {
        ExprKind::Var(_) => Ok(()),
        ExprKind::Con(_) => Ok(()),
        ExprKind::Literal(_) => Ok(()),
        ExprKind::Apply(function, argument) => {
            add_expr(out, function)?;
            add_expr(out, argument)?;
            Ok(())
        }
        ExprKind::Lambda(_, body) => Ok(add_expr(out, body)?),
        ExprKind::Let(local, body) => {
            add_decls(out, local)?;
            add_expr(out, body)?;
            Ok(())
        }
        ExprKind::If(test, consequence, alternative) => {
            add_expr(out, test)?;
            add_expr(out, consequence)?;
            add_expr(out, alternative)?;
            Ok(())
        }
        ExprKind::Case(subject, alts) => {
            add_expr(out, subject)?;
            add_alts(out, alts)?;
            Ok(())
        }
        ExprKind::Tuple(parts) => Ok(add_exprs(out, parts)?),
        ExprKind::List(elements) => Ok(add_exprs(out, elements)?),
        ExprKind::Typed(inner, ty) => {
            add_expr(out, inner)?;
            add_type(out, ty)?;
            Ok(())
        }
    }
}

/// Adds the type constructors in a row of expressions.
#[cycle(exprs)]
#[tactic(auto, using(hm_names::proofs::Rows::expression_falls))]
fn add_exprs<'a>(out: &mut LentNames<'a>, row: &'a [Expr]) -> Result<(), AllocError>
    ensures { OnOk result (out.new ≡ out.old ++ expressions_types (expressions row.now)) }
{
    'row: for expr in row {
        add_expr(out, expr)?;
    }
    Ok(())
}

/// Adds the type constructors in alternatives.
#[cycle(exprs)]
#[tactic(auto, using(hm_names::proofs::Rows::alternative_falls))]
fn add_alts<'a>(out: &mut LentNames<'a>, row: &'a [Alt]) -> Result<(), AllocError>
    ensures { OnOk result (out.new ≡ out.old ++ alternatives_types (alternatives row.now)) }
{
    'row: for alt in row {
        add_rhs(out, &alt.rhs)?;
    }
    Ok(())
}

/// Adds the type constructors in a right side with its `where`.
#[cycle(exprs)]
fn add_rhs<'a>(out: &mut LentNames<'a>, rhs: &'a Rhs) -> Result<(), AllocError>
    ensures { OnOk result (out.new ≡ out.old ++ right_side_types rhs.now) }
{
    add_parts(out, &rhs.parts)?;
    add_decls(out, &rhs.local)?;
    Ok(())
}

/// Adds the type constructors in expressions with their guards.
#[cycle(exprs)]
#[tactic(auto, using(hm_names::proofs::Rows::part_falls))]
fn add_parts<'a>(out: &mut LentNames<'a>, row: &'a [(Option<Expr>, Expr)]) -> Result<(), AllocError>
    ensures { OnOk result (out.new ≡ out.old ++ bodies_types (bodies row.now)) }
{
    'row: for part in row {
        add_part(out, part)?;
    }
    Ok(())
}

/// Adds the type constructors in an expression with its guard.
#[cycle(exprs)]
fn add_part<'a>(out: &mut LentNames<'a>, part: &'a (Option<Expr>, Expr)) -> Result<(), AllocError>
    ensures { OnOk result (out.new ≡ out.old ++ bodies_types (body part.now.0 part.now.1 no_bodies)) }
{
    match &part.0 {
        None => {
            add_expr(out, &part.1)?;
            Ok(())
        }
        Some(guard) => {
            add_expr(out, guard)?;
            add_expr(out, &part.1)?;
            Ok(())
        }
    }
}

/// Adds the type constructors in declarations.
#[cycle(exprs)]
#[tactic(auto, using(hm_names::proofs::Rows::declaration_falls))]
fn add_decls<'a>(out: &mut LentNames<'a>, row: &'a [Decl]) -> Result<(), AllocError>
    ensures { OnOk result (out.new ≡ out.old ++ declarations_types (declarations row.now)) }
{
    'row: for decl in row {
        add_decl(out, decl)?;
    }
    Ok(())
}

/// Adds the type constructors in a declaration.
#[cycle(exprs)]
fn add_decl<'a>(out: &mut LentNames<'a>, decl: &'a Decl) -> Result<(), AllocError>
    ensures { OnOk result (out.new ≡ out.old ++ declaration_types decl.now) }
{
    match &decl.kind {
        DeclKind::DataType { constrs, .. } => Ok(add_constrs(out, constrs)?),
        DeclKind::Newtype { constr, .. } => Ok(add_constr(out, constr)?),
        DeclKind::Synonym { ty, .. } => Ok(add_type(out, ty)?),
        DeclKind::Signature { ty, .. } => Ok(add_type(out, ty)?),
        DeclKind::Clause { rhs, .. } => Ok(add_rhs(out, rhs)?),
        DeclKind::Pattern { rhs, .. } => Ok(add_rhs(out, rhs)?),
    }
}

/// Adds the type constructors in constructors of a data type.
fn add_constrs<'a>(out: &mut LentNames<'a>, row: &'a [Constr]) -> Result<(), AllocError>
    ensures { OnOk result (out.new ≡ out.old ++ constructors_types (constructors row.now)) }
{
    'row: for constr in row {
        add_constr(out, constr)?;
    }
    Ok(())
}

/// Adds the type constructors in the arguments of a constructor.
fn add_constr<'a>(out: &mut LentNames<'a>, constr: &'a Constr) -> Result<(), AllocError>
    ensures { OnOk result (out.new ≡ out.old ++ constructor_types constr.now) }
{
    Ok(add_types(out, &constr.args)?)
}

/// Adds the type constructors in a declaration, unless that is of a synonym.
fn add_outside<'a>(out: &mut LentNames<'a>, decl: &'a Decl) -> Result<(), AllocError>
    ensures { OnOk result (out.new ≡ out.old ++ types_outside decl.now) }
{
    match &decl.kind {
        DeclKind::DataType { constrs, .. } => Ok(add_constrs(out, constrs)?),
        DeclKind::Newtype { constr, .. } => Ok(add_constr(out, constr)?),
        DeclKind::Synonym { .. } => Ok(()),
        DeclKind::Signature { ty, .. } => Ok(add_type(out, ty)?),
        DeclKind::Clause { rhs, .. } => Ok(add_rhs(out, rhs)?),
        DeclKind::Pattern { rhs, .. } => Ok(add_rhs(out, rhs)?),
    }
}

/// Adds the type constructors in declarations except those of synonyms.
pub(crate) fn add_all_outside<'a>(
    out: &mut LentNames<'a>,
    decls: &'a [Decl],
) -> Result<(), AllocError>
    ensures { OnOk result (out.new ≡ out.old ++ all_types_outside decls.now) }
{
    'decls: for decl in decls {
        add_outside(out, decl)?;
    }
    Ok(())
}
