//! The parts of a module in which details of faults are found.
ghost use Rattle.std.specs.Prelude.{◌≡◌, ◌++◌, ◌∷◌, [], IfOk, OnOk, map};
ghost use Rattle.hm_syntax.specs.Trees.{more_patterns, no_patterns};
ghost use Rattle.hm_syntax.specs.Lists.{patterns, types, constructors, expressions, alternatives};
ghost use Rattle.hm_messages_details.specs.Parts.{part_of, type_parts, types_parts, constructor_parts, constructors_parts, pattern_parts, patterns_parts, head_parts, expression_parts, expressions_parts, alternatives_parts, right_side_parts, bodies_of_parts, guard_parts, declaration_parts, module_parts};

use crate::role::Role;
use hm_syntax::{
    Alt, Constr, Decl, DeclKind, Expr, ExprKind, Module, Name, Pat, PatKind, Rhs, TypeExpr,
    TypeKind,
};
use std::alloc::{AllocError, Global};

/// A part of a module.
#[derive(Clone, Copy)]
pub(crate) enum ModulePart<'a> {
    /// A declaration list.
    List(&'a [Decl]),
    /// The patterns of a clause or a lambda.
    Head(&'a [Pat]),
    /// The pattern of an alternative or a pattern binding.
    Alone(&'a Pat),
    /// The parameters of a type's declaration.
    Parameters(&'a [Name]),
    /// A constructor in a pattern, with its arguments.
    Pattern(&'a Name, &'a [Pat]),
    /// A type constructor with its arguments.
    Type(&'a Name, &'a [TypeExpr]),
    /// A variable or a constructor of an expression, or a type variable.
    Use(Role, &'a Name),
    /// The end of the scope of a list, or of patterns.
    End,
}

/// Adds a part.
fn add_part<'a>(out: &mut Vec<ModulePart<'a>>, part: ModulePart<'a>) -> Result<(), AllocError>
    ensures { OnOk result (map part_of out.new.items ≡ map part_of out.old.items ++ part_of part.entry ∷ []) }
{
    out.push(part)?;
    Ok(())
}

/// Adds the parts of a type.
#[cycle(types)]
#[tactic(auto, using(hm_names::proofs::Rows::type_falls))]
fn add_type<'a>(out: &mut Vec<ModulePart<'a>>, ty: &'a TypeExpr) -> Result<(), AllocError>
    ensures { OnOk result (map part_of out.new.items ≡ map part_of out.old.items ++ type_parts ty.now) }
{
    match &ty.kind {
        TypeKind::Var(name) => Ok(add_part(out, ModulePart::Use(Role::TypeVariable, name))?),
        TypeKind::Con(name, args) => {
            add_part(out, ModulePart::Type(name, args))?;
            add_types(out, args)?;
            Ok(())
        }
        TypeKind::Arrow(from, to) => {
            add_type(out, from)?;
            add_type(out, to)?;
            Ok(())
        }
        TypeKind::Tuple(parts) => Ok(add_types(out, parts)?),
        TypeKind::List(element) => Ok(add_type(out, element)?),
        TypeKind::Unit => Ok(()),
    }
}

/// Adds the parts of a row of types.
#[cycle(types)]
#[tactic(auto, using(hm_names::proofs::Rows::type_falls))]
fn add_types<'a>(out: &mut Vec<ModulePart<'a>>, row: &'a [TypeExpr]) -> Result<(), AllocError>
    ensures { OnOk result (map part_of out.new.items ≡ map part_of out.old.items ++ types_parts (types row.now)) }
{
    'row: for ty in row {
        add_type(out, ty)?;
    }
    Ok(())
}

/// Adds the parts of a constructor's declaration.
fn add_constructor<'a>(out: &mut Vec<ModulePart<'a>>, constr: &'a Constr) -> Result<(), AllocError>
    ensures { OnOk result (map part_of out.new.items ≡ map part_of out.old.items ++ constructor_parts constr.now) }
{
    add_types(out, &constr.args)?;
    Ok(())
}

/// Adds the parts of a row of constructors' declarations.
fn add_constructors<'a>(out: &mut Vec<ModulePart<'a>>, row: &'a [Constr]) -> Result<(), AllocError>
    ensures { OnOk result (map part_of out.new.items ≡ map part_of out.old.items ++ constructors_parts (constructors row.now)) }
{
    'row: for constr in row {
        add_constructor(out, constr)?;
    }
    Ok(())
}

/// Adds the parts of a pattern.
#[cycle(patterns)]
#[tactic(auto, using(hm_names::proofs::Rows::pattern_falls))]
fn add_pattern<'a>(out: &mut Vec<ModulePart<'a>>, pat: &'a Pat) -> Result<(), AllocError>
    ensures { OnOk result (map part_of out.new.items ≡ map part_of out.old.items ++ pattern_parts pat.now) }
{
    match &pat.kind {
        PatKind::Var(_) => Ok(()),
        PatKind::Bound(_, inner) => Ok(add_pattern(out, inner)?),
        PatKind::Con(name, args) => {
            add_part(out, ModulePart::Pattern(name, args))?;
            add_patterns(out, args)?;
            Ok(())
        }
        PatKind::Literal(_) => Ok(()),
        PatKind::Wild => Ok(()),
        PatKind::Tuple(parts) => Ok(add_patterns(out, parts)?),
        PatKind::List(elements) => Ok(add_patterns(out, elements)?),
        PatKind::Lazy(inner) => Ok(add_pattern(out, inner)?),
    }
}

/// Adds the parts of a row of patterns.
#[cycle(patterns)]
#[tactic(auto, using(hm_names::proofs::Rows::pattern_falls))]
fn add_patterns<'a>(out: &mut Vec<ModulePart<'a>>, row: &'a [Pat]) -> Result<(), AllocError>
    ensures { OnOk result (map part_of out.new.items ≡ map part_of out.old.items ++ patterns_parts (patterns row.now)) }
{
    'row: for pat in row {
        add_pattern(out, pat)?;
    }
    Ok(())
}

/// Adds the parts of the patterns of a clause or a lambda, and the patterns. What is added up to the next end is in their scope.
fn add_head<'a>(out: &mut Vec<ModulePart<'a>>, pats: &'a [Pat]) -> Result<(), AllocError>
    ensures { OnOk result (map part_of out.new.items ≡ map part_of out.old.items ++ head_parts (patterns pats.now)) }
{
    add_patterns(out, pats)?;
    add_part(out, ModulePart::Head(pats))?;
    Ok(())
}

/// Adds the parts of the pattern of an alternative or a pattern binding, and the pattern.
fn add_alone<'a>(out: &mut Vec<ModulePart<'a>>, pat: &'a Pat) -> Result<(), AllocError>
    ensures { OnOk result (map part_of out.new.items ≡ map part_of out.old.items ++ head_parts (more_patterns pat.now no_patterns)) }
{
    add_pattern(out, pat)?;
    add_part(out, ModulePart::Alone(pat))?;
    Ok(())
}

/// Adds the parts of an expression.
#[cycle(exprs)]
fn add_expr<'a>(out: &mut Vec<ModulePart<'a>>, expr: &'a Expr) -> Result<(), AllocError>
    ensures { OnOk result (map part_of out.new.items ≡ map part_of out.old.items ++ expression_parts expr.now) }
{
    match &expr.kind {
        ExprKind::Var(name) => Ok(add_part(out, ModulePart::Use(Role::Variable, name))?),
        ExprKind::Con(name) => Ok(add_part(out, ModulePart::Use(Role::Constructor, name))?),
        ExprKind::Literal(_) => Ok(()),
        ExprKind::Apply(function, argument) => {
            add_expr(out, function)?;
            add_expr(out, argument)?;
            Ok(())
        }
        ExprKind::Lambda(pats, body) => {
            add_head(out, pats)?;
            add_expr(out, body)?;
            add_part(out, ModulePart::End)?;
            Ok(())
        }
        ExprKind::Let(decls, body) => {
            add_list(out, decls)?;
            add_expr(out, body)?;
            add_part(out, ModulePart::End)?;
            Ok(())
        }
        ExprKind::If(condition, yes, no) => {
            add_expr(out, condition)?;
            add_expr(out, yes)?;
            add_expr(out, no)?;
            Ok(())
        }
        ExprKind::Case(scrutinee, alts) => {
            add_expr(out, scrutinee)?;
            add_alts(out, alts)?;
            Ok(())
        }
        ExprKind::Tuple(items) => Ok(add_exprs(out, items)?),
        ExprKind::List(items) => Ok(add_exprs(out, items)?),
        ExprKind::Typed(inner, ty) => {
            add_expr(out, inner)?;
            add_type(out, ty)?;
            Ok(())
        }
    }
}

/// Adds the parts of a row of expressions.
#[cycle(exprs)]
#[tactic(auto, using(hm_names::proofs::Rows::expression_falls))]
fn add_exprs<'a>(out: &mut Vec<ModulePart<'a>>, row: &'a [Expr]) -> Result<(), AllocError>
    ensures { OnOk result (map part_of out.new.items ≡ map part_of out.old.items ++ expressions_parts (expressions row.now)) }
{
    'row: for expr in row {
        add_expr(out, expr)?;
    }
    Ok(())
}

/// Adds the parts of a row of alternatives.
#[cycle(exprs)]
#[tactic(auto, using(hm_names::proofs::Rows::alternative_falls))]
fn add_alts<'a>(out: &mut Vec<ModulePart<'a>>, row: &'a [Alt]) -> Result<(), AllocError>
    ensures { OnOk result (map part_of out.new.items ≡ map part_of out.old.items ++ alternatives_parts (alternatives row.now)) }
{
    'row: for alt in row {
        add_alone(out, &alt.pat)?;
        add_rhs(out, &alt.rhs)?;
        add_part(out, ModulePart::End)?;
    }
    Ok(())
}

/// Adds the parts of a right side, those of its `where` first.
#[cycle(exprs)]
fn add_rhs<'a>(out: &mut Vec<ModulePart<'a>>, rhs: &'a Rhs) -> Result<(), AllocError>
    ensures { OnOk result (map part_of out.new.items ≡ map part_of out.old.items ++ right_side_parts rhs.now) }
{
    add_list(out, &rhs.local)?;
    add_bodies(out, &rhs.parts)?;
    add_part(out, ModulePart::End)?;
    Ok(())
}

/// Adds the parts of expressions with their guards.
#[cycle(exprs)]
#[tactic(auto, using(hm_names::proofs::Rows::part_falls))]
fn add_bodies<'a>(
    out: &mut Vec<ModulePart<'a>>,
    row: &'a [(Option<Expr>, Expr)],
) -> Result<(), AllocError>
    ensures { OnOk result (map part_of out.new.items ≡ map part_of out.old.items ++ bodies_of_parts row.now) }
{
    'row: for part in row {
        add_guard(out, &part.0)?;
        add_expr(out, &part.1)?;
    }
    Ok(())
}

/// Adds the parts of a guard, if there is one.
#[cycle(exprs)]
fn add_guard<'a>(out: &mut Vec<ModulePart<'a>>, guard: &'a Option<Expr>) -> Result<(), AllocError>
    ensures { OnOk result (map part_of out.new.items ≡ map part_of out.old.items ++ guard_parts guard.now) }
{
    match guard {
        Some(guard) => Ok(add_expr(out, guard)?),
        None => Ok(()),
    }
}

/// Adds a declaration list and its parts.
#[cycle(exprs)]
#[tactic(auto, using(hm_names::proofs::Rows::declaration_falls))]
fn add_list<'a>(out: &mut Vec<ModulePart<'a>>, decls: &'a [Decl]) -> Result<(), AllocError>
    ensures { OnOk result (map part_of out.new.items ≡ map part_of out.old.items ++ module_parts decls.now) }
{
    add_part(out, ModulePart::List(decls))?;
    'row: for decl in decls {
        add_decl(out, decl)?;
    }
    Ok(())
}

/// Adds the parts of a declaration.
#[cycle(exprs)]
fn add_decl<'a>(out: &mut Vec<ModulePart<'a>>, decl: &'a Decl) -> Result<(), AllocError>
    ensures { OnOk result (map part_of out.new.items ≡ map part_of out.old.items ++ declaration_parts decl.now) }
{
    match &decl.kind {
        DeclKind::DataType {
            params,
            constrs,
            ..
        } => {
            add_part(out, ModulePart::Parameters(params))?;
            add_constructors(out, constrs)?;
            Ok(())
        }
        DeclKind::Newtype { params, constr, .. } => {
            add_part(out, ModulePart::Parameters(params))?;
            add_constructor(out, constr)?;
            Ok(())
        }
        DeclKind::Synonym { params, ty, .. } => {
            add_part(out, ModulePart::Parameters(params))?;
            add_type(out, ty)?;
            Ok(())
        }
        DeclKind::Signature { ty, .. } => Ok(add_type(out, ty)?),
        DeclKind::Clause { pats, rhs, .. } => {
            add_head(out, pats)?;
            add_rhs(out, rhs)?;
            add_part(out, ModulePart::End)?;
            Ok(())
        }
        DeclKind::Pattern { pat, rhs, .. } => {
            add_alone(out, pat)?;
            add_part(out, ModulePart::End)?;
            add_rhs(out, rhs)?;
            Ok(())
        }
    }
}

/// Returns the parts of a module. A declaration list and patterns are before what is in their scope, and an end is after that; there is none for the module's own list.
pub(crate) fn parts_of(alloc: Global, program: &Module) -> Result<Vec<ModulePart<'_>>, AllocError>
    ensures { IfOk result (λ parts. map part_of parts.items ≡ module_parts program.now.decls) }
{
    let mut parts = Vec::new(alloc);
    add_list(&mut parts, program.decls.as_slice())?;
    Ok(parts)
}
