//! Expressions, and declarations with expressions.

ghost use Rattle.std.specs.Prelude.{◌≡◌, ◌↔◌, IsTrue};
ghost use Rattle.hm_syntax.specs.Lists.{patterns, expressions, declarations, alternatives, bodies};
ghost use Rattle.hm_syntax.specs.Trees.{clause, pattern_binding};

use crate::declarations::{is_data_type, is_newtype, is_signature, is_synonym};
use crate::names::{is_same_literal, is_same_name, is_same_place};
use crate::patterns::{are_same_patterns, is_same_pattern};
use crate::rows::Part;
use crate::types::is_same_type;
use hm_lex::Place;
use hm_syntax::{Alt, Decl, DeclKind, Expr, ExprKind, Name, Pat, Rhs};

/// Returns whether two expressions are the same.
#[cycle(exprs)]
pub(crate) fn is_same_expr(expr: &Expr, other: &Expr) -> bool
    ensures { IsTrue result ↔ (expr.now ≡ other.now) }
{
    match (&expr.kind, &other.kind) {
        (ExprKind::Var(name), ExprKind::Var(with)) => is_same_name(name, with),
        (ExprKind::Con(name), ExprKind::Con(with)) => is_same_name(name, with),
        (ExprKind::Literal(literal), ExprKind::Literal(with)) => is_same_literal(literal, with),
        (ExprKind::Apply(function, argument), ExprKind::Apply(with, given)) => {
            is_same_expr(function, with) && is_same_expr(argument, given)
        }
        (ExprKind::Lambda(pats, body), ExprKind::Lambda(others, with)) => {
            are_same_patterns(pats, others) && is_same_expr(body, with)
        }
        (ExprKind::Let(decls, body), ExprKind::Let(others, with)) => {
            are_same_decls(decls, others) && is_same_expr(body, with)
        }
        (ExprKind::If(condition, yes, no), ExprKind::If(with, then, otherwise)) => {
            is_same_expr(condition, with) && is_same_expr(yes, then) && is_same_expr(no, otherwise)
        }
        (ExprKind::Case(scrutinee, alts), ExprKind::Case(with, others)) => {
            is_same_expr(scrutinee, with) && are_same_alts(alts, others)
        }
        (ExprKind::Tuple(parts), ExprKind::Tuple(others)) => are_same_exprs(parts, others),
        (ExprKind::List(elements), ExprKind::List(others)) => are_same_exprs(elements, others),
        (ExprKind::Typed(inner, ty), ExprKind::Typed(with, told)) => {
            is_same_expr(inner, with) && is_same_type(ty, told)
        }
        _ => false,
    }
}

/// Returns whether two rows of expressions are the same.
#[cycle(exprs)]
#[tactic(auto, using(crate::proofs::Falls::expression_falls, crate::proofs::SameRows::expressions_same))]
fn are_same_exprs(lefts: &[Expr], rights: &[Expr]) -> bool
    ensures { IsTrue result ↔ (expressions lefts.now ≡ expressions rights.now) }
{
    if lefts.len() != rights.len() {
        return false;
    }
    'row: for i in 0..lefts.len() {
        if !is_same_expr(&lefts[i], &rights[i]) {
            return false;
        }
    }
    true
}

/// Returns whether two alternatives are the same.
#[cycle(exprs)]
fn is_same_alt(alt: &Alt, other: &Alt) -> bool
    ensures { IsTrue result ↔ (alt.now ≡ other.now) }
{
    is_same_pattern(&alt.pat, &other.pat) && is_same_rhs(&alt.rhs, &other.rhs)
}

/// Returns whether two rows of alternatives are the same.
#[cycle(exprs)]
#[tactic(auto, using(crate::proofs::Falls::alternative_falls, crate::proofs::SameRows::alternatives_same))]
fn are_same_alts(lefts: &[Alt], rights: &[Alt]) -> bool
    ensures { IsTrue result ↔ (alternatives lefts.now ≡ alternatives rights.now) }
{
    if lefts.len() != rights.len() {
        return false;
    }
    'row: for i in 0..lefts.len() {
        if !is_same_alt(&lefts[i], &rights[i]) {
            return false;
        }
    }
    true
}

/// Returns whether two right sides are the same.
#[cycle(exprs)]
fn is_same_rhs(rhs: &Rhs, other: &Rhs) -> bool
    ensures { IsTrue result ↔ (rhs.now ≡ other.now) }
{
    are_same_parts(&rhs.parts, &other.parts) && are_same_decls(&rhs.local, &other.local)
}

/// Returns whether two expressions and their guards, if they have one, are the same.
#[cycle(exprs)]
fn is_same_part(part: &(Option<Expr>, Expr), other: &(Option<Expr>, Expr)) -> bool
    ensures { IsTrue result ↔ (part.now ≡ other.now) }
{
    match (&part.0, &other.0) {
        (None, None) => is_same_expr(&part.1, &other.1),
        (Some(guard), Some(with)) => {
            is_same_expr(guard, with) && is_same_expr(&part.1, &other.1)
        }
        _ => false,
    }
}

/// Returns whether two rows of expressions with their guards are the same.
#[cycle(exprs)]
#[tactic(auto, using(crate::proofs::Falls::part_falls, crate::proofs::SameRows::bodies_same))]
fn are_same_parts(lefts: &[(Option<Expr>, Expr)], rights: &[(Option<Expr>, Expr)]) -> bool
    ensures { IsTrue result ↔ (bodies lefts.now ≡ bodies rights.now) }
{
    if lefts.len() != rights.len() {
        return false;
    }
    'row: for i in 0..lefts.len() {
        if !is_same_part(&lefts[i], &rights[i]) {
            return false;
        }
    }
    true
}

/// Returns whether two declarations are the same.
#[cycle(exprs)]
fn is_same_decl(decl: &Decl, other: &Decl) -> bool
    ensures { IsTrue result ↔ (decl.now ≡ other.now) }
{
    match &decl.kind {
        DeclKind::DataType {
            name,
            params,
            constrs,
        } => is_data_type(other, name, params, constrs),
        DeclKind::Newtype {
            name,
            params,
            constr,
        } => is_newtype(other, name, params, constr),
        DeclKind::Synonym { name, params, ty } => is_synonym(other, name, params, ty),
        DeclKind::Signature { names, ty } => is_signature(other, names, ty),
        DeclKind::Clause { name, pats, rhs } => is_clause(other, name, pats, rhs),
        DeclKind::Pattern { place, pat, rhs } => is_pattern_binding(other, place, pat, rhs),
    }
}

/// Returns whether a declaration is a clause with these parts.
#[cycle(exprs)]
fn is_clause(decl: &Decl, name: &Name, pats: &[Pat], rhs: &Rhs) -> bool
    ensures { IsTrue result ↔ (decl.now ≡ clause name.now (patterns pats.now) rhs.now) }
{
    match &decl.kind {
        DeclKind::Clause {
            name: with,
            pats: others,
            rhs: side,
        } => is_same_name(name, with) && are_same_patterns(pats, others) && is_same_rhs(rhs, side),
        _ => false,
    }
}

/// Returns whether a declaration is a pattern binding with these parts.
#[cycle(exprs)]
fn is_pattern_binding(decl: &Decl, place: &Place, pat: &Pat, rhs: &Rhs) -> bool
    ensures { IsTrue result ↔ (decl.now ≡ pattern_binding place.now.line place.now.column pat.now rhs.now) }
{
    match &decl.kind {
        DeclKind::Pattern {
            place: with,
            pat: bound,
            rhs: side,
        } => is_same_place(place, with) && is_same_pattern(pat, bound) && is_same_rhs(rhs, side),
        _ => false,
    }
}

/// Returns whether two rows of declarations are the same.
#[cycle(exprs)]
#[tactic(auto, using(crate::proofs::Falls::declaration_falls, crate::proofs::SameRows::declarations_same))]
fn are_same_decls(lefts: &[Decl], rights: &[Decl]) -> bool
    ensures { IsTrue result ↔ (declarations lefts.now ≡ declarations rights.now) }
{
    if lefts.len() != rights.len() {
        return false;
    }
    'row: for i in 0..lefts.len() {
        if !is_same_decl(&lefts[i], &rights[i]) {
            return false;
        }
    }
    true
}

impl Part for Decl {
    fn is_same(&self, other: &Decl) -> bool {
        is_same_decl(self, other)
    }
}
