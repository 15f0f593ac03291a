//! Finds the nodes to which a right side refers, in one walk over the tree. Variables of an inner scope hide nodes.

ghost use Rattle.std.specs.Prelude.{◌≡◌, ◌↔◌, ℕ, Contains, IfOk, OnOk, length};
ghost use Rattle.hm_syntax.specs.Lists.{expressions, declarations, alternatives, body, bodies};
ghost use Rattle.hm_syntax.specs.Trees.{no_bodies};
ghost use Rattle.hm_names_keys.specs.Variables.{variable_of};
ghost use Rattle.hm_infer_dependencies.specs.References.{Refers, ExpressionsRefer, DeclarationRefers, DeclarationsRefer, RightSideRefers, BodiesRefer, AlternativeRefers, AlternativesRefer};
ghost use Rattle.hm_infer_dependencies.specs.Nodes.{AllShown};
ghost use Rattle.hm_infer_dependencies.specs.Walks.{IsNodeWith, Walks};

use crate::hiding::{hide_list, hide_pattern, hide_patterns, show};
use crate::numbers::Numbers;
use hm_syntax::{Alt, Decl, DeclKind, Expr, ExprKind, Name, Rhs};
use std::alloc::{AllocError, Global};

/// Finds the nodes to which an expression refers.
#[cycle(walk)]
fn find_in_expr(
    alloc: Global,
    numbers: &Numbers,
    shown: &mut [bool],
    found: &mut Vec<usize>,
    expr: &Expr,
) -> Result<(), AllocError>
    requires { length shown.old ≡ length numbers.now }
    ensures { OnOk result (Walks numbers.now (λ y. Refers y expr.now) shown.old shown.new found.old.items found.new.items) }
{
    match &expr.kind {
        ExprKind::Var(name) => find_name(numbers, shown, found, name)?,
        ExprKind::Con(_) => {}
        ExprKind::Literal(_) => {}
        ExprKind::Apply(function, argument) => {
            find_in_expr(alloc, numbers, shown, found, function)?;
            find_in_expr(alloc, numbers, shown, found, argument)?;
        }
        ExprKind::Lambda(pats, body) => {
            let mut noted = Vec::new(alloc);
            hide_patterns(numbers, pats, shown, &mut noted)?;
            find_in_expr(alloc, numbers, shown, found, body)?;
            show(&noted, shown);
        }
        ExprKind::Let(decls, body) => {
            let mut noted = Vec::new(alloc);
            hide_list(numbers, decls, shown, &mut noted)?;
            find_in_decls(alloc, numbers, shown, found, decls)?;
            find_in_expr(alloc, numbers, shown, found, body)?;
            show(&noted, shown);
        }
        ExprKind::If(condition, yes, no) => {
            find_in_expr(alloc, numbers, shown, found, condition)?;
            find_in_expr(alloc, numbers, shown, found, yes)?;
            find_in_expr(alloc, numbers, shown, found, no)?;
        }
        ExprKind::Case(scrutinee, alts) => {
            find_in_expr(alloc, numbers, shown, found, scrutinee)?;
            find_in_alts(alloc, numbers, shown, found, alts)?;
        }
        ExprKind::Tuple(items) => find_in_exprs(alloc, numbers, shown, found, items)?,
        ExprKind::List(items) => find_in_exprs(alloc, numbers, shown, found, items)?,
        ExprKind::Typed(expr, _) => find_in_expr(alloc, numbers, shown, found, expr)?,
    }
    Ok(())
}

/// Finds the node of a variable.
fn find_name(
    numbers: &Numbers,
    shown: &[bool],
    found: &mut Vec<usize>,
    name: &Name,
) -> Result<(), AllocError>
    requires { length shown.now ≡ length numbers.now }
    ensures { OnOk result (Walks numbers.now (λ y. y ≡ variable_of name.now) shown.now shown.now found.old.items found.new.items) }
{
    if let Some(number) = numbers.number(name) {
        if shown[number] {
            found.push(number)?;
        }
    }
    Ok(())
}

/// Finds the nodes to which expressions refer.
#[cycle(walk)]
fn find_in_exprs(
    alloc: Global,
    numbers: &Numbers,
    shown: &mut [bool],
    found: &mut Vec<usize>,
    exprs: &[Expr],
) -> Result<(), AllocError>
    requires { length shown.old ≡ length numbers.now }
    ensures { OnOk result (Walks numbers.now (λ y. ExpressionsRefer y (expressions exprs.now)) shown.old shown.new found.old.items found.new.items) }
{
    for expr in exprs {
        find_in_expr(alloc, numbers, shown, found, expr)?;
    }
    Ok(())
}

/// Finds the nodes to which alternatives refer.
#[cycle(walk)]
fn find_in_alts(
    alloc: Global,
    numbers: &Numbers,
    shown: &mut [bool],
    found: &mut Vec<usize>,
    alts: &[Alt],
) -> Result<(), AllocError>
    requires { length shown.old ≡ length numbers.now }
    ensures { OnOk result (Walks numbers.now (λ y. AlternativesRefer y (alternatives alts.now)) shown.old shown.new found.old.items found.new.items) }
{
    for alt in alts {
        find_in_alt(alloc, numbers, shown, found, alt)?;
    }
    Ok(())
}

/// Finds the nodes to which an alternative refers.
#[cycle(walk)]
fn find_in_alt(
    alloc: Global,
    numbers: &Numbers,
    shown: &mut [bool],
    found: &mut Vec<usize>,
    alt: &Alt,
) -> Result<(), AllocError>
    requires { length shown.old ≡ length numbers.now }
    ensures { OnOk result (Walks numbers.now (λ y. AlternativeRefers y alt.now) shown.old shown.new found.old.items found.new.items) }
{
    let mut noted = Vec::new(alloc);
    hide_pattern(numbers, &alt.pat, shown, &mut noted)?;
    find_in_rhs(alloc, numbers, shown, found, &alt.rhs)?;
    show(&noted, shown);
    Ok(())
}

/// Finds the nodes to which the right sides of a clause or an alternative refer, and the declarations of its `where`.
#[cycle(walk)]
fn find_in_rhs(
    alloc: Global,
    numbers: &Numbers,
    shown: &mut [bool],
    found: &mut Vec<usize>,
    rhs: &Rhs,
) -> Result<(), AllocError>
    requires { length shown.old ≡ length numbers.now }
    ensures { OnOk result (Walks numbers.now (λ y. RightSideRefers y rhs.now) shown.old shown.new found.old.items found.new.items) }
{
    let mut noted = Vec::new(alloc);
    hide_list(numbers, &rhs.local, shown, &mut noted)?;
    find_in_parts(alloc, numbers, shown, found, &rhs.parts)?;
    find_in_decls(alloc, numbers, shown, found, &rhs.local)?;
    show(&noted, shown);
    Ok(())
}

/// Finds the nodes to which guards and right sides refer.
#[cycle(walk)]
fn find_in_parts(
    alloc: Global,
    numbers: &Numbers,
    shown: &mut [bool],
    found: &mut Vec<usize>,
    parts: &[(Option<Expr>, Expr)],
) -> Result<(), AllocError>
    requires { length shown.old ≡ length numbers.now }
    ensures { OnOk result (Walks numbers.now (λ y. BodiesRefer y (bodies parts.now)) shown.old shown.new found.old.items found.new.items) }
{
    for part in parts {
        find_in_part(alloc, numbers, shown, found, part)?;
    }
    Ok(())
}

/// Finds the nodes to which a right side and its guard, if it has one, refer.
#[cycle(walk)]
fn find_in_part(
    alloc: Global,
    numbers: &Numbers,
    shown: &mut [bool],
    found: &mut Vec<usize>,
    part: &(Option<Expr>, Expr),
) -> Result<(), AllocError>
    requires { length shown.old ≡ length numbers.now }
    ensures { OnOk result (Walks numbers.now (λ y. BodiesRefer y (body part.now.0 part.now.1 no_bodies)) shown.old shown.new found.old.items found.new.items) }
{
    match &part.0 {
        Some(guard) => {
            find_in_expr(alloc, numbers, shown, found, guard)?;
            find_in_expr(alloc, numbers, shown, found, &part.1)?;
            Ok(())
        }
        None => {
            find_in_expr(alloc, numbers, shown, found, &part.1)?;
            Ok(())
        }
    }
}

/// Finds the nodes to which a list's right sides refer.
#[cycle(walk)]
fn find_in_decls(
    alloc: Global,
    numbers: &Numbers,
    shown: &mut [bool],
    found: &mut Vec<usize>,
    decls: &[Decl],
) -> Result<(), AllocError>
    requires { length shown.old ≡ length numbers.now }
    ensures { OnOk result (Walks numbers.now (λ y. DeclarationsRefer y (declarations decls.now)) shown.old shown.new found.old.items found.new.items) }
{
    for decl in decls {
        find_in_decl(alloc, numbers, shown, found, decl)?;
    }
    Ok(())
}

/// Finds the nodes to which a declaration's right side refers.
#[cycle(walk)]
pub(crate) fn find_in_decl(
    alloc: Global,
    numbers: &Numbers,
    shown: &mut [bool],
    found: &mut Vec<usize>,
    decl: &Decl,
) -> Result<(), AllocError>
    requires { length shown.old ≡ length numbers.now }
    ensures { OnOk result (Walks numbers.now (λ y. DeclarationRefers y decl.now) shown.old shown.new found.old.items found.new.items) }
{
    match &decl.kind {
        DeclKind::Clause { name: _, pats, rhs } => {
            let mut noted = Vec::new(alloc);
            hide_patterns(numbers, pats, shown, &mut noted)?;
            find_in_rhs(alloc, numbers, shown, found, rhs)?;
            show(&noted, shown);
        }
        DeclKind::Pattern {
            place: _,
            pat: _,
            rhs,
        } => find_in_rhs(alloc, numbers, shown, found, rhs)?,
        _ => {}
    }
    Ok(())
}

/// Returns the nodes to which a declaration refers. All nodes are shown before and after.
pub fn referred_nodes(
    alloc: Global,
    numbers: &Numbers,
    shown: &mut [bool],
    decl: &Decl,
) -> Result<Vec<usize>, AllocError>
    requires { AllShown shown.old (length numbers.now) }
    ensures shown { OnOk result (shown.new ≡ shown.old) }
    ensures found { IfOk result (λ found. (k : ℕ) → Contains found.items k ↔ IsNodeWith numbers.now (λ y. DeclarationRefers y decl.now) k) }
{
    let mut found = Vec::new(alloc);
    find_in_decl(alloc, numbers, shown, &mut found, decl)?;
    Ok(found)
}
