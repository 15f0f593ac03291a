//! Inner scopes of a walk, in which local variables hide nodes.

ghost use Rattle.std.specs.Prelude.{◌≡◌, OnOk, [], ◌∷◌, ◌<◌, length, All};
ghost use Rattle.hm_syntax.specs.Lists.{patterns, declarations};
ghost use Rattle.hm_names.specs.Syntax.{is_continued as goes_on};
ghost use Rattle.hm_names_keys.specs.Variables.{variable_of};
ghost use Rattle.hm_infer_dependencies.specs.References.{pattern_variables, patterns_variables, binding_variables, list_variables};
ghost use Rattle.hm_infer_dependencies.specs.Walks.{Hides, Shows};

use crate::numbers::Numbers;
use hm_syntax::{Decl, DeclKind, Name, Pat, PatKind};
use std::alloc::AllocError;

/// Hides a variable. Records its number if it was shown.
pub(crate) fn hide(
    numbers: &Numbers,
    name: &Name,
    shown: &mut [bool],
    noted: &mut Vec<usize>,
) -> Result<(), AllocError>
    requires { length shown.old ≡ length numbers.now }
    ensures { OnOk result (Hides numbers.now (variable_of name.now ∷ []) shown.old shown.new noted.old.items noted.new.items) }
{
    if let Some(number) = numbers.number(name) {
        if shown[number] {
            shown[number] = false;
            noted.push(number)?;
        }
    }
    Ok(())
}

/// Hides the variables of a pattern.
#[cycle(hidden)]
pub(crate) fn hide_pattern(
    numbers: &Numbers,
    pat: &Pat,
    shown: &mut [bool],
    noted: &mut Vec<usize>,
) -> Result<(), AllocError>
    requires { length shown.old ≡ length numbers.now }
    ensures { OnOk result (Hides numbers.now (pattern_variables pat.now) shown.old shown.new noted.old.items noted.new.items) }
{
    match &pat.kind {
        PatKind::Var(name) => hide(numbers, name, shown, noted)?,
        PatKind::Bound(name, pat) => {
            hide(numbers, name, shown, noted)?;
            hide_pattern(numbers, pat, shown, noted)?;
        }
        PatKind::Con(_, pats) => hide_patterns(numbers, pats, shown, noted)?,
        PatKind::Literal(_) => {}
        PatKind::Wild => {}
        PatKind::Tuple(pats) => hide_patterns(numbers, pats, shown, noted)?,
        PatKind::List(pats) => hide_patterns(numbers, pats, shown, noted)?,
        PatKind::Lazy(pat) => hide_pattern(numbers, pat, shown, noted)?,
    }
    Ok(())
}

/// Hides the variables of patterns.
#[cycle(hidden)]
pub(crate) fn hide_patterns(
    numbers: &Numbers,
    pats: &[Pat],
    shown: &mut [bool],
    noted: &mut Vec<usize>,
) -> Result<(), AllocError>
    requires { length shown.old ≡ length numbers.now }
    ensures { OnOk result (Hides numbers.now (patterns_variables (patterns pats.now)) shown.old shown.new noted.old.items noted.new.items) }
{
    for pat in pats {
        hide_pattern(numbers, pat, shown, noted)?;
    }
    Ok(())
}

/// Returns whether the first declaration after a clause continues its binding.
pub fn is_continued(name: &Name, pats: &[Pat], rest: &[Decl]) -> bool
    ensures { result ≡ goes_on name.now.text (patterns pats.now) (declarations rest.now) }
{
    match rest.first() {
        Some(decl) => match &decl.kind {
            DeclKind::Clause {
                name: other,
                pats: others,
                rhs: _,
            } => { name.as_str() == other.as_str() && (!pats.is_empty() && !others.is_empty()) }
            _ => false,
        },
        None => false,
    }
}

/// Hides the variables of the binding that a declaration ends.
fn hide_binding(
    numbers: &Numbers,
    decl: &Decl,
    rest: &[Decl],
    shown: &mut [bool],
    noted: &mut Vec<usize>,
) -> Result<(), AllocError>
    requires { length shown.old ≡ length numbers.now }
    ensures { OnOk result (Hides numbers.now (binding_variables decl.now (declarations rest.now)) shown.old shown.new noted.old.items noted.new.items) }
{
    match &decl.kind {
        DeclKind::Clause { name, pats, rhs: _ } => {
            if !is_continued(name, pats, rest) {
                hide(numbers, name, shown, noted)?;
            }
        }
        DeclKind::Pattern {
            place: _,
            pat,
            rhs: _,
        } => hide_pattern(numbers, pat, shown, noted)?,
        _ => {}
    }
    Ok(())
}

/// Hides the variables that a list binds.
pub(crate) fn hide_list(
    numbers: &Numbers,
    decls: &[Decl],
    shown: &mut [bool],
    noted: &mut Vec<usize>,
) -> Result<(), AllocError>
    requires { length shown.old ≡ length numbers.now }
    ensures { OnOk result (Hides numbers.now (list_variables (declarations decls.now)) shown.old shown.new noted.old.items noted.new.items) }
{
    for place in 0..decls.len() {
        hide_binding(numbers, &decls[place], &decls[place + 1..], shown, noted)?;
    }
    Ok(())
}

/// Shows the recorded numbers again.
pub(crate) fn show(noted: &[usize], shown: &mut [bool])
    requires { All (λ k. k < length shown.old) noted.now }
    ensures { Shows noted.now shown.old shown.new }
{
    for number in noted {
        shown[*number] = true;
    }
}
