//! The bindings of declaration lists, in order.

ghost use Rattle.std.specs.Prelude.{◌≡◌, ◌++◌, IfOk, None};
ghost use Rattle.hm_syntax.specs.Lists.{declarations};
ghost use Rattle.hm_syntax.specs.Trees.{Declarations, more_declarations};
ghost use Rattle.hm_names.specs.Faults.Lists.{binding_names, other_lengths};
ghost use Rattle.std.specs.Prelude.{OnOk, []};
ghost use Rattle.hm_names.specs.Faults.Lists.{firsts};
ghost use Rattle.hm_names.specs.Variables.{pattern_variables};

use crate::open_bindings::OpenBinding;
use crate::repeats::add_firsts;
use hm_names::{LentNames, add_pattern};
use hm_syntax::{Decl, DeclKind, Pat};
use std::alloc::{AllocError, Global};

/// Adds the variables of a pattern binding, each once.
fn add_pattern_binding<'a>(
    alloc: Global,
    out: &mut LentNames<'a>,
    pat: &'a Pat,
) -> Result<(), AllocError>
    ensures { OnOk result (out.new ≡ out.old ++ firsts [] (pattern_variables pat.now)) }
{
    let mut names = LentNames::new(alloc);
    add_pattern(&mut names, pat)?;
    add_firsts(alloc, out, &names)?;
    Ok(())
}

/// Adds the variables of the binding that a declaration begins, and returns the binding that the next clause may continue.
fn add_binding<'a>(
    alloc: Global,
    out: &mut LentNames<'a>,
    begun: OpenBinding<'a>,
    decl: &'a Decl,
) -> Result<OpenBinding<'a>, AllocError>
    ensures { IfOk result (λ next. (ds : Declarations) → out.new ++ binding_names next ds ≡ out.old
        ++ binding_names begun.entry (more_declarations decl.now ds)) }
{
    match &decl.kind {
        DeclKind::DataType { .. } => Ok(OpenBinding::none()),
        DeclKind::Newtype { .. } => Ok(OpenBinding::none()),
        DeclKind::Synonym { .. } => Ok(OpenBinding::none()),
        DeclKind::Signature { .. } => Ok(OpenBinding::none()),
        DeclKind::Clause { name, pats, .. } => {
            if begun.goes_on(name, pats) {
                return Ok(begun);
            }
            out.push(name)?;
            Ok(OpenBinding::opened(name, pats))
        }
        DeclKind::Pattern { pat, .. } => {
            add_pattern_binding(alloc, out, pat)?;
            Ok(OpenBinding::none())
        }
    }
}

/// Returns the variables of the bindings of a list.
pub fn binding_names<'a>(alloc: Global, decls: &'a [Decl]) -> Result<LentNames<'a>, AllocError>
    ensures { IfOk result (λ names. names ≡ binding_names None (declarations decls.now)) }
{
    let mut names = LentNames::new(alloc);
    let mut begun = OpenBinding::none();
    'decls: for decl in decls {
        begun = add_binding(alloc, &mut names, begun, decl)?;
    }
    Ok(names)
}

/// Adds the variable of a clause of the wrong length, and returns the binding that the next clause may continue.
fn add_other_length<'a>(
    out: &mut LentNames<'a>,
    begun: OpenBinding<'a>,
    decl: &'a Decl,
) -> Result<OpenBinding<'a>, AllocError>
    ensures { IfOk result (λ next. (ds : Declarations) → out.new ++ other_lengths next ds ≡ out.old
        ++ other_lengths begun.entry (more_declarations decl.now ds)) }
{
    match &decl.kind {
        DeclKind::DataType { .. } => Ok(OpenBinding::none()),
        DeclKind::Newtype { .. } => Ok(OpenBinding::none()),
        DeclKind::Synonym { .. } => Ok(OpenBinding::none()),
        DeclKind::Signature { .. } => Ok(OpenBinding::none()),
        DeclKind::Clause { name, pats, .. } => {
            if !begun.goes_on(name, pats) {
                return Ok(OpenBinding::opened(name, pats));
            }
            if begun.has_other_length(pats) {
                out.push(name)?;
            }
            Ok(begun)
        }
        DeclKind::Pattern { .. } => Ok(OpenBinding::none()),
    }
}

/// Returns the clauses that continue a binding with another number of patterns than its first clause.
pub(crate) fn other_lengths<'a>(
    alloc: Global,
    decls: &'a [Decl],
) -> Result<LentNames<'a>, AllocError>
    ensures { IfOk result (λ names. names ≡ other_lengths None (declarations decls.now)) }
{
    let mut names = LentNames::new(alloc);
    let mut begun = OpenBinding::none();
    'decls: for decl in decls {
        begun = add_other_length(&mut names, begun, decl)?;
    }
    Ok(names)
}
