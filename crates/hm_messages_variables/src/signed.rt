//! The type variables in the signatures of a variable.
ghost use Rattle.std.specs.Prelude.{◌≡◌, ◌++◌, [], IfOk, OnOk, cond};
ghost use Rattle.hm_syntax.specs.Lists.{declarations};
ghost use Rattle.hm_syntax.specs.Trees.{Declarations, more_declarations};
ghost use Rattle.hm_names.specs.Texts.{is_text_among};
ghost use Rattle.hm_names.specs.Variables.{texts, type_variables};
ghost use Rattle.hm_messages_variables.specs.LikeTypes.{signed_variables};

use hm_names::{LentNames, add_type};
use hm_syntax::{Decl, DeclKind, Name, TypeExpr};
use std::alloc::{AllocError, Global};

/// Returns whether one of these names has this text.
fn is_among(names: &[Name], text: &str) -> bool
    ensures { result ≡ is_text_among text.now (texts names.now) }
{
    'names: for name in names {
        if name.as_str() == text {
            return true;
        }
    }
    false
}

/// Adds the type variables of a signature for these names, if the variable is one of them.
fn add_signature<'a>(
    out: &mut LentNames<'a>,
    names: &[Name],
    ty: &'a TypeExpr,
    variable: &str,
) -> Result<(), AllocError>
    ensures { OnOk result (out.new ≡ out.old ++ cond (is_text_among variable.now (texts names.now)) (type_variables ty.now) []) }
{
    if !is_among(names, variable) {
        return Ok(());
    }
    add_type(out, ty)?;
    Ok(())
}

/// Adds the type variables of a declaration, if it is a signature of the variable.
fn add_signed<'a>(out: &mut LentNames<'a>, decl: &'a Decl, variable: &str) -> Result<(), AllocError>
    ensures { OnOk result ((ds : Declarations) → out.new ++ signed_variables variable.now ds ≡ out.old ++ signed_variables variable.now (more_declarations decl.now ds)) }
{
    match &decl.kind {
        DeclKind::DataType { .. } => Ok(()),
        DeclKind::Newtype { .. } => Ok(()),
        DeclKind::Synonym { .. } => Ok(()),
        DeclKind::Signature { names, ty } => Ok(add_signature(out, names, ty, variable)?),
        DeclKind::Clause { .. } => Ok(()),
        DeclKind::Pattern { .. } => Ok(()),
    }
}

/// Returns the type variables in the signatures of a variable in a list, in order.
pub(crate) fn signed_variables<'a>(
    alloc: Global,
    decls: &'a [Decl],
    variable: &str,
) -> Result<LentNames<'a>, AllocError>
    ensures { IfOk result (λ names. names ≡ signed_variables variable.now (declarations decls.now)) }
{
    let mut names = LentNames::new(alloc);
    'decls: for decl in decls {
        add_signed(&mut names, decl, variable)?;
    }
    Ok(names)
}
