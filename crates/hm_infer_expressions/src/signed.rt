//! Variables with signatures in binding lists (Haskell 98 Report, section 4.4.1).

ghost use Rattle.std.specs.Prelude.{◌≡◌, ℕ, List, IfOk, OnOk, Some, cond, option_map};
ghost use Rattle.hm_syntax.specs.Lists.{declarations};
ghost use Rattle.hm_syntax.specs.Trees.{Declarations, more_declarations};
ghost use Rattle.hm_names.specs.Syntax.{Known, is_signed_among};
ghost use Rattle.hm_names.specs.Types.{declared_type};
ghost use Rattle.hm_infer_context.specs.Environments.{Extends, AreAssumed};
ghost use Rattle.hm_infer_expressions.specs.SignedLists.{AreSignatures, BindsDeclaration, BindsSigned, declared_in};
ghost use Rattle.hm_infer_expressions.specs.Stages.{list_of};

use hm_infer_context::Environment;
use hm_infer_dependencies::is_continued;
use hm_infer_generalisation::declare;
use hm_names_keys::key_of;
use hm_syntax::{Decl, DeclKind, Name, TypeExpr};
use indexmap::IndexMap;
use std::alloc::{AllocError, Global};

/// Sets the declared type of variables, and replaces an earlier one.
fn add_names<'a>(
    signatures: &mut IndexMap<&'a str, &'a TypeExpr>,
    names: &'a [Name],
    ty: &'a TypeExpr,
) -> Result<(), AllocError>
    ensures { OnOk result ((x : List ℕ) → declared_in signatures.new x
        ≡ cond (is_signed_among x names.now) (Some (declared_type ty.now)) (declared_in signatures.old x)) }
{
    'names: for place in 0..names.len() {
        signatures.insert(names[place].as_str(), ty)?;
    }
    Ok(())
}

/// Adds the types of a declaration that is a signature. The table has those of the declarations after it.
fn add_signature<'a>(
    signatures: &mut IndexMap<&'a str, &'a TypeExpr>,
    decl: &'a Decl,
) -> Result<(), AllocError>
    ensures { OnOk result ((ds : Declarations) → AreSignatures ds signatures.old → AreSignatures (more_declarations decl.now ds) signatures.new) }
{
    match &decl.kind {
        DeclKind::Signature { names, ty } => Ok(add_names(signatures, names, ty)?),
        _ => Ok(()),
    }
}

/// Returns the declared types of the variables of a list, by their texts. If a variable has two
/// signatures, the first counts.
pub fn signatures_of<'a>(
    alloc: Global,
    decls: &'a [Decl],
) -> Result<IndexMap<&'a str, &'a TypeExpr>, AllocError>
    ensures { IfOk result (AreSignatures (declarations decls.now)) }
{
    let mut signatures = IndexMap::new(alloc);
    'decls: for behind in 0..decls.len() {
        let place = decls.len() - 1 - behind;
        add_signature(&mut signatures, &decls[place])?;
    }
    Ok(signatures)
}

/// Returns the declared type of a variable, if it has a signature.
pub(crate) fn declared_for<'a>(
    signatures: &IndexMap<&str, &'a TypeExpr>,
    name: &Name,
) -> Option<&'a TypeExpr>
    ensures { option_map (λ t. declared_type t.now) result ≡ declared_in signatures.now name.now.text }
{
    match signatures.get(name.as_str()) {
        Some(ty) => Some(*ty),
        None => None,
    }
}

/// Binds the variable of a declaration to its declared scheme, if the declaration ends a binding
/// with a signature.
fn bind_declared<'a>(
    alloc: Global,
    environment: &mut Environment<'a>,
    signatures: &IndexMap<&str, &TypeExpr>,
    decl: &'a Decl,
    rest: &[Decl],
) -> Result<(), AllocError>
    ensures bound { OnOk result ((k : Known) (all : Declarations) → AreSignatures all signatures.now
        → BindsDeclaration k all decl.now (declarations rest.now) environment.old environment.new) }
    ensures given { OnOk result ((g : ℕ) → AreAssumed g environment.old → AreAssumed g environment.new) }
    ensures kept { Extends environment.old environment.new }
{
    let DeclKind::Clause { name, pats, rhs: _ } = &decl.kind else {
        return Ok(());
    };
    if is_continued(name, pats, rest) {
        return Ok(());
    }
    let Some(ty) = declared_for(signatures, name) else {
        return Ok(());
    };
    let declared = declare(alloc, ty)?;
    environment.bind(key_of(name), declared.count, declared.body)?;
    Ok(())
}

/// Binds the variables of a list with signatures to their declared schemes.
pub fn bind_signed<'a>(
    alloc: Global,
    environment: &mut Environment<'a>,
    signatures: &IndexMap<&str, &TypeExpr>,
    decls: &'a [Decl],
) -> Result<(), AllocError>
    requires { AreSignatures (declarations decls.now) signatures.now }
    ensures bound { OnOk result ((k : Known) → BindsSigned (list_of k decls.now) environment.old environment.new) }
    ensures given { OnOk result ((g : ℕ) → AreAssumed g environment.old → AreAssumed g environment.new) }
    ensures kept { Extends environment.old environment.new }
{
    'decls: for behind in 0..decls.len() {
        let place = decls.len() - 1 - behind;
        bind_declared(
            alloc,
            environment,
            signatures,
            &decls[place],
            &decls[place + 1..],
        )?;
    }
    Ok(())
}
