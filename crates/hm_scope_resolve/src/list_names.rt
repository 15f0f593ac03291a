//! The names that declaration lists declare, in order.

ghost use Rattle.std.specs.Prelude.{◌≡◌, ◌++◌, ◌∷◌, [], IfOk, OnOk, map};
ghost use Rattle.hm_syntax.specs.Lists.{declarations};
ghost use Rattle.hm_syntax.specs.Trees.{Declarations, more_declarations};
ghost use Rattle.hm_names.specs.Entities.{constructor_name};
ghost use Rattle.hm_names.specs.Faults.Lists.{type_names, constructor_names, signed_names};
ghost use Rattle.hm_names.specs.Variables.{clause_names};

use hm_names::LentNames;
use hm_syntax::{Constr, Decl, DeclKind, Name};
use std::alloc::{AllocError, Global};

/// Adds names.
pub fn add_names<'a>(out: &mut LentNames<'a>, names: &'a [Name]) -> Result<(), AllocError>
    ensures { OnOk result (out.new ≡ out.old ++ names.now) }
{
    'names: for name in names {
        out.push(name)?;
    }
    Ok(())
}

/// Adds the names of constructors.
fn add_constructors<'a>(out: &mut LentNames<'a>, constrs: &'a [Constr]) -> Result<(), AllocError>
    ensures { OnOk result (out.new ≡ out.old ++ map constructor_name constrs.now) }
{
    'constrs: for constr in constrs {
        out.push(&constr.name)?;
    }
    Ok(())
}

/// Adds the type that a declaration declares.
fn add_type<'a>(out: &mut LentNames<'a>, decl: &'a Decl) -> Result<(), AllocError>
    ensures { OnOk result ((ds : Declarations) → out.new ++ type_names ds ≡ out.old ++ type_names (more_declarations decl.now ds)) }
{
    match &decl.kind {
        DeclKind::DataType { name, .. } => Ok(out.push(name)?),
        DeclKind::Newtype { name, .. } => Ok(out.push(name)?),
        DeclKind::Synonym { name, .. } => Ok(out.push(name)?),
        DeclKind::Signature { .. } => Ok(()),
        DeclKind::Clause { .. } => Ok(()),
        DeclKind::Pattern { .. } => Ok(()),
    }
}

/// Returns the types that a list declares.
pub fn type_names<'a>(alloc: Global, decls: &'a [Decl]) -> Result<LentNames<'a>, AllocError>
    ensures { IfOk result (λ names. names ≡ type_names (declarations decls.now)) }
{
    let mut names = LentNames::new(alloc);
    'decls: for decl in decls {
        add_type(&mut names, decl)?;
    }
    Ok(names)
}

/// Adds the constructors that a declaration declares.
fn add_declared_constructors<'a>(out: &mut LentNames<'a>, decl: &'a Decl) -> Result<(), AllocError>
    ensures { OnOk result ((ds : Declarations) → out.new ++ constructor_names ds ≡ out.old ++ constructor_names (more_declarations decl.now ds)) }
{
    match &decl.kind {
        DeclKind::DataType { constrs, .. } => Ok(add_constructors(out, constrs)?),
        DeclKind::Newtype { constr, .. } => Ok(out.push(&constr.name)?),
        DeclKind::Synonym { .. } => Ok(()),
        DeclKind::Signature { .. } => Ok(()),
        DeclKind::Clause { .. } => Ok(()),
        DeclKind::Pattern { .. } => Ok(()),
    }
}

/// Returns the constructors that a list declares.
pub fn constructor_names<'a>(alloc: Global, decls: &'a [Decl]) -> Result<LentNames<'a>, AllocError>
    ensures { IfOk result (λ names. names ≡ constructor_names (declarations decls.now)) }
{
    let mut names = LentNames::new(alloc);
    'decls: for decl in decls {
        add_declared_constructors(&mut names, decl)?;
    }
    Ok(names)
}

/// Adds the variables in a signature.
fn add_signed<'a>(out: &mut LentNames<'a>, decl: &'a Decl) -> Result<(), AllocError>
    ensures { OnOk result ((ds : Declarations) → out.new ++ signed_names ds ≡ out.old ++ signed_names (more_declarations decl.now ds)) }
{
    match &decl.kind {
        DeclKind::DataType { .. } => Ok(()),
        DeclKind::Newtype { .. } => Ok(()),
        DeclKind::Synonym { .. } => Ok(()),
        DeclKind::Signature { names, .. } => Ok(add_names(out, names)?),
        DeclKind::Clause { .. } => Ok(()),
        DeclKind::Pattern { .. } => Ok(()),
    }
}

/// Returns the variables with a signature in a list.
pub fn signed_names<'a>(alloc: Global, decls: &'a [Decl]) -> Result<LentNames<'a>, AllocError>
    ensures { IfOk result (λ names. names ≡ signed_names (declarations decls.now)) }
{
    let mut names = LentNames::new(alloc);
    'decls: for decl in decls {
        add_signed(&mut names, decl)?;
    }
    Ok(names)
}

/// Adds the variable of a clause.
fn add_clause<'a>(out: &mut LentNames<'a>, decl: &'a Decl) -> Result<(), AllocError>
    ensures { OnOk result ((ds : Declarations) → out.new ++ clause_names ds ≡ out.old ++ clause_names (more_declarations decl.now ds)) }
{
    match &decl.kind {
        DeclKind::DataType { .. } => Ok(()),
        DeclKind::Newtype { .. } => Ok(()),
        DeclKind::Synonym { .. } => Ok(()),
        DeclKind::Signature { .. } => Ok(()),
        DeclKind::Clause { name, .. } => Ok(out.push(name)?),
        DeclKind::Pattern { .. } => Ok(()),
    }
}

/// Returns the variables that a list binds by clauses, once for each clause.
pub fn clause_names<'a>(alloc: Global, decls: &'a [Decl]) -> Result<LentNames<'a>, AllocError>
    ensures { IfOk result (λ names. names ≡ clause_names (declarations decls.now)) }
{
    let mut names = LentNames::new(alloc);
    'decls: for decl in decls {
        add_clause(&mut names, decl)?;
    }
    Ok(names)
}
