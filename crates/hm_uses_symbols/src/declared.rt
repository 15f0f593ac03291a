//! The names that declarations declare.
ghost use Rattle.std.specs.Prelude.{◌≡◌, ◌++◌, OnOk, map};
ghost use Rattle.hm_names.specs.Entities.{constructor_name};
ghost use Rattle.hm_names.specs.Variables.{pattern_variables};
ghost use Rattle.hm_uses_symbols.specs.Symbols.{declared_by, declared_by_all, symbol};
ghost use Rattle.hm_uses_symbols.specs.declared.symbol.SymbolKind.TheVariants.{Constructor, Variable};

use crate::patterns::add_variables;
use crate::symbol::{Symbol, SymbolKind};
use hm_names::LentNames;
use hm_syntax::{Constr, Decl, DeclKind, Name, Pat};
use std::alloc::{AllocError, Global};

/// Adds constructors.
fn add_constructors<'a>(found: &mut Vec<Symbol<'a>>, row: &'a [Constr]) -> Result<(), AllocError>
    ensures { OnOk result (found.new.items ≡ found.old.items ++ map (λ c. symbol Constructor (constructor_name c)) row.now) }
{
    'row: for constr in row {
        found.push(Symbol::new(SymbolKind::Constructor, &constr.name))?;
    }
    Ok(())
}

/// Adds variables.
fn add_names<'a>(found: &mut Vec<Symbol<'a>>, names: &[&'a Name]) -> Result<(), AllocError>
    ensures { OnOk result (found.new.items ≡ found.old.items ++ map (λ n. symbol Variable n.now) names.now) }
{
    'names: for name in names {
        found.push(Symbol::new(SymbolKind::Variable, *name))?;
    }
    Ok(())
}

/// Adds the variables of a pattern.
fn add_matched<'a>(
    alloc: Global,
    found: &mut Vec<Symbol<'a>>,
    pat: &'a Pat,
) -> Result<(), AllocError>
    ensures { OnOk result (found.new.items ≡ found.old.items ++ map (symbol Variable) (pattern_variables pat.now)) }
{
    let mut names = LentNames::new(alloc);
    add_variables(alloc, &mut names, pat)?;
    Ok(add_names(found, names.as_slice())?)
}

/// Adds the names that a declaration declares.
fn add_declared<'a>(
    alloc: Global,
    found: &mut Vec<Symbol<'a>>,
    decl: &'a Decl,
) -> Result<(), AllocError>
    ensures { OnOk result (found.new.items ≡ found.old.items ++ declared_by decl.now) }
{
    match &decl.kind {
        DeclKind::DataType { name, constrs, .. } => {
            found.push(Symbol::new(SymbolKind::DataType, name))?;
            add_constructors(found, constrs)?;
            Ok(())
        }
        DeclKind::Newtype { name, constr, .. } => {
            found.push(Symbol::new(SymbolKind::DataType, name))?;
            found.push(Symbol::new(SymbolKind::Constructor, &constr.name))?;
            Ok(())
        }
        DeclKind::Synonym { name, .. } => {
            found.push(Symbol::new(SymbolKind::Synonym, name))?;
            Ok(())
        }
        DeclKind::Signature { .. } => Ok(()),
        DeclKind::Clause { name, .. } => {
            found.push(Symbol::new(SymbolKind::Variable, name))?;
            Ok(())
        }
        DeclKind::Pattern { pat, .. } => Ok(add_matched(alloc, found, pat)?),
    }
}

/// Adds the names that declarations declare, in order. A name that several of them declare is added several times.
///
/// # Errors
///
/// If memory runs out.
pub(crate) fn add_all_declared<'a>(
    alloc: Global,
    found: &mut Vec<Symbol<'a>>,
    decls: &'a [Decl],
) -> Result<(), AllocError>
    ensures { OnOk result (found.new.items ≡ found.old.items ++ declared_by_all decls.now) }
{
    'row: for decl in decls {
        add_declared(alloc, found, decl)?;
    }
    Ok(())
}
