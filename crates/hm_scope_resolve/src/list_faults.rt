//! The faults of a declaration list without those of its parts (Report, sections 4.2, 4.4.1 and 4.4.3).

ghost use Rattle.std.specs.Prelude.{◌≡◌, ◌++◌, OnOk, map};
ghost use Rattle.hm_syntax.specs.Lists.{declarations};
ghost use Rattle.hm_names.specs.Faults.Phases.{fault};
ghost use Rattle.hm_names.specs.Found.{list_faults, outside};
ghost use Rattle.hm_names.specs.Variables.{clause_names, texts};
ghost use Rattle.hm_names.specs.declared.faults.Kind.TheVariants.{NoBinding};

use crate::binding_lists::{binding_names, other_lengths};
use crate::list_names::{clause_names, constructor_names, signed_names, type_names};
use crate::repeats::{add_outside, add_repeated};
use hm_names::{Fault, Kind, LentNames, fault_at};
use hm_syntax::Decl;
use std::alloc::{AllocError, Global};

/// Adds a fault for each name.
fn add_faults(
    alloc: Global,
    faults: &mut Vec<Fault>,
    kind: Kind,
    names: &LentNames<'_>,
) -> Result<(), AllocError>
    ensures { OnOk result (faults.new.items ≡ faults.old.items ++ map (fault kind) names.now) }
{
    let row = names.as_slice();
    'row: for name in row {
        faults.push(fault_at(alloc, kind, name)?)?;
    }
    Ok(())
}

/// Adds a fault for each signature whose name no clause binds.
fn add_unbound(
    alloc: Global,
    faults: &mut Vec<Fault>,
    decls: &[Decl],
    signed: &LentNames<'_>,
) -> Result<(), AllocError>
    ensures { OnOk result (faults.new.items ≡ faults.old.items ++ map (fault NoBinding) (outside (texts (clause_names (declarations decls.now))) signed.now)) }
{
    if signed.as_slice().is_empty() {
        return Ok(());
    }
    let bound = clause_names(alloc, decls)?;
    add_outside(alloc, faults, Kind::NoBinding, &bound, signed)?;
    Ok(())
}

/// Adds the faults of a list: duplicates, signatures without a binding, and clauses of another length than the first of their binding.
pub fn add_list_faults(
    alloc: Global,
    faults: &mut Vec<Fault>,
    decls: &[Decl],
) -> Result<(), AllocError>
    ensures { OnOk result (faults.new.items ≡ faults.old.items ++ list_faults (declarations decls.now)) }
{
    if decls.is_empty() {
        return Ok(());
    }
    add_repeated(alloc, faults, Kind::Duplicate, &type_names(alloc, decls)?)?;
    add_repeated(
        alloc,
        faults,
        Kind::Duplicate,
        &constructor_names(alloc, decls)?,
    )?;
    add_repeated(
        alloc,
        faults,
        Kind::Duplicate,
        &binding_names(alloc, decls)?,
    )?;
    let signed = signed_names(alloc, decls)?;
    add_repeated(alloc, faults, Kind::Duplicate, &signed)?;
    add_unbound(alloc, faults, decls, &signed)?;
    add_faults(
        alloc,
        faults,
        Kind::ClauseLength,
        &other_lengths(alloc, decls)?,
    )?;
    Ok(())
}
