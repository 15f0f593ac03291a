//! The type constructors of a type.

use hm_types::{Entity, Head, Ty};
use std::alloc::AllocError;

/// The most type constructors of a type that get a bare name.
const MOST_NAMES: usize = 64;

/// Adds a type constructor that isn't there yet. Those of Prelude are bare already.
fn add_entity<'t>(found: &mut Vec<&'t Entity>, entity: &'t Entity) -> Result<(), AllocError> {
    if entity.module.as_str() == "Prelude" || found.len() >= MOST_NAMES {
        return Ok(());
    }
    if found.iter().any(|other| other.is_same(entity)) {
        return Ok(());
    }
    Ok(found.push(entity)?)
}

/// Adds the type constructors with names of modules that a type has.
#[cycle(entities)]
pub(crate) fn add_entities<'t>(found: &mut Vec<&'t Entity>, ty: &'t Ty) -> Result<(), AllocError> {
    match ty {
        Ty::Var(_) | Ty::Rigid(_) => Ok(()),
        Ty::App(head, arguments) => {
            if let Head::Named(entity) = head {
                add_entity(found, entity)?;
            }
            add_all(found, arguments.as_slice())
        }
    }
}

/// Adds the type constructors with names of modules that these types have.
#[cycle(entities)]
fn add_all<'t>(found: &mut Vec<&'t Entity>, types: &'t [Ty]) -> Result<(), AllocError> {
    for index in 0..types.len() {
        add_entities(found, &types[index])?;
    }
    Ok(())
}
