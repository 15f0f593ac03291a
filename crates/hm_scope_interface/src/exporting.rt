//! Makes the interface of a core.

ghost use Rattle.std.specs.Prelude.{◌≡◌, map, IfOk, IsSome};
ghost use Rattle.std.specs.Arc.{arc_value};
ghost use Rattle.hm_types.specs.declared.Entity.{Entity};
ghost use Rattle.hm_types.specs.Interfaces.{IsInterface};
ghost use Rattle.hm_names.specs.Cores.{IsSomeCore, IsTop, IsInterfaceOf};
ghost use Rattle.hm_names.specs.SchemeTables.{scheme_of};

use hm_names::{Core, Schemes};
use hm_scope_interface_entries::{TypeEntries, constructor_entries, type_entries, value_entries};
use hm_types::Interface;
use std::alloc::{AllocError, Global};
use std::sync::Arc;

/// Borrows the interfaces of a core.
fn lent<'a>(
    alloc: Global,
    interfaces: &'a [Arc<Interface>],
) -> Result<Vec<&'a Interface>, AllocError>
    ensures { IfOk result (λ all. map (λ f. f.now) all.items ≡ map arc_value interfaces.now) }
{
    let mut lent: Vec<&'a Interface> = Vec::new(alloc);
    for interface in interfaces {
        lent.push(interface)?;
    }
    Ok(lent)
}

/// Returns the interface of a core, with a scheme for each of its variables.
pub fn export(alloc: Global, core: &Core, schemes: &Schemes) -> Result<Interface, AllocError>
    requires core { IsSomeCore core.now }
    requires schemes { (e : Entity) → IsTop core.now e → IsSome (scheme_of schemes.now e.name) }
    ensures interface { IfOk result (λ f. IsInterfaceOf core.now (scheme_of schemes.now) f) }
    ensures ordered { IfOk result IsInterface }
{
    let interfaces = lent(alloc, core.interfaces.as_slice())?;
    let TypeEntries { types, synonyms } = type_entries(alloc, core, &interfaces)?;
    let constructors = constructor_entries(alloc, core, &interfaces)?;
    let values = value_entries(alloc, core, schemes, &interfaces)?;
    let name = core.name.copy()?;
    Ok(Interface::new(name, types, synonyms, constructors, values))
}
