//! The types of constructors.

ghost use Rattle.std.specs.Prelude.{◌≡◌, ◌++◌, ◌∷◌, [], List, map, IfOk, OnOk, option_map, ℕ};
ghost use Rattle.hm_names.specs.Described.{ConstructorDescription, described, declared_constructors, first_of, imported_constructors};
ghost use Rattle.hm_scope_entities.specs.Owners.{IsOwners};

use hm_scope_tables::{EntityKey, EntityRef};
use hm_syntax::{Constr, Decl, DeclKind, Module, Name};
use hm_types::{ConstructorEntry, Interface, Text};
use indexmap::IndexMap;
use std::alloc::{AllocError, Global};

/// Records the type of a constructor, unless it has one.
fn note_owner<'a>(
    owners: &mut IndexMap<EntityKey<'a>, EntityRef<'a>>,
    constructor: &EntityRef<'a>,
    owner: EntityRef<'a>,
) -> Result<(), AllocError>
    ensures { OnOk result ((ds : List ConstructorDescription) (n : ℕ) → IsOwners ds owners.old
        → IsOwners (ds ++ record { entity = constructor.now; owner = owner.entry; arguments = n } ∷ []) owners.new) }
{
    let key = EntityKey {
        module: constructor.module(),
        name: constructor.name(),
    };
    if owners.contains_key(&key) {
        return Ok(());
    }
    owners.insert(key, owner)?;
    Ok(())
}

/// Records the type of a constructor in its declaration.
fn note_constructor<'a>(
    owners: &mut IndexMap<EntityKey<'a>, EntityRef<'a>>,
    module: &'a Text,
    name: &'a Name,
    constr: &'a Constr,
) -> Result<(), AllocError>
    ensures { OnOk result ((ds : List ConstructorDescription) → IsOwners ds owners.old
        → IsOwners (ds ++ described «module».now name.now constr.now ∷ []) owners.new) }
{
    let constructor = EntityRef::new(module, constr.name.as_text());
    note_owner(owners, &constructor, EntityRef::new(module, name.as_text()))?;
    Ok(())
}

/// Records the type of each constructor of a declaration.
fn note_constructors<'a>(
    owners: &mut IndexMap<EntityKey<'a>, EntityRef<'a>>,
    module: &'a Text,
    name: &'a Name,
    constrs: &'a [Constr],
) -> Result<(), AllocError>
    ensures { OnOk result ((ds : List ConstructorDescription) → IsOwners ds owners.old
        → IsOwners (ds ++ map (described «module».now name.now) constrs.now) owners.new) }
{
    for constr in constrs {
        note_constructor(owners, module, name, constr)?;
    }
    Ok(())
}

/// Records the types of the constructors that a declaration declares.
fn note_declaration<'a>(
    owners: &mut IndexMap<EntityKey<'a>, EntityRef<'a>>,
    module: &'a Text,
    decl: &'a Decl,
) -> Result<(), AllocError>
    ensures { OnOk result ((ds : List ConstructorDescription) → IsOwners ds owners.old
        → IsOwners (ds ++ declared_constructors «module».now (decl.now ∷ [])) owners.new) }
{
    match &decl.kind {
        DeclKind::DataType { name, constrs, .. } => {
            note_constructors(owners, module, name, constrs)?;
            Ok(())
        }
        DeclKind::Newtype { name, constr, .. } => {
            note_constructor(owners, module, name, constr)?;
            Ok(())
        }
        DeclKind::Synonym { .. } => Ok(()),
        DeclKind::Signature { .. } => Ok(()),
        DeclKind::Clause { .. } => Ok(()),
        DeclKind::Pattern { .. } => Ok(()),
    }
}

/// Records the types of the constructors that a module declares.
fn note_declared<'a>(
    owners: &mut IndexMap<EntityKey<'a>, EntityRef<'a>>,
    program: &'a Module,
) -> Result<(), AllocError>
    ensures { OnOk result ((ds : List ConstructorDescription) → IsOwners ds owners.old
        → IsOwners (ds ++ declared_constructors program.now.header.name.text program.now.decls) owners.new) }
{
    let module = program.header.name.as_text();
    for decl in program.decls.as_slice() {
        note_declaration(owners, module, decl)?;
    }
    Ok(())
}

/// Records the types of the constructors of an interface.
fn note_exported<'a>(
    owners: &mut IndexMap<EntityKey<'a>, EntityRef<'a>>,
    entries: &'a [ConstructorEntry],
) -> Result<(), AllocError>
    ensures { OnOk result ((ds : List ConstructorDescription) → IsOwners ds owners.old
        → IsOwners (ds ++ map (λ r. record { entity = r.entity; owner = r.owner; arguments = r.arguments }) entries.now) owners.new) }
{
    for entry in entries {
        let constructor = EntityRef::of(&entry.entity);
        note_owner(owners, &constructor, EntityRef::of(&entry.owner))?;
    }
    Ok(())
}

/// Returns the type of each constructor, by its first description: the module's own, then those of the interfaces in order.
pub fn owners_of<'a>(
    alloc: Global,
    program: &'a Module,
    interfaces: &[&'a Interface],
) -> Result<IndexMap<EntityKey<'a>, EntityRef<'a>>, AllocError>
    ensures { IfOk result (IsOwners (declared_constructors program.now.header.name.text program.now.decls
        ++ imported_constructors (map (λ i. i.now) interfaces.now))) }
{
    let mut owners = IndexMap::new(alloc);
    note_declared(&mut owners, program)?;
    for interface in interfaces {
        note_exported(&mut owners, interface.constructors())?;
    }
    Ok(owners)
}

/// Returns the type of a constructor.
pub fn owner_of<'o, 'a>(
    owners: &'o IndexMap<EntityKey<'a>, EntityRef<'a>>,
    constructor: &EntityRef<'a>,
) -> Option<&'o EntityRef<'a>>
    ensures { (ds : List ConstructorDescription) → IsOwners ds owners.now
        → option_map (λ e. e.now) result ≡ option_map (λ d. d.owner) (first_of (λ d. d.entity) constructor.now ds) }
{
    let key = EntityKey {
        module: constructor.module(),
        name: constructor.name(),
    };
    owners.get(&key)
}
