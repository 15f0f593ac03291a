//! Bindings grouped by the items of an export list that select them.

ghost use Rattle.std.specs.Prelude.{◌≡◌, ◌↔◌, ◌⊎◌, ◌++◌, ◌∷◌, [], List, map, cond, option_map, None, IfOk, OnOk, IsTrue, Contains};
ghost use Rattle.hm_scope_export_items.specs.BarePairs.{bare_of};
ghost use Rattle.hm_names.specs.Bindings.{Pair, Adds, IsScopeOf};
ghost use Rattle.hm_syntax.specs.declared.ast.Module.{Module};
ghost use Rattle.hm_types.specs.Interfaces.{Exports as Interface};
ghost use Rattle.hm_names.specs.Described.{ConstructorDescription, declared_constructors, imported_constructors};
ghost use Rattle.hm_scope_export_items.specs.ExportGroups.{group_of, same_selector, IsOfWhole, IsOfOwner, AreGroupsOf};
ghost use Rattle.hm_scope_entities.specs.Owners.{IsOwners};
ghost use Rattle.hm_scope_export_items.specs.declared.export_groups.Selector.{Selector};

use crate::bare_pairs::{BarePairs, bare_pairs};
use hm_names::Namespace;
use hm_scope_entities::{owner_of, owners_of};
use hm_scope_tables::{Binding, EntityKey, EntityRef};
use hm_syntax::Module;
use hm_types::Interface;
use indexmap::IndexMap;
use std::alloc::{AllocError, Global};

/// The selection of an item, or of a part of one: the bindings under a qualifier, the constructors of a type, or those with
/// one name.
#[derive(Clone, Copy, Hash, PartialEq, Eq)]
pub struct Selector<'a> {
    module: &'a str,
    owner: Option<&'a str>,
    part: Option<&'a str>,
}

impl<'a> Selector<'a> {
    /// Selects the bindings that are in scope both bare and under this qualifier.
    pub fn whole(qualifier: &'a str) -> Selector<'a>
        ensures { result ≡ record { «module» = qualifier.entry; owner = None; part = None } }
    {
        Selector {
            module: qualifier,
            owner: None,
            part: None,
        }
    }

    /// Selects the constructors of a type that are in scope.
    pub fn constructors(owner: &EntityRef<'a>) -> Selector<'a>
        ensures module { result.«module».now ≡ owner.now.«module» }
        ensures owner { option_map (λ t. t.now) result.owner ≡ Some owner.now.name }
        ensures part { result.part ≡ None }
    {
        Selector {
            module: owner.module(),
            owner: Some(owner.name()),
            part: None,
        }
    }

    /// Selects the constructors of a type that are in scope under this name.
    pub fn constructor(owner: &EntityRef<'a>, text: &'a str) -> Selector<'a>
        ensures module { result.«module».now ≡ owner.now.«module» }
        ensures owner { option_map (λ t. t.now) result.owner ≡ Some owner.now.name }
        ensures part { result.part ≡ Some text.entry }
    {
        Selector {
            module: owner.module(),
            owner: Some(owner.name()),
            part: Some(text),
        }
    }
}

/// Adds a binding to a group.
pub fn add_to_group<'a>(
    alloc: Global,
    groups: &mut IndexMap<Selector<'a>, Vec<Binding<'a>>>,
    selector: Selector<'a>,
    binding: Binding<'a>,
) -> Result<(), AllocError>
    ensures { OnOk result ((k : Selector) → group_of groups.new k
        ≡ cond (same_selector selector.entry k) (group_of groups.old k ++ binding.entry ∷ []) (group_of groups.old k)) }
{
    if let Some(group) = groups.get_mut(&selector) {
        group.push(binding)?;
        return Ok(());
    }
    let mut group = Vec::new(alloc);
    group.push(binding)?;
    groups.insert(selector, group)?;
    Ok(())
}

/// Adds copies of the bindings of a group to others. Returns whether the group exists.
pub fn add_group<'a>(
    out: &mut Vec<Binding<'a>>,
    groups: &IndexMap<Selector<'a>, Vec<Binding<'a>>>,
    selector: &Selector<'_>,
) -> Result<bool, AllocError>
    ensures added { OnOk result (Adds out.old.items out.new.items (Contains (group_of groups.now selector.now))) }
    ensures some { IfOk result (λ found. IsTrue found ↔ ((p : Pair) × Contains (group_of groups.now selector.now) p)) }
{
    match groups.get(selector) {
        None => Ok(false),
        Some(group) => {
            add_copies(out, group)?;
            Ok(!group.is_empty())
        }
    }
}

/// Adds copies of bindings.
fn add_copies<'a>(out: &mut Vec<Binding<'a>>, bindings: &[Binding<'a>]) -> Result<(), AllocError>
    ensures { OnOk result (out.new.items ≡ out.old.items ++ bindings.now) }
{
    for binding in bindings {
        out.push(copy_of(binding))?;
    }
    Ok(())
}

/// Returns a copy of a binding.
pub fn copy_of<'a>(binding: &Binding<'a>) -> Binding<'a>
    ensures { result ≡ binding.now }
{
    Binding::new(
        binding.space(),
        binding.qualifier(),
        binding.text(),
        binding.entity().copy(),
    )
}

/// Adds a binding to the group of its qualifier, if it is in scope bare too.
fn add_qualified<'a>(
    alloc: Global,
    groups: &mut IndexMap<Selector<'a>, Vec<Binding<'a>>>,
    bare: &BarePairs<'a>,
    pair: &Binding<'a>,
) -> Result<(), AllocError>
    ensures { OnOk result ((k : Selector) → Adds (group_of groups.old k) (group_of groups.new k) (IsOfWhole bare.now pair.now k)) }
{
    let Some(qualifier) = pair.qualifier() else {
        return Ok(());
    };
    if !bare.contains(pair) {
        return Ok(());
    }
    add_to_group(alloc, groups, Selector::whole(qualifier), bare_copy(pair))?;
    Ok(())
}

/// Adds a binding of a constructor to the groups of its type.
fn add_owned<'a>(
    alloc: Global,
    groups: &mut IndexMap<Selector<'a>, Vec<Binding<'a>>>,
    owners: &IndexMap<EntityKey<'a>, EntityRef<'a>>,
    pair: &Binding<'a>,
) -> Result<(), AllocError>
    ensures { OnOk result ((ds : List ConstructorDescription) → IsOwners ds owners.now → (k : Selector)
        → Adds (group_of groups.old k) (group_of groups.new k) (IsOfOwner ds pair.now k)) }
{
    if pair.space() != Namespace::Constructors {
        return Ok(());
    }
    let Some(owner) = owner_of(owners, pair.entity()) else {
        return Ok(());
    };
    add_to_group(
        alloc,
        groups,
        Selector::constructors(owner),
        bare_copy(pair),
    )?;
    add_to_group(
        alloc,
        groups,
        Selector::constructor(owner, pair.text()),
        bare_copy(pair),
    )?;
    Ok(())
}

/// Adds a binding to its groups.
fn add_pair<'a>(
    alloc: Global,
    groups: &mut IndexMap<Selector<'a>, Vec<Binding<'a>>>,
    bare: &BarePairs<'a>,
    owners: &IndexMap<EntityKey<'a>, EntityRef<'a>>,
    pair: &Binding<'a>,
) -> Result<(), AllocError>
    ensures { OnOk result ((ds : List ConstructorDescription) → IsOwners ds owners.now → (k : Selector)
        → Adds (group_of groups.old k) (group_of groups.new k) (λ p. IsOfWhole bare.now pair.now k p ⊎ IsOfOwner ds pair.now k p)) }
{
    add_qualified(alloc, groups, bare, pair)?;
    add_owned(alloc, groups, owners, pair)?;
    Ok(())
}

/// Adds bindings to their groups.
fn add_pairs<'a>(
    alloc: Global,
    groups: &mut IndexMap<Selector<'a>, Vec<Binding<'a>>>,
    bare: &BarePairs<'a>,
    owners: &IndexMap<EntityKey<'a>, EntityRef<'a>>,
    pairs: &[Binding<'a>],
) -> Result<(), AllocError>
    ensures { OnOk result ((ds : List ConstructorDescription) → IsOwners ds owners.now → (k : Selector)
        → Adds (group_of groups.old k) (group_of groups.new k) (λ p. (q : Pair) × (Contains pairs.now q × (IsOfWhole bare.now q k p ⊎ IsOfOwner ds q k p)))) }
{
    for pair in pairs {
        add_pair(alloc, groups, bare, owners, pair)?;
    }
    Ok(())
}

/// Groups bindings by their selectors, for these bare bindings and these types of constructors.
fn groups_with<'a>(
    alloc: Global,
    bare: &BarePairs<'a>,
    owners: &IndexMap<EntityKey<'a>, EntityRef<'a>>,
    pairs: &[Binding<'a>],
) -> Result<IndexMap<Selector<'a>, Vec<Binding<'a>>>, AllocError>
    ensures { IfOk result (λ groups. (m : Module) (fs : List Interface) → IsScopeOf m fs pairs.now
        → ((p : Pair) → Contains bare.now p ↔ (Contains pairs.now p × (p.qualifier ≡ None)))
        → IsOwners (declared_constructors m.header.name.text m.decls ++ imported_constructors fs) owners.now → AreGroupsOf m fs groups) }
{
    let mut groups = IndexMap::new(alloc);
    add_pairs(alloc, &mut groups, bare, owners, pairs)?;
    Ok(groups)
}

// Why: docs/DECISIONS.md, "Repeated exports".
/// Groups the bindings of a scope by their selectors.
pub fn groups_of<'a>(
    alloc: Global,
    program: &'a Module,
    interfaces: &[&'a Interface],
    pairs: &[Binding<'a>],
) -> Result<IndexMap<Selector<'a>, Vec<Binding<'a>>>, AllocError>
    ensures { IfOk result (λ groups. IsScopeOf program.now (map (λ i. i.now) interfaces.now) pairs.now
        → AreGroupsOf program.now (map (λ i. i.now) interfaces.now) groups) }
{
    let bare = bare_pairs(alloc, pairs)?;
    let owners = owners_of(alloc, program, interfaces)?;
    Ok(groups_with(alloc, &bare, &owners, pairs)?)
}

/// Returns the entity of a binding with its bare name.
fn bare_copy<'a>(binding: &Binding<'a>) -> Binding<'a>
    ensures { result ≡ bare_of binding.now }
{
    Binding::new(
        binding.space(),
        None,
        binding.text(),
        binding.entity().copy(),
    )
}
