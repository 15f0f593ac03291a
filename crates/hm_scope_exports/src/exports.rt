//! Finds a module's exports and the faults of its export list (Report, section 5.2).

ghost use Rattle.std.specs.Prelude.{◌≡◌, ◌↔◌, ◌++◌, ◌∷◌, [], IfOk, OnOk, Contains, List, map, option_map, None, Some};
ghost use Rattle.hm_types.specs.Interfaces.{Exports as Interface};
ghost use Rattle.hm_types.specs.declared.Entity.{Entity};
ghost use Rattle.hm_syntax.specs.Names.{Identifier};
ghost use Rattle.hm_syntax.specs.declared.ast.Export.{Export};
ghost use Rattle.hm_syntax.specs.declared.ast.Export.TheVariants as export;
ghost use Rattle.hm_syntax.specs.declared.ast.Module.{Module};
ghost use Rattle.hm_names.specs.Bindings.{Pair, Adds, IsOwnPair, IsScopeOf};
ghost use Rattle.hm_scope_export_items.specs.ExportGroups.{IsOwned};
ghost use Rattle.hm_scope_exports.specs.ExportItems.{IsExporterOf, IsExportMeaning, GivesBehind, FaultBehind, GivesPair, ItemFault, IsLeastOf, LeastFault, bare_pair};
ghost use Rattle.hm_names.specs.Exports.{HasConstructor};
ghost use Rattle.hm_names.specs.Faults.Exports.{item_name};
ghost use Rattle.hm_names.specs.Faults.Phases.{fault};
ghost use Rattle.hm_scope_exports.specs.ModuleExports.{AreExportsOf, AreListedExports, AreExportsSoFar};
ghost use Rattle.hm_scope_tables.specs.Tables.{IsTable};
ghost use Rattle.hm_names.specs.declared.faults.Kind.TheVariants.{Unbound};

use hm_lex::Place;
use hm_names::{Fault, Kind, Namespace, fault_at};
use hm_scope_export_items::{Selector, add_group, copy_of, groups_of};
use hm_scope_imports::{add_declared, module_names};
use hm_scope_tables::{Binding, EntityRef, Key, Meaning, Scope, Slot, TextSet, is_several, note};
use hm_syntax::{Export, Module, Name, Row, SubItems};
use hm_types::{Interface, Text};
use indexmap::IndexMap;
use std::alloc::{AllocError, Global};

/// The number of exports that the items of an export list may select, whatever the scope.
const LEAST_EXPORTS: usize = 1 << 16;

/// Further exports, for each pair of the scope.
const EXPORTS_PER_PAIR: usize = 8;

/// The tables in which the items of an export list are looked up.
#[derive(Drop)]
struct Exporter<'s, 'a> {
    alloc: Global,
    scope: &'s Scope<'a>,
    modules: TextSet<'a>,
    groups: IndexMap<Selector<'a>, Vec<Binding<'a>>>,
    /// The number of exports that the items may select before the last one, counted once for each item.
    most: usize,
}

/// The exports of a module with their names, and the faults of its export list.
#[derive(Drop)]
pub struct ModuleExports<'a> {
    pub given: Vec<Binding<'a>>,
    pub faults: Vec<Fault>,
}

/// Adds a fault.
fn add_fault(
    alloc: Global,
    faults: &mut Vec<Fault>,
    kind: Kind,
    name: &Name,
) -> Result<(), AllocError>
    ensures { OnOk result (Adds faults.old.items faults.new.items (λ g. fault kind name.now ≡ g)) }
{
    let found = fault_at(alloc, kind, name)?;
    faults.push(found)?;
    Ok(())
}

/// Adds an entity under a bare name.
fn add_given<'a>(
    out: &mut Vec<Binding<'a>>,
    space: Namespace,
    name: &'a Name,
    entity: EntityRef<'a>,
) -> Result<(), AllocError>
    ensures { OnOk result (Adds out.old.items out.new.items (λ p. bare_pair space name.now.text entity.entry ≡ p)) }
{
    out.push(Binding::new(space, None, name.as_str(), entity))?;
    Ok(())
}

/// Returns the entity that an exported name means. If it means none or several, adds the fault.
fn exported_entity<'a>(
    exporter: &Exporter<'_, 'a>,
    faults: &mut Vec<Fault>,
    space: Namespace,
    name: &'a Name,
) -> Result<Option<EntityRef<'a>>, AllocError>
    ensures { IfOk result (λ meant. (m : Module) (fs : List Interface) → IsScopeOf m fs exporter.now.scope.now
        → IsExportMeaning m fs space name.now faults.old.items faults.new.items meant) }
{
    match exporter.scope.meaning(space, name) {
        Meaning::Unbound => {
            add_fault(exporter.alloc, faults, Kind::Unbound, name)?;
            Ok(None)
        }
        Meaning::Ambiguous => {
            add_fault(exporter.alloc, faults, Kind::Ambiguous, name)?;
            Ok(None)
        }
        Meaning::Entity(entity) => Ok(Some(entity)),
    }
}

/// Adds the export of a constructor that is listed after a type, or its fault.
fn add_part<'a>(
    exporter: &Exporter<'_, 'a>,
    out: &mut Vec<Binding<'a>>,
    faults: &mut Vec<Fault>,
    owner: &EntityRef<'a>,
    part: &'a Name,
) -> Result<(), AllocError>
    ensures given { OnOk result ((m : Module) (fs : List Interface) → IsExporterOf m fs exporter.now
        → Adds out.old.items out.new.items (λ p. IsOwned m fs owner.now p × (p.text ≡ part.now.text))) }
    ensures faults { OnOk result ((m : Module) (fs : List Interface) → IsExporterOf m fs exporter.now
        → Adds faults.old.items faults.new.items (λ g. ((k : Entity) → ¬ (HasConstructor m fs owner.now part.now.text k)) × (fault Unbound part.now ≡ g))) }
{
    let selector = Selector::constructor(owner, part.as_str());
    if add_group(out, &exporter.groups, &selector)? {
        return Ok(());
    }
    add_fault(exporter.alloc, faults, Kind::Unbound, part)?;
    Ok(())
}

/// Adds the exports of the constructors that are listed after a type, and their faults.
fn add_parts<'a>(
    exporter: &Exporter<'_, 'a>,
    out: &mut Vec<Binding<'a>>,
    faults: &mut Vec<Fault>,
    owner: &EntityRef<'a>,
    parts: &'a [Name],
) -> Result<(), AllocError>
    ensures given { OnOk result ((m : Module) (fs : List Interface) → IsExporterOf m fs exporter.now
        → Adds out.old.items out.new.items (λ p. (c : Identifier) × (Contains parts.now c × (IsOwned m fs owner.now p × (p.text ≡ c.text))))) }
    ensures faults { OnOk result ((m : Module) (fs : List Interface) → IsExporterOf m fs exporter.now
        → Adds faults.old.items faults.new.items (λ g. (c : Identifier)
        × (Contains parts.now c × (((k : Entity) → ¬ (HasConstructor m fs owner.now c.text k)) × (fault Unbound c ≡ g))))) }
{
    for part in parts {
        add_part(exporter, out, faults, owner, part)?;
    }
    Ok(())
}

/// Adds the exports of the list after a type.
fn add_behind<'a>(
    exporter: &Exporter<'_, 'a>,
    out: &mut Vec<Binding<'a>>,
    faults: &mut Vec<Fault>,
    owner: &EntityRef<'a>,
    subs: &'a SubItems,
) -> Result<(), AllocError>
    ensures given { OnOk result ((m : Module) (fs : List Interface) → IsExporterOf m fs exporter.now
        → Adds out.old.items out.new.items (GivesBehind m fs owner.now subs.now)) }
    ensures faults { OnOk result ((m : Module) (fs : List Interface) → IsExporterOf m fs exporter.now
        → Adds faults.old.items faults.new.items (FaultBehind m fs owner.now subs.now)) }
{
    match subs {
        SubItems::None => Ok(()),
        SubItems::All => {
            add_group(out, &exporter.groups, &Selector::constructors(owner))?;
            Ok(())
        }
        SubItems::Some(parts) => {
            add_parts(exporter, out, faults, owner, parts.as_slice())?;
            Ok(())
        }
    }
}

/// Adds the export of a variable, or its fault.
fn add_value<'a>(
    exporter: &Exporter<'_, 'a>,
    out: &mut Vec<Binding<'a>>,
    faults: &mut Vec<Fault>,
    name: &'a Name,
) -> Result<(), AllocError>
    ensures given { OnOk result ((m : Module) (fs : List Interface) → IsExporterOf m fs exporter.now
        → Adds out.old.items out.new.items (GivesPair m fs (export.Var name.now))) }
    ensures faults { OnOk result ((m : Module) (fs : List Interface) → IsExporterOf m fs exporter.now
        → Adds faults.old.items faults.new.items (ItemFault m fs (export.Var name.now))) }
{
    let Some(entity) = exported_entity(exporter, faults, Namespace::Values, name)? else {
        return Ok(());
    };
    add_given(out, Namespace::Values, name, entity)?;
    Ok(())
}

/// Adds the exports of a type with its constructors, and their faults.
fn add_type<'a>(
    exporter: &Exporter<'_, 'a>,
    out: &mut Vec<Binding<'a>>,
    faults: &mut Vec<Fault>,
    name: &'a Name,
    subs: &'a SubItems,
) -> Result<(), AllocError>
    ensures given { OnOk result ((m : Module) (fs : List Interface) → IsExporterOf m fs exporter.now
        → Adds out.old.items out.new.items (GivesPair m fs (export.Con name.now subs.now))) }
    ensures faults { OnOk result ((m : Module) (fs : List Interface) → IsExporterOf m fs exporter.now
        → Adds faults.old.items faults.new.items (ItemFault m fs (export.Con name.now subs.now))) }
{
    let Some(owner) = exported_entity(exporter, faults, Namespace::Types, name)? else {
        return Ok(());
    };
    add_given(out, Namespace::Types, name, owner.copy())?;
    add_behind(exporter, out, faults, &owner, subs)?;
    Ok(())
}

/// Adds the exports of an item `module x`, or the fault of its name.
fn add_whole<'a>(
    exporter: &Exporter<'_, 'a>,
    out: &mut Vec<Binding<'a>>,
    faults: &mut Vec<Fault>,
    name: &'a Name,
) -> Result<(), AllocError>
    ensures given { OnOk result ((m : Module) (fs : List Interface) → IsExporterOf m fs exporter.now
        → Adds out.old.items out.new.items (GivesPair m fs (export.Whole name.now))) }
    ensures faults { OnOk result ((m : Module) (fs : List Interface) → IsExporterOf m fs exporter.now
        → Adds faults.old.items faults.new.items (ItemFault m fs (export.Whole name.now))) }
{
    if !exporter.modules.contains(name.as_str()) {
        add_fault(exporter.alloc, faults, Kind::NotImported, name)?;
        return Ok(());
    }
    add_group(out, &exporter.groups, &Selector::whole(name.as_str()))?;
    Ok(())
}

/// Adds the exports of an item of the export list, and its faults except its clash.
fn add_item<'a>(
    exporter: &Exporter<'_, 'a>,
    out: &mut Vec<Binding<'a>>,
    faults: &mut Vec<Fault>,
    item: &'a Export,
) -> Result<(), AllocError>
    ensures given { OnOk result ((m : Module) (fs : List Interface) → IsExporterOf m fs exporter.now
        → Adds out.old.items out.new.items (GivesPair m fs item.now)) }
    ensures faults { OnOk result ((m : Module) (fs : List Interface) → IsExporterOf m fs exporter.now
        → Adds faults.old.items faults.new.items (ItemFault m fs item.now)) }
{
    match item {
        Export::Var(name) => {
            add_value(exporter, out, faults, name)?;
            Ok(())
        }
        Export::Con(name, subs) => {
            add_type(exporter, out, faults, name, subs)?;
            Ok(())
        }
        Export::Whole(name) => {
            add_whole(exporter, out, faults, name)?;
            Ok(())
        }
    }
}

// Why: docs/DECISIONS.md, "Place of an export clash".
/// Returns the place of an item of the export list.
fn item_place(item: &Export) -> Place
    ensures line { result.line ≡ (item_name item.now).line }
    ensures column { result.column ≡ (item_name item.now).column }
{
    match item {
        Export::Var(name) => name.place,
        Export::Con(name, _) => name.place,
        Export::Whole(name) => name.place,
    }
}

/// Returns the lesser of a name and that of a binding, if the latter means several entities.
fn lesser<'a>(
    table: &IndexMap<Key<'a>, Slot<'a>>,
    least: Option<&'a str>,
    pair: &Binding<'a>,
) -> Option<&'a str>
    ensures { (all seen : List Pair) → IsTable all table.now → IsLeastOf all seen (option_map (λ x. x.now) least.entry)
        → IsLeastOf all (seen ++ pair.now ∷ []) (option_map (λ x. x.now) result) }
{
    if !is_several(table, pair) {
        return least;
    }
    let Some(text) = least else {
        return Some(pair.text());
    };
    if pair.text() < text {
        return Some(pair.text());
    }
    Some(text)
}

/// Returns the least of the given names that mean several entities in the table.
fn least_clash<'a>(table: &IndexMap<Key<'a>, Slot<'a>>, given: &[Binding<'a>]) -> Option<&'a str>
    ensures { (all : List Pair) → IsTable all table.now → IsLeastOf all given.now (option_map (λ x. x.now) result) }
{
    let mut least = None;
    for pair in given {
        least = lesser(table, least, pair);
    }
    least
}

/// Adds the clash of an item, if it has one.
fn add_clash<'a>(
    alloc: Global,
    faults: &mut Vec<Fault>,
    table: &IndexMap<Key<'a>, Slot<'a>>,
    given: &[Binding<'a>],
    item: &Export,
) -> Result<(), AllocError>
    ensures { OnOk result ((all : List Pair) → IsTable all table.now → Adds faults.old.items faults.new.items (LeastFault all given.now item.now)) }
{
    let Some(text) = least_clash(table, given) else {
        return Ok(());
    };
    let name = Text::new(String::from_str(alloc, text)?)?;
    faults.push(Fault {
        place: item_place(item),
        kind: Kind::ExportClash,
        name,
    })?;
    Ok(())
}

/// Adds the exports of an item to those given so far, and to their table.
fn add_all<'a>(
    given: &mut Vec<Binding<'a>>,
    table: &mut IndexMap<Key<'a>, Slot<'a>>,
    out: &[Binding<'a>],
) -> Result<(), AllocError>
    ensures given { OnOk result (given.new.items ≡ given.old.items ++ out.now) }
    ensures table { OnOk result (IsTable given.old.items table.old → IsTable given.new.items table.new) }
{
    for pair in out {
        note(table, pair)?;
        given.push(copy_of(pair))?;
    }
    Ok(())
}

/// Adds the exports of an item of the export list, and its faults. If the items before it select too many exports, returns an error as if memory
/// ran out.
fn add_export<'a>(
    exporter: &Exporter<'_, 'a>,
    exports: &mut ModuleExports<'a>,
    table: &mut IndexMap<Key<'a>, Slot<'a>>,
    item: &'a Export,
) -> Result<(), AllocError>
    ensures { OnOk result ((m : Module) (fs : List Interface) (before : List Export) → IsExporterOf m fs exporter.now
        → AreExportsSoFar m fs before exports.old table.old → AreExportsSoFar m fs (before ++ item.now ∷ []) exports.new table.new) }
{
    if exports.given.len() > exporter.most {
        return Err(AllocError);
    }
    let mut out = Vec::new(exporter.alloc);
    add_item(exporter, &mut out, &mut exports.faults, item)?;
    add_all(&mut exports.given, table, &out)?;
    add_clash(exporter.alloc, &mut exports.faults, table, &out, item)?;
    Ok(())
}

/// Returns the exports of the items of an export list, and their faults.
fn listed_exports<'a>(
    exporter: &Exporter<'_, 'a>,
    items: &'a [Export],
) -> Result<ModuleExports<'a>, AllocError>
    ensures { IfOk result (λ exports. (m : Module) (fs : List Interface) → IsExporterOf m fs exporter.now → AreListedExports m fs items.now exports) }
{
    let mut exports = ModuleExports {
        given: Vec::new(exporter.alloc),
        faults: Vec::new(exporter.alloc),
    };
    let mut table = IndexMap::new(exporter.alloc);
    for item in items {
        add_export(exporter, &mut exports, &mut table, item)?;
    }
    Ok(exports)
}

/// Adds a binding if it has no qualifier.
fn add_bare<'a>(out: &mut Vec<Binding<'a>>, pair: &Binding<'a>) -> Result<(), AllocError>
    ensures { OnOk result (Adds out.old.items out.new.items (λ p. (pair.now.qualifier ≡ None) × (pair.now ≡ p))) }
{
    if pair.qualifier().is_some() {
        return Ok(());
    }
    out.push(copy_of(pair))?;
    Ok(())
}

/// Returns a module's declared entities, under bare names.
fn declared_exports<'a>(alloc: Global, program: &'a Module) -> Result<Vec<Binding<'a>>, AllocError>
    ensures { IfOk result (λ given. (p : Pair) → Contains given.items p ↔ (IsOwnPair program.now p × (p.qualifier ≡ None))) }
{
    let mut declared = Vec::new(alloc);
    add_declared(alloc, &mut declared, program)?;
    let mut given = Vec::new(alloc);
    for pair in &declared {
        add_bare(&mut given, pair)?;
    }
    Ok(given)
}

// Why: docs/DECISIONS.md, "Repeated exports".
/// Returns how many exports the items of an export list may select. Each pair of the scope may be selected some times.
fn most_exports(scope: &Scope<'_>) -> usize {
    scope
        .pairs()
        .len()
        .saturating_mul(EXPORTS_PER_PAIR)
        .saturating_add(LEAST_EXPORTS)
}

/// Returns the exports of a module, each entity once or more, and the faults of its export list.
pub fn module_exports<'a>(
    alloc: Global,
    program: &'a Module,
    interfaces: &[&'a Interface],
    scope: &Scope<'a>,
) -> Result<ModuleExports<'a>, AllocError>
    requires { IsScopeOf program.now (map (λ i. i.now) interfaces.now) scope.now }
    ensures { IfOk result (AreExportsOf program.now (map (λ i. i.now) interfaces.now)) }
{
    let Some(items) = &program.header.exports else {
        let given = declared_exports(alloc, program)?;
        return Ok(ModuleExports {
            given,
            faults: Vec::new(alloc),
        });
    };
    let exporter = Exporter {
        alloc,
        scope,
        modules: module_names(alloc, program)?,
        groups: groups_of(alloc, program, interfaces, scope.pairs())?,
        most: most_exports(scope),
    };
    Ok(listed_exports(&exporter, items.as_slice())?)
}
