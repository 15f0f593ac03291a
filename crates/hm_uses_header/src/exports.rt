//! The uses of names in an export list (Report, section 5.2).
ghost use Rattle.std.specs.Prelude.{◌≡◌, List, Some, cond, false, MatchOption, OnOk};
ghost use Rattle.hm_types.specs.declared.Entity.{Entity};
ghost use Rattle.hm_types.specs.Interfaces.{Exports as Interface};
ghost use Rattle.hm_syntax.specs.declared.ast.Module.{Module};
ghost use Rattle.hm_syntax.specs.declared.ast.Export.TheVariants as export;
ghost use Rattle.hm_syntax.specs.declared.ast.SubItems.TheVariants as subs;
ghost use Rattle.hm_names.specs.Bindings.{IsScopeOf};
ghost use Rattle.hm_names.specs.Exports.{HasConstructor};
ghost use Rattle.hm_names.specs.Texts.{is_text_among};
ghost use Rattle.hm_scope_export_items.specs.ExportGroups.{AreGroupsOf};
ghost use Rattle.hm_uses.specs.declared.name_kind.NameKind.TheVariants.{Constructor};
ghost use Rattle.hm_uses.specs.Mentions.{mentions, sub_mentions, export_mentions, exports_mentions};
ghost use Rattle.hm_uses.specs.Uses.{ByScope, HasExport, OfExported, a_prefix, unbound};
ghost use Rattle.hm_uses_declarations.specs.Senses.{sense_of};
ghost use Rattle.hm_uses_header.specs.Adding.{Adds};
ghost use Rattle.hm_uses_header.specs.Lookups.{AreTablesOf, NamesParts};

use crate::adding::add;
use hm_names::Namespace;
use hm_scope_export_items::Selector;
use hm_scope_tables::{Binding, EntityRef, Meaning as ScopeMeaning, Scope, TextSet};
use hm_syntax::{Export, Name, SubItems};
use hm_uses::NameKind;
use hm_uses_declarations::{Meaning, Use};
use indexmap::IndexMap;
use std::alloc::AllocError;

/// What the names of an export list are looked up in.
#[derive(Drop)]
pub(crate) struct ExportTables<'s, 'a> {
    pub(crate) scope: &'s Scope<'a>,
    /// The names under which modules are known.
    pub(crate) modules: TextSet<'a>,
    /// The constructors of each type that are in scope, if the list names any.
    pub(crate) groups: IndexMap<Selector<'a>, Vec<Binding<'a>>>,
}

/// Returns the meaning of a name by the scope of the module.
fn by_scope<'a>(scope: &Scope<'a>, space: Namespace, name: &Name) -> Meaning<'a>
    ensures { («module» : Module) (fs : List Interface) → IsScopeOf «module» fs scope.now → ByScope «module» fs space name.now (sense_of result) }
{
    match scope.meaning(space, name) {
        ScopeMeaning::Unbound => Meaning::Unbound,
        ScopeMeaning::Ambiguous => Meaning::Ambiguous,
        ScopeMeaning::Entity(entity) => Meaning::Entity(entity),
    }
}

/// Returns the constructor of a type that is in scope under this name, bare or qualified.
fn constructor_of<'a>(
    groups: &IndexMap<Selector<'a>, Vec<Binding<'a>>>,
    owner: &EntityRef<'_>,
    text: &str,
) -> Option<EntityRef<'a>>
    ensures { («module» : Module) (fs : List Interface) → AreGroupsOf «module» fs groups.now
        → MatchOption result ((e : Entity) → ¬ HasConstructor «module» fs owner.now text.now e) (λ e. HasConstructor «module» fs owner.now text.now e) }
{
    let selector = Selector::constructor(owner, text);
    let Some(group) = groups.get(&selector) else {
        return None;
    };
    let Some(binding) = group.first() else {
        return None;
    };
    Some(binding.entity().copy())
}

/// Returns the meaning of a constructor that is listed after a type.
fn of_part<'a>(tables: &ExportTables<'_, 'a>, of: &Name, part: &Name) -> Meaning<'a>
    ensures { («module» : Module) (fs : List Interface) → AreTablesOf «module» fs tables.now → NamesParts «module» → OfExported «module» fs of.now part.now (sense_of result) }
{
    match tables.scope.meaning(Namespace::Types, of) {
        ScopeMeaning::Unbound => Meaning::Unbound,
        ScopeMeaning::Ambiguous => Meaning::Unbound,
        ScopeMeaning::Entity(owner) => {
            match constructor_of(&tables.groups, &owner, part.as_str()) {
                Some(entity) => Meaning::Entity(entity),
                None => Meaning::Unbound,
            }
        }
    }
}

/// Returns the meaning of the name in an item `module N`.
fn of_whole<'a>(modules: &TextSet<'a>, name: &'a Name) -> Meaning<'a>
    ensures { sense_of result ≡ cond (is_text_among name.now.text modules.now) (a_prefix name.now.text) unbound }
{
    if modules.contains(name.as_str()) {
        return Meaning::Prefix(name.as_text());
    }
    Meaning::Unbound
}

/// Adds the constructors that are listed after a type.
fn add_parts<'a>(
    found: &mut Vec<Use<'a>>,
    tables: &ExportTables<'_, 'a>,
    of: &Name,
    parts: &'a [Name],
) -> Result<(), AllocError>
    ensures { OnOk result (Adds found.old.items found.new.items (mentions Constructor false parts.now)
        (λ m fs. AreTablesOf m fs tables.now × HasExport m (export.Con of.now (subs.Some parts.now)))) }
{
    'parts: for part in parts {
        let meaning = of_part(tables, of, part);
        add(found, part, NameKind::Constructor, false, meaning)?;
    }
    Ok(())
}

/// Adds the constructors of an item, if it lists any.
fn add_subs<'a>(
    found: &mut Vec<Use<'a>>,
    tables: &ExportTables<'_, 'a>,
    of: &Name,
    subs: &'a SubItems,
) -> Result<(), AllocError>
    ensures { OnOk result (Adds found.old.items found.new.items (sub_mentions subs.now)
        (λ m fs. AreTablesOf m fs tables.now × HasExport m (export.Con of.now subs.now))) }
{
    match subs {
        SubItems::None => Ok(()),
        SubItems::All => Ok(()),
        SubItems::Some(parts) => {
            add_parts(found, tables, of, parts.as_slice())?;
            Ok(())
        }
    }
}

/// Adds the names of an item.
fn add_export<'a>(
    found: &mut Vec<Use<'a>>,
    tables: &ExportTables<'_, 'a>,
    export: &'a Export,
) -> Result<(), AllocError>
    ensures { OnOk result (Adds found.old.items found.new.items (export_mentions export.now)
        (λ m fs. AreTablesOf m fs tables.now × HasExport m export.now)) }
{
    match export {
        Export::Var(name) => {
            let meaning = by_scope(tables.scope, Namespace::Values, name);
            add(found, name, NameKind::Variable, false, meaning)?;
            Ok(())
        }
        Export::Con(name, subs) => {
            let meaning = by_scope(tables.scope, Namespace::Types, name);
            add(found, name, NameKind::TypeConstructor, false, meaning)?;
            add_subs(found, tables, name, subs)?;
            Ok(())
        }
        Export::Whole(name) => {
            let meaning = of_whole(&tables.modules, name);
            add(found, name, NameKind::ModuleName, false, meaning)?;
            Ok(())
        }
    }
}

/// Adds the names of an export list.
pub(crate) fn add_exports<'a>(
    found: &mut Vec<Use<'a>>,
    tables: &ExportTables<'_, 'a>,
    exports: &'a [Export],
) -> Result<(), AllocError>
    ensures { OnOk result (Adds found.old.items found.new.items (exports_mentions exports.now)
        (λ m fs. AreTablesOf m fs tables.now × (m.header.exports ≡ Some exports.now))) }
{
    'exports: for export in exports {
        add_export(found, tables, export)?;
    }
    Ok(())
}
