//! The uses of names in imports (Report, section 5.3).
ghost use Rattle.std.specs.Prelude.{◌≡◌, List, Contains, OnOk, None, Some, false, option_map};
ghost use Rattle.hm_syntax.specs.declared.ast.Import.{Import};
ghost use Rattle.hm_syntax.specs.declared.ast.ImportItem.{ImportItem};
ghost use Rattle.hm_syntax.specs.declared.ast.ImportItem.TheVariants as item;
ghost use Rattle.hm_syntax.specs.declared.ast.ImportList.TheVariants as list;
ghost use Rattle.hm_syntax.specs.declared.ast.SubItems.TheVariants as subs;
ghost use Rattle.hm_uses.specs.declared.name_kind.NameKind.TheVariants.{Constructor};
ghost use Rattle.hm_uses.specs.Mentions.{mentions, sub_mentions, item_mentions, items_mentions, hidden_mentions, all_hidden_mentions, alias_mentions, list_mentions, import_mentions, imports_mentions};
ghost use Rattle.hm_uses.specs.Uses.{HasItem};
ghost use Rattle.hm_uses_header.specs.Adding.{Adds};
ghost use Rattle.hm_uses_header.specs.Lookups.{HidesItem, IsImported, IsTableOf};

use crate::adding::add;
use crate::interfaces::interface_named;
use crate::items::{of_item, of_sub_item};
use hm_names::Namespace;
use hm_syntax::{Import, ImportItem, ImportList, Name, SubItems};
use hm_types::Interface;
use hm_uses::NameKind;
use hm_uses_declarations::{Meaning, Use};
use indexmap::IndexMap;
use std::alloc::AllocError;

/// Adds the constructors that are listed after a type.
fn add_parts<'a>(
    found: &mut Vec<Use<'a>>,
    interface: Option<&'a Interface>,
    of: &Name,
    parts: &'a [Name],
) -> Result<(), AllocError>
    ensures { OnOk result (Adds found.old.items found.new.items (mentions Constructor false parts.now)
        (λ m fs. IsImported m fs (option_map (λ f. f.now) interface.entry) (λ i. HasItem i (item.Con of.now (subs.Some parts.now))))) }
{
    'parts: for part in parts {
        let meaning = of_sub_item(interface, of, part);
        add(found, part, NameKind::Constructor, false, meaning)?;
    }
    Ok(())
}

/// Adds the constructors of an item, if it lists any.
fn add_subs<'a>(
    found: &mut Vec<Use<'a>>,
    interface: Option<&'a Interface>,
    of: &Name,
    subs: &'a SubItems,
) -> Result<(), AllocError>
    ensures { OnOk result (Adds found.old.items found.new.items (sub_mentions subs.now)
        (λ m fs. IsImported m fs (option_map (λ f. f.now) interface.entry) (λ i. HasItem i (item.Con of.now subs.now)))) }
{
    match subs {
        SubItems::None => Ok(()),
        SubItems::All => Ok(()),
        SubItems::Some(parts) => {
            add_parts(found, interface, of, parts.as_slice())?;
            Ok(())
        }
    }
}

/// Adds the names of an item.
fn add_item<'a>(
    found: &mut Vec<Use<'a>>,
    interface: Option<&'a Interface>,
    item: &'a ImportItem,
) -> Result<(), AllocError>
    ensures { OnOk result (Adds found.old.items found.new.items (item_mentions item.now)
        (λ m fs. IsImported m fs (option_map (λ f. f.now) interface.entry) (λ i. HasItem i item.now))) }
{
    match item {
        ImportItem::Var(name) => {
            let meaning = of_item(interface, Namespace::Values, name);
            add(found, name, NameKind::Variable, false, meaning)?;
            Ok(())
        }
        ImportItem::Con(name, subs) => {
            let meaning = of_item(interface, Namespace::Types, name);
            add(found, name, NameKind::TypeConstructor, false, meaning)?;
            add_subs(found, interface, name, subs)?;
            Ok(())
        }
    }
}

/// Adds the names of the items of a list.
fn add_items<'a>(
    found: &mut Vec<Use<'a>>,
    interface: Option<&'a Interface>,
    items: &'a [ImportItem],
) -> Result<(), AllocError>
    ensures { OnOk result (Adds found.old.items found.new.items (items_mentions items.now)
        (λ m fs. IsImported m fs (option_map (λ f. f.now) interface.entry) (λ i. i.list ≡ list.Only items.now))) }
{
    'items: for item in items {
        add_item(found, interface, item)?;
    }
    Ok(())
}

/// Adds the names of an item after `hiding`. A name without a list is that of a type and of a constructor.
fn add_hidden<'a>(
    found: &mut Vec<Use<'a>>,
    interface: Option<&'a Interface>,
    item: &'a ImportItem,
) -> Result<(), AllocError>
    ensures { OnOk result (Adds found.old.items found.new.items (hidden_mentions item.now)
        (λ m fs. IsImported m fs (option_map (λ f. f.now) interface.entry) (λ i. HidesItem i item.now))) }
{
    add_item(found, interface, item)?;
    match item {
        ImportItem::Var(_) => Ok(()),
        ImportItem::Con(name, subs) => match subs {
            SubItems::All => Ok(()),
            SubItems::Some(_) => Ok(()),
            SubItems::None => {
                let meaning = of_item(interface, Namespace::Constructors, name);
                add(found, name, NameKind::Constructor, false, meaning)?;
                Ok(())
            }
        },
    }
}

/// Adds the names of the items of a list after `hiding`.
fn add_all_hidden<'a>(
    found: &mut Vec<Use<'a>>,
    interface: Option<&'a Interface>,
    items: &'a [ImportItem],
) -> Result<(), AllocError>
    ensures { OnOk result (Adds found.old.items found.new.items (all_hidden_mentions items.now)
        (λ m fs. IsImported m fs (option_map (λ f. f.now) interface.entry) (λ i. i.list ≡ list.Hiding items.now))) }
{
    'items: for item in items {
        add_hidden(found, interface, item)?;
    }
    Ok(())
}

/// Adds the names of the list of an import.
fn add_list<'a>(
    found: &mut Vec<Use<'a>>,
    interface: Option<&'a Interface>,
    list: &'a ImportList,
) -> Result<(), AllocError>
    ensures { OnOk result (Adds found.old.items found.new.items (list_mentions list.now)
        (λ m fs. IsImported m fs (option_map (λ f. f.now) interface.entry) (λ i. i.list ≡ list.now))) }
{
    match list {
        ImportList::Every => Ok(()),
        ImportList::Only(items) => {
            add_items(found, interface, items.as_slice())?;
            Ok(())
        }
        ImportList::Hiding(items) => {
            add_all_hidden(found, interface, items.as_slice())?;
            Ok(())
        }
    }
}

/// Adds the name after `as`, if there is one.
fn add_alias<'a>(found: &mut Vec<Use<'a>>, import: &'a Import) -> Result<(), AllocError>
    ensures { OnOk result (Adds found.old.items found.new.items (alias_mentions import.now.alias) (λ m fs. Contains m.header.imports import.now)) }
{
    let Some(alias) = &import.alias else {
        return Ok(());
    };
    let meaning = Meaning::Prefix(alias.as_text());
    add(found, alias, NameKind::ModuleName, true, meaning)?;
    Ok(())
}

/// Adds the names of an import.
fn add_import<'a>(
    found: &mut Vec<Use<'a>>,
    interfaces: &IndexMap<&'a str, &'a Interface>,
    import: &'a Import,
) -> Result<(), AllocError>
    ensures { OnOk result (Adds found.old.items found.new.items (import_mentions import.now)
        (λ m fs. IsTableOf fs interfaces.now × Contains m.header.imports import.now)) }
{
    let meaning = Meaning::Module(import.name.as_text());
    add(found, &import.name, NameKind::ModuleName, false, meaning)?;
    add_alias(found, import)?;
    let interface = interface_named(interfaces, import.name.as_str());
    add_list(found, interface, &import.list)?;
    Ok(())
}

/// Adds the names of imports.
pub(crate) fn add_imports<'a>(
    found: &mut Vec<Use<'a>>,
    interfaces: &IndexMap<&'a str, &'a Interface>,
    imports: &'a [Import],
) -> Result<(), AllocError>
    ensures { OnOk result (Adds found.old.items found.new.items (imports_mentions imports.now)
        (λ m fs. IsTableOf fs interfaces.now × (m.header.imports ≡ imports.now))) }
{
    'imports: for import in imports {
        add_import(found, interfaces, import)?;
    }
    Ok(())
}
