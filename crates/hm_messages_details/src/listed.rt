//! Finds the import that lists a name.
ghost use Rattle.std.specs.Prelude.{◌≡◌, Contains, IfOk, IfSome, map, option_map, true};
ghost use Rattle.hm_syntax.specs.Names.{Identifier};
ghost use Rattle.hm_syntax.specs.declared.ast.ImportItem.{ImportItem as ItemTree};
ghost use Rattle.hm_syntax.specs.declared.ast.ImportItem.TheVariants as item;
ghost use Rattle.hm_names.specs.declared.faults.Kind.TheVariants.{NotExported};
ghost use Rattle.hm_messages_details.specs.Details.{IsKnown, known_of};
ghost use Rattle.hm_messages_details.specs.Firsts.{IsAt};
ghost use Rattle.hm_messages_details.specs.Listed.{IsListedAs, IsListedBy};

use crate::detail::Detail;
use crate::exports::near_export;
use crate::firsts::is_at;
use hm_names::Fault;
use hm_syntax::{Import, ImportItem, ImportList, Module, Name, SubItems};
use hm_types::Interface;
use std::alloc::{AllocError, Global};

/// How an import list has a name.
#[derive(Clone, Copy)]
struct Listed<'a> {
    /// The type whose constructor it is, or `None` if it is listed alone.
    owner: Option<&'a str>,
}

/// Returns whether a fault is at one of these names.
fn is_at_one(fault: &Fault, names: &[Name]) -> bool
    ensures { result ≡ true → (n : Identifier) × Contains names.now n × IsAt fault.now n }
{
    'names: for name in names {
        if is_at(fault, name) {
            return true;
        }
    }
    false
}

/// Returns how a type's item has the name of a fault among its constructors, if it has it.
fn listed_after<'a>(fault: &Fault, name: &'a Name, subs: &SubItems) -> Option<Listed<'a>>
    ensures { IfSome result (λ l. IsListedAs fault.now (item.Con name.now subs.now) (option_map (λ s. s.now) l.owner)) }
{
    match subs {
        SubItems::None => None,
        SubItems::All => None,
        SubItems::Some(names) => {
            if !is_at_one(fault, names.as_slice()) {
                return None;
            }
            Some(Listed {
                owner: Some(name.as_str()),
            })
        }
    }
}

/// Returns how an item has the name of a fault, if it has it.
fn listed_as<'a>(fault: &Fault, item: &'a ImportItem) -> Option<Listed<'a>>
    ensures { IfSome result (λ l. IsListedAs fault.now item.now (option_map (λ s. s.now) l.owner)) }
{
    match item {
        ImportItem::Var(name) => {
            if !is_at(fault, name) {
                return None;
            }
            Some(Listed { owner: None })
        }
        ImportItem::Con(name, subs) => {
            if is_at(fault, name) {
                return Some(Listed { owner: None });
            }
            listed_after(fault, name, subs)
        }
    }
}

/// Returns how one of these items has the name of a fault, if one has it.
fn listed_in<'a>(fault: &Fault, items: &'a [ImportItem]) -> Option<Listed<'a>>
    ensures { IfSome result (λ l. (i : ItemTree) × Contains items.now i × IsListedAs fault.now i (option_map (λ s. s.now) l.owner)) }
{
    'items: for item in items {
        match listed_as(fault, item) {
            Some(listed) => return Some(listed),
            None => {}
        }
    }
    None
}

/// Returns how an import list has the name of a fault, if it lists it.
#[tactic(auto, using(crate::proofs::Listing::listed_items))]
fn listed_by<'a>(fault: &Fault, list: &'a ImportList) -> Option<Listed<'a>>
    ensures { IfSome result (λ l. IsListedBy fault.now list.now (option_map (λ s. s.now) l.owner)) }
{
    match list {
        ImportList::Every => None,
        ImportList::Only(items) => {
            let listed = listed_in(fault, items.as_slice())?;
            Some(listed)
        }
        ImportList::Hiding(_) => None,
    }
}

// Why: docs/DECISIONS.md, "The module of an import".
/// Returns the module from which a name can't be imported, if the import that lists it is found, and a near name that the module exports.
#[tactic(auto, using(crate::proofs::Listing::listed_near))]
pub(crate) fn import_detail<'a>(
    alloc: Global,
    program: &'a Module,
    interfaces: &[&'a Interface],
    fault: &Fault,
) -> Result<Detail<'a>, AllocError>
    requires { fault.now.kind ≡ NotExported }
    ensures { IfOk result (λ detail. IsKnown program.now (map (λ f. f.now) interfaces.now) fault.now (known_of detail)) }
{
    let imports = program.header.imports.as_slice();
    'imports: for import in imports {
        match listed_by(fault, &import.list) {
            Some(listed) => {
                let module = import.name.as_str();
                let near = near_export(alloc, interfaces, fault, module, listed.owner)?;
                return Ok(Detail::NotFrom(module, listed.owner, near));
            }
            None => {}
        }
    }
    Ok(Detail::Nothing)
}
