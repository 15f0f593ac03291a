//! The parts of modules before their declarations.

ghost use Rattle.std.specs.Prelude.{◌≡◌, ◌↔◌, IsTrue};

use crate::names::is_same_name;
use crate::rows::{Part, are_same};
use hm_syntax::{Export, Header, Import, ImportItem, ImportList, Name, Row, SubItems};

/// Returns whether two lists after a type are the same.
fn is_same_subs(subs: &SubItems, other: &SubItems) -> bool
    ensures { IsTrue result ↔ (subs.now ≡ other.now) }
{
    match (subs, other) {
        (SubItems::None, SubItems::None) => true,
        (SubItems::All, SubItems::All) => true,
        (SubItems::Some(names), SubItems::Some(others)) => are_same(
            names.as_slice(),
            others.as_slice(),
        ),
        _ => false,
    }
}

impl Part for Export {
    fn is_same(&self, other: &Export) -> bool {
        match (self, other) {
            (Export::Var(name), Export::Var(with)) => is_same_name(name, with),
            (Export::Con(name, subs), Export::Con(with, others)) => {
                is_same_name(name, with) && is_same_subs(subs, others)
            }
            (Export::Whole(name), Export::Whole(with)) => is_same_name(name, with),
            _ => false,
        }
    }
}

impl Part for ImportItem {
    fn is_same(&self, other: &ImportItem) -> bool {
        match (self, other) {
            (ImportItem::Var(name), ImportItem::Var(with)) => is_same_name(name, with),
            (ImportItem::Con(name, subs), ImportItem::Con(with, others)) => {
                is_same_name(name, with) && is_same_subs(subs, others)
            }
            _ => false,
        }
    }
}

/// Returns whether two import lists are the same.
fn is_same_list(list: &ImportList, other: &ImportList) -> bool
    ensures { IsTrue result ↔ (list.now ≡ other.now) }
{
    match (list, other) {
        (ImportList::Every, ImportList::Every) => true,
        (ImportList::Only(items), ImportList::Only(others)) => are_same(
            items.as_slice(),
            others.as_slice(),
        ),
        (ImportList::Hiding(items), ImportList::Hiding(others)) => {
            are_same(items.as_slice(), others.as_slice())
        }
        _ => false,
    }
}

/// Returns whether two names after `as` are the same, or both are missing.
fn is_same_alias(alias: &Option<Name>, other: &Option<Name>) -> bool
    ensures { IsTrue result ↔ (alias.now ≡ other.now) }
{
    match (alias, other) {
        (None, None) => true,
        (Some(name), Some(with)) => is_same_name(name, with),
        _ => false,
    }
}

impl Part for Import {
    fn is_same(&self, other: &Import) -> bool {
        self.qualified == other.qualified
            && is_same_name(&self.name, &other.name)
            && is_same_alias(&self.alias, &other.alias)
            && is_same_list(&self.list, &other.list)
    }
}

/// Returns whether two export lists are the same, or both are missing.
fn are_same_exports(exports: &Option<Row<Export>>, other: &Option<Row<Export>>) -> bool
    ensures { IsTrue result ↔ (exports.now ≡ other.now) }
{
    match (exports, other) {
        (None, None) => true,
        (Some(row), Some(with)) => are_same(row.as_slice(), with.as_slice()),
        _ => false,
    }
}

/// Returns whether two headers are the same.
pub(crate) fn is_same_header(header: &Header, other: &Header) -> bool
    ensures { IsTrue result ↔ (header.now ≡ other.now) }
{
    is_same_name(&header.name, &other.name)
        && are_same_exports(&header.exports, &other.exports)
        && are_same(header.imports.as_slice(), other.imports.as_slice())
}
