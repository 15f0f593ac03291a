//! Assumptions: the schemes of names.

ghost use Rattle.std.specs.Prelude.{◌≡◌, ℕ, ◌≤◌, ◌<◌, ◌+◌, ◌-◌, ◌∷◌, ◌++◌, [], List, None, cond, drop, length, take, IfOk, MatchOption, OnErr, OnOk};
ghost use Rattle.hm_types.specs.Shape.{type_of};
ghost use Rattle.hm_typing.specs.Names.{IsOneOf};
ghost use Rattle.hm_infer_context.specs.Environments.{Extends, Assumed, IsSchemeOf, assumed_names, monomorphic_entries};
ghost use Rattle.hm_infer_context.specs.AssumedTypes.{type_in};
ghost use Rattle.hm_infer_context.specs.Kept.{entries_of};
ghost use Rattle.hm_infer_context.specs.Places.{ArePlaced, IsInnermost, IsLastPlace, IsPlaced};
ghost use Rattle.hm_names_keys.specs.Keys.{number_of, same_variable, variable_of_key};
ghost use Rattle.hm_names_keys.specs.Variables.{Variable, identifier};
ghost use Rattle.hm_names.specs.Syntax.{name_of};

use crate::variables::Variables;
use hm_names_keys::{LentName, key_of};
use hm_syntax::Name;
use hm_types::Ty;
use indexmap::IndexMap;
use std::alloc::{AllocError, Global};
use std::marker::Model;

// Why: docs/DECISIONS.md, "Few names".
/// The number of innermost assumptions that may be without a place in the table. They are searched one by one, because most of them are soon removed.
const FEW: usize = 8;

/// A borrowed scheme. The variables of `body` below `quantified` are quantified, and each other
/// one stands for the variable whose number is less by `quantified`.
#[derive(Clone, Copy)]
pub(crate) struct Scheme<'a> {
    pub quantified: usize,
    pub body: &'a Ty,
}

/// The type of an assumed scheme: borrowed from an interface if the variable is imported, owned
/// otherwise.
#[derive(Drop)]
pub enum AssumedType<'a> {
    Made(Ty),
    Lent(&'a Ty),
}

impl<'a> AssumedType<'a> {
    /// Borrows the type.
    pub fn as_type(&self) -> &Ty
        ensures { type_of result.now ≡ type_in self.now }
    {
        match self {
            AssumedType::Made(ty) => ty,
            AssumedType::Lent(ty) => ty,
        }
    }
}

/// A name with its scheme. In the table, the place of the assumption about this name that it hides, if any.
#[derive(Drop)]
pub struct Binding<'a> {
    pub name: LentName<'a>,
    pub quantified: usize,
    pub body: AssumedType<'a>,
    hidden: Option<usize>,
}

/// The assumptions about names. The names are borrowed from the trees and interfaces of a core.
///
/// Contracts see a list, the innermost assumption first. A table has the place of the innermost
/// assumption about each name, except for the last few assumptions.
pub struct Environment<'a> {
    items: Vec<Binding<'a>>,
    placed: usize,
    innermost: IndexMap<LentName<'a>, usize>,
}

impl Drop for Environment<'_> {
    fn drop(self) {
        let Environment {
            items: _items,
            placed: _,
            innermost: _innermost,
        } = self;
    }
}

impl<'a> Model for Environment<'a> {
    ghost use Rattle.std.specs.Prelude.{List};
    ghost use Rattle.hm_infer_context.specs.Environments.{Assumed, coded_assumed};
    ghost use Rattle.std.specs.Coded.{coded_list};

    ghost Value = { List Assumed };

    ghost coded = { coded_list coded_assumed };

    ghost use Rattle.hm_infer_context.specs.Kept.{entries_of};

    ghost view = { λ s. entries_of s.items.items };

    ghost use Rattle.hm_infer_context.specs.Places.{ArePlaced};

    ghost invariant = { λ s. ArePlaced s.items.items s.placed s.innermost };
}

impl<'a> Environment<'a> {
    /// Returns an environment without assumptions.
    pub fn new(alloc: Global) -> Environment<'a>
        ensures { result ≡ [] }
    {
        Environment {
            items: Vec::new(alloc),
            placed: 0,
            innermost: IndexMap::new(alloc),
        }
    }

    /// Returns the number of assumptions.
    pub fn len(&self) -> usize
        ensures { result ≡ length self.now }
    {
        self.items.len()
    }

    /// Returns the assumptions, the outermost first.
    pub fn as_slice(&self) -> &[Binding<'a>]
        ensures { entries_of result.now ≡ self.now }
    {
        &self.items
    }

    /// Makes room for `count` more assumptions, so that the list and the table grow only once.
    pub fn reserve(&mut self, count: usize) -> Result<(), AllocError>
        ensures { self.new ≡ self.old }
    {
        self.items.reserve(count)?;
        self.innermost.reserve(count)
    }

    /// Adds an assumption about a name, inside all others.
    pub fn bind(
        &mut self,
        name: LentName<'a>,
        quantified: usize,
        body: Ty,
    ) -> Result<(), AllocError>
        ensures bound { OnOk result (self.new ≡ (record
            { name = identifier (variable_of_key name.entry); scheme = record { quantified = quantified; body = type_of body } } ∷ self.old)) }
        ensures same { OnErr result (self.new ≡ self.old) }
    {
        self.add(name, quantified, AssumedType::Made(body))
    }

    /// Adds an assumption with a borrowed type, inside all others.
    pub fn bind_lent(
        &mut self,
        name: LentName<'a>,
        quantified: usize,
        body: &'a Ty,
    ) -> Result<(), AllocError>
        ensures bound { OnOk result (self.new ≡ (record
            { name = identifier (variable_of_key name.entry); scheme = record { quantified = quantified; body = type_of body.entry.now } } ∷ self.old)) }
        ensures same { OnErr result (self.new ≡ self.old) }
    {
        self.add(name, quantified, AssumedType::Lent(body))
    }

    fn add(
        &mut self,
        name: LentName<'a>,
        quantified: usize,
        body: AssumedType<'a>,
    ) -> Result<(), AllocError>
        ensures bound { OnOk result (self.new ≡ (record
            { name = identifier (variable_of_key name.entry); scheme = record { quantified = quantified; body = type_in body.entry } } ∷ self.old)) }
        ensures same { OnErr result (self.new ≡ self.old) }
    {
        self.place_if_many()?;
        self.items.push(Binding {
            name,
            quantified,
            body,
            hidden: None,
        })?;
        Ok(())
    }

    /// Gives an assumption its place in the table if many have none.
    fn place_if_many(&mut self) -> Result<(), AllocError>
        ensures { self.new ≡ self.old }
    {
        if self.items.len() - self.placed < FEW {
            return Ok(());
        }
        place_next(&mut self.items, &mut self.innermost, self.placed)?;
        self.placed += 1;
        Ok(())
    }

    /// Removes all assumptions except the outermost `depth`.
    pub fn truncate(&mut self, depth: usize)
        ensures { (added base : List Assumed) → self.old ≡ added ++ base → length base ≡ depth → self.new ≡ base }
    {
        if self.placed <= depth {
            self.items.truncate(depth);
            return;
        }
        self.items.truncate(self.placed);
        forget_from(&mut self.items, &mut self.innermost, depth);
        self.placed = depth;
    }

    /// Returns the scheme of the innermost assumption about a name, if there is one.
    pub(crate) fn find(&self, name: &Name) -> Option<Scheme<'_>>
        ensures { MatchOption result (¬ (IsOneOf (name_of name.now) (assumed_names self.now))) (λ s.
            IsSchemeOf (name_of name.now) (record { quantified = s.quantified; body = type_of s.body.now }) self.now) }
    {
        let place = innermost_place(&self.items, self.placed, &self.innermost, &key_of(name))?;
        let item = &self.items[place];
        Some(Scheme {
            quantified: item.quantified,
            body: item.body.as_type(),
        })
    }

    /// Adds an assumption for each variable, with its type. The last is inside all others.
    pub(crate) fn bind_variables(&mut self, variables: Variables<'a>) -> Result<(), AllocError>
        ensures bound { OnOk result (self.new ≡ monomorphic_entries variables.entry ++ self.old) }
        ensures kept { Extends self.old self.new }
    {
        for item in variables.into_items() {
            self.bind(item.name, 0, item.ty)?;
        }
        Ok(())
    }
}

/// Returns the place of a name in a table, if it has one.
pub(crate) fn place_of(places: &IndexMap<LentName<'_>, usize>, name: &LentName<'_>) -> Option<usize>
    ensures { result ≡ number_of places.now (variable_of_key name.now) }
{
    match places.get(name) {
        Some(place) => Some(*place),
        None => None,
    }
}

/// Returns the place of the last assumption about a name from a place on, if there is one.
fn place_among_last(items: &[Binding<'_>], from: usize, key: &LentName<'_>) -> Option<usize>
    requires { from ≤ length items.now }
    ensures { MatchOption result (¬ (IsOneOf (identifier (variable_of_key key.now)) (assumed_names (entries_of (drop from items.now)))))
        (IsLastPlace items.now (variable_of_key key.now)) }
{
    let mut place = items.len();
    'items: while place > from {
        place -= 1;
        let item = &items[place];
        if item.name == *key {
            return Some(place);
        }
    }
    None
}

/// Returns the place of the innermost assumption about a name, if there is one. The first `placed` assumptions are in the table.
fn innermost_place(
    items: &[Binding<'_>],
    placed: usize,
    table: &IndexMap<LentName<'_>, usize>,
    key: &LentName<'_>,
) -> Option<usize>
    requires { ArePlaced items.now placed table.now }
    ensures { MatchOption result (¬ (IsOneOf (identifier (variable_of_key key.now)) (assumed_names (entries_of items.now))))
        (IsInnermost items.now (variable_of_key key.now)) }
{
    match place_among_last(items, placed, key) {
        Some(place) => Some(place),
        None => place_of(table, key),
    }
}

/// Gives the first assumption without a place in the table its place.
fn place_next<'a>(
    items: &mut Vec<Binding<'a>>,
    table: &mut IndexMap<LentName<'a>, usize>,
    place: usize,
) -> Result<(), AllocError>
    requires within { place < length items.old.items }
    ensures entries { entries_of items.new.items ≡ entries_of items.old.items }
    ensures len { length items.new.items ≡ length items.old.items }
    ensures placed { OnOk result (ArePlaced items.old.items place table.old → ArePlaced items.new.items (place + 1) table.new) }
    ensures kept { OnErr result (ArePlaced items.old.items place table.old → ArePlaced items.new.items place table.new) }
{
    let item = &mut items[place];
    let Ok(hidden) = table.insert(item.name, place) else {
        return Err(AllocError);
    };
    item.hidden = hidden;
    Ok(())
}

/// Gives a name its hidden place back, or removes the name if there is none. The name must have a
/// place.
fn restore<'a>(
    places: &mut IndexMap<LentName<'a>, usize>,
    name: LentName<'a>,
    hidden: Option<usize>,
)
    ensures { ¬ (number_of places.old (variable_of_key name.entry) ≡ None) → (x : Variable)
        → number_of places.new x ≡ cond (same_variable (variable_of_key name.entry) x) hidden (number_of places.old x) }
{
    let Some(place) = hidden else {
        let key = name;
        places.swap_remove(&key);
        return;
    };
    match places.insert(name, place) {
        Ok(_) => {}
        Err(_) => {}
    }
}

/// Removes the last assumption, and restores the one that it hides.
fn forget_last<'a>(items: &mut Vec<Binding<'a>>, innermost: &mut IndexMap<LentName<'a>, usize>)
    ensures items { items.new.items ≡ take (length items.old.items - 1) items.old.items }
    ensures placed { IsPlaced items.old.items innermost.old → IsPlaced items.new.items innermost.new }
{
    let Some(last) = items.pop() else {
        return;
    };
    restore(innermost, last.name, last.hidden);
}

/// Removes all assumptions except the outermost `depth`.
fn forget_from<'a>(
    items: &mut Vec<Binding<'a>>,
    innermost: &mut IndexMap<LentName<'a>, usize>,
    depth: usize,
)
    ensures items { depth ≤ length items.old.items → items.new.items ≡ take depth items.old.items }
    ensures placed { IsPlaced items.old.items innermost.old → IsPlaced items.new.items innermost.new }
{
    'items: while items.len() > depth {
        forget_last(items, innermost);
    }
}
