//! The variables of patterns, with their types.

ghost use Rattle.std.specs.Prelude.{◌≡◌, ◌∷◌, [], List, take, MatchOption, OnOk};
ghost use Rattle.hm_types.specs.Shape.{type_of};
ghost use Rattle.hm_typing.specs.Names.{IsOneOf};
ghost use Rattle.hm_infer_context.specs.Patterns.{IsTypeOf, names_of};
ghost use Rattle.hm_infer_context.specs.Kept.{variables_of};
ghost use Rattle.hm_infer_context.specs.Places.{IsPlaceOf, few};
ghost use Rattle.hm_names_keys.specs.Keys.{variable_of_key};
ghost use Rattle.hm_names_keys.specs.Variables.{identifier};
ghost use Rattle.hm_names.specs.Syntax.{name_of};

use hm_names_keys::{LentName, key_of};
use hm_syntax::Name;
use hm_types::Ty;
use indexmap::IndexMap;
use std::alloc::{AllocError, Global};
use std::marker::Model;

/// The number of variables that are searched one by one. The table has the others. Most patterns have
/// few variables, and filling a table costs more than searching a few variables.
const FEW: usize = 8;

/// A variable with its type.
#[derive(Drop)]
pub struct Variable<'a> {
    pub name: LentName<'a>,
    pub ty: Ty,
}

/// The variables of patterns, with their types. Contracts see them as a list, the last first. A
/// table has a place of each name after the first few.
pub struct Variables<'a> {
    alloc: Global,
    items: Vec<Variable<'a>>,
    places: IndexMap<LentName<'a>, usize>,
}

impl Drop for Variables<'_> {
    fn drop(self) {
        let Variables {
            alloc: _,
            items: _items,
            places: _places,
        } = self;
    }
}

impl<'a> Model for Variables<'a> {
    ghost use Rattle.std.specs.Prelude.{List};
    ghost use Rattle.hm_infer_context.specs.Patterns.{Variable, coded_variable};
    ghost use Rattle.std.specs.Coded.{coded_list};

    ghost Value = { List Variable };

    ghost coded = { coded_list coded_variable };

    ghost use Rattle.hm_infer_context.specs.Kept.{variables_of};

    ghost view = { λ s. variables_of s.items.items };

    ghost use Rattle.hm_infer_context.specs.Places.{AreNoted};

    ghost invariant = { λ s. AreNoted s.items.items s.places };
}

impl<'a> Variables<'a> {
    ghost use Rattle.hm_infer_context.specs.Kept.{variables_of};

    /// Returns an empty list of variables.
    pub fn new(alloc: Global) -> Variables<'a>
        ensures { result ≡ [] }
    {
        Variables {
            alloc,
            items: Vec::new(alloc),
            places: IndexMap::new(alloc),
        }
    }

    /// Returns the allocator of the list.
    pub(crate) fn allocator(&self) -> Global {
        self.alloc
    }

    /// Adds a variable.
    pub(crate) fn add(&mut self, name: LentName<'a>, ty: Ty) -> Result<(), AllocError>
        ensures { OnOk result (self.new ≡ (record { name = identifier (variable_of_key name.entry); ty = type_of ty } ∷ self.old)) }
    {
        let place = self.items.len();
        self.items.push(Variable { name, ty })?;
        if place < FEW {
            return Ok(());
        }
        match self.places.insert(name, place) {
            Ok(_) => Ok(()),
            Err(_) => {
                self.items.pop();
                Err(AllocError)
            }
        }
    }

    /// Returns the type of a variable with this name, if there is one.
    pub(crate) fn find(&self, name: &Name) -> Option<&Ty>
        ensures { MatchOption result (¬ (IsOneOf (name_of name.now) (names_of self.now))) (λ t. IsTypeOf (name_of name.now) (type_of t.now) self.now) }
    {
        let key = key_of(name);
        match place_among_few(&self.items, &key) {
            Some(place) => return Some(&self.items[place].ty),
            None => {}
        }
        if self.items.len() <= FEW {
            return None;
        }
        match self.places.get(&key) {
            Some(place) => Some(&self.items[*place].ty),
            None => None,
        }
    }

    /// Returns the variables in the order in which they were added.
    pub fn as_slice(&self) -> &[Variable<'a>]
        ensures { variables_of result.now ≡ self.now }
    {
        &self.items
    }

    /// Returns the variables as a `Vec`, in the order in which they were added. Allocates nothing.
    pub(crate) fn into_items(self) -> Vec<Variable<'a>>
        ensures { variables_of result.items ≡ self.entry }
    {
        let Variables {
            alloc: _,
            items,
            places: _places,
        } = self;
        items
    }
}

/// Returns the place of a variable with this name among the first few, if there is one.
fn place_among_few(items: &[Variable<'_>], key: &LentName<'_>) -> Option<usize>
    ensures { MatchOption result (¬ (IsOneOf (identifier (variable_of_key key.now)) (names_of (variables_of (take few items.now)))))
        (λ p. IsPlaceOf items.now (variable_of_key key.now) p) }
{
    let count = FEW.min(items.len());
    'items: for place in 0..count {
        let item = &items[place];
        if item.name == *key {
            return Some(place);
        }
    }
    None
}
