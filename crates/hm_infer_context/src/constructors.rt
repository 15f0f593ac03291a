//! The declared schemes of constructors.

ghost use Rattle.std.specs.Prelude.{◌≡◌, ℕ, IfOk, option_map, option_copied};
ghost use Rattle.hm_types.specs.Shape.{type_of};
ghost use Rattle.hm_typing.specs.Syntax as typed;
ghost use Rattle.hm_names.specs.Syntax.{literal_of};
ghost use Rattle.hm_unify.specs.WellFormed.{IsWellFormed};
ghost use Rattle.hm_infer_context.specs.Problems.{monotype};
ghost use Rattle.hm_names_keys.specs.Keys.{variable_of_key};
ghost use Rattle.hm_names.specs.Described.{first_of};
ghost use Rattle.hm_names.specs.Types.{entity_of};
ghost use Rattle.hm_infer_context.specs.Constructors.{known_of};
ghost use Rattle.hm_infer_context.specs.ConstructorPlaces.{AreFirstPlaces, key_of_entity};
ghost use Rattle.hm_infer_context.specs.Kept.{schemes_of};
ghost use Rattle.hm_infer_context.specs.KnownSchemes.{scheme_in};

use crate::environment::place_of;
use crate::shapes::{list_of, prelude_type};
use crate::special::{special_scheme, unit_scheme};
use hm_names_keys::LentName;
use hm_syntax::{Literal, LiteralKind, Name};
use hm_types::{Scheme, Text, Ty};
use indexmap::IndexMap;
use std::alloc::{AllocError, Global};
use std::marker::Model;

/// The scheme of a constructor: borrowed from an interface if the constructor is imported, owned
/// otherwise.
#[derive(Drop)]
pub enum KnownScheme<'a> {
    Made(Scheme),
    Lent(&'a Scheme),
}

impl<'a> KnownScheme<'a> {
    /// Borrows the scheme.
    pub(crate) fn as_scheme(&self) -> &Scheme
        ensures { result.now ≡ scheme_in self.now }
    {
        match self {
            KnownScheme::Made(scheme) => scheme,
            KnownScheme::Lent(scheme) => scheme,
        }
    }
}

/// A constructor: the module that declares it, its name there, and its scheme.
#[derive(Drop)]
pub struct Entry<'a> {
    pub module: &'a str,
    pub name: &'a str,
    pub scheme: KnownScheme<'a>,
}

// Why: docs/DECISIONS.md, "Known constructors".
/// The constructors that a module uses, with their schemes, and the types of Prelude that conditions and literals have.
///
/// If a constructor has several entries, the first counts. A table has its place. Special
/// constructors, such as those of tuples, need no entry.
pub struct Constructors<'a> {
    home: Text,
    entries: Vec<Entry<'a>>,
    places: IndexMap<LentName<'a>, usize>,
    truth: Ty,
    integer: Ty,
    letter: Ty,
}

impl Drop for Constructors<'_> {
    fn drop(self) {
        let Constructors {
            home: _home,
            entries: _entries,
            places: _places,
            truth: _truth,
            integer: _integer,
            letter: _letter,
        } = self;
    }
}

impl<'a> Model for Constructors<'a> {
    ghost use Rattle.hm_infer_context.specs.Constructors.{Table, coded_table};

    ghost Value = { Table };

    ghost coded = { coded_table };

    ghost use Rattle.hm_infer_context.specs.Kept.{schemes_of};

    ghost view = { λ s. record { home = s.home; schemes = schemes_of s.entries.items } };

    ghost use Rattle.std.specs.Prelude.{◌≡◌, codes};
    ghost use Rattle.hm_types.specs.Shape.{type_of};
    ghost use Rattle.hm_infer_context.specs.ConstructorPlaces.{AreFirstPlaces};
    ghost use Rattle.hm_infer_context.specs.PreludeTypes.{prelude_type_of};

    ghost invariant = { λ s. record { placed : AreFirstPlaces s.entries.items s.entries.items s.places; truth : type_of s.truth ≡ prelude_type_of (codes "Bool"); integer : type_of s.integer ≡ prelude_type_of (codes "Int"); letter : type_of s.letter ≡ prelude_type_of (codes "Char") } };
}

impl<'a> Constructors<'a> {
    ghost use Rattle.hm_infer_context.specs.Kept.{schemes_of};

    /// Returns the constructors of a module with this name.
    pub fn new(
        alloc: Global,
        home: Text,
        entries: Vec<Entry<'a>>,
    ) -> Result<Constructors<'a>, AllocError>
        ensures { IfOk result (λ constructors. constructors ≡ record { home = home; schemes = schemes_of entries.entry.items }) }
    {
        let truth = prelude_type(alloc, "Bool")?;
        let integer = prelude_type(alloc, "Int")?;
        let letter = prelude_type(alloc, "Char")?;
        let places = places_of(alloc, &entries)?;
        Ok(Constructors {
            home,
            entries,
            places,
            truth,
            integer,
            letter,
        })
    }

    /// Returns the type of conditions.
    pub fn truth(&self) -> &Ty
        ensures shape { monotype (type_of result.now) ≡ typed.bool }
        ensures given { (g : ℕ) → IsWellFormed g (type_of result.now) }
    {
        &self.truth
    }

    /// Returns the type of a literal.
    pub fn literal_type(&self, alloc: Global, literal: &Literal) -> Result<Ty, AllocError>
        ensures shape { IfOk result (λ t. monotype (type_of t) ≡ typed.literal_type (literal_of literal.now)) }
        ensures given { IfOk result (λ t. (g : ℕ) → IsWellFormed g (type_of t)) }
    {
        match &literal.kind {
            LiteralKind::Integer(_) => Ok(self.integer.copy(alloc)?),
            LiteralKind::Character(_) => Ok(self.letter.copy(alloc)?),
            LiteralKind::Text(_) => {
                let letter = self.letter.copy(alloc)?;
                Ok(list_of(alloc, letter)?)
            }
        }
    }

    /// Returns the scheme of a constructor, or that of `()` if it isn't special and has no entry.
    pub(crate) fn find(&self, alloc: Global, name: &Name) -> Result<KnownScheme<'_>, AllocError>
        ensures { IfOk result (λ found. scheme_in found ≡ (known_of self.now).scheme name.now) }
    {
        match special_scheme(alloc, name)? {
            Some(scheme) => Ok(KnownScheme::Made(scheme)),
            None => match entered(&self.entries, &self.places, name) {
                Some(scheme) => Ok(KnownScheme::Lent(scheme)),
                None => Ok(KnownScheme::Made(unit_scheme(alloc)?)),
            },
        }
    }
}

/// Returns the place of the first entry of each constructor.
fn places_of<'a>(
    alloc: Global,
    entries: &[Entry<'a>],
) -> Result<IndexMap<LentName<'a>, usize>, AllocError>
    ensures { IfOk result (AreFirstPlaces entries.now entries.now) }
{
    let mut places = IndexMap::with_capacity(alloc, entries.len())?;
    'entries: for behind in 0..entries.len() {
        let place = entries.len() - 1 - behind;
        let entry = &entries[place];
        let key = LentName {
            qualifier: Some(entry.module),
            text: entry.name,
        };
        places.insert(key, place)?;
    }
    Ok(places)
}

/// Returns a resolved name as the key of a constructor.
fn entity_key(name: &Name) -> LentName<'_>
    ensures { variable_of_key result ≡ key_of_entity (entity_of name.now) }
{
    let module = match &name.qualifier {
        Some(text) => text.as_str(),
        None => "",
    };
    LentName {
        qualifier: Some(module),
        text: name.text.as_str(),
    }
}

/// Returns the scheme of the first entry of a constructor, if it has one.
fn entered<'b>(
    entries: &'b [Entry<'_>],
    places: &IndexMap<LentName<'_>, usize>,
    name: &Name,
) -> Option<&'b Scheme>
    requires { AreFirstPlaces entries.now entries.now places.now }
    ensures { option_copied result ≡ option_map (λ d. d.scheme) (first_of (λ d. d.entity) (entity_of name.now) (schemes_of entries.now)) }
{
    match place_of(places, &entity_key(name)) {
        Some(place) => Some(entries[place].scheme.as_scheme()),
        None => None,
    }
}
