//! Type variables, and the places where they occur first.

ghost use Rattle.std.specs.Prelude.{◌≡◌, ◌++◌, ◌∷◌, [], ℕ, List, IfOk, OnOk, length, map};
ghost use Rattle.hm_names.specs.Texts.{is_text_among};
ghost use Rattle.hm_names.specs.TypeVariables.{ArePlaces};
ghost use Rattle.hm_names.specs.Types.{place};
ghost use Rattle.hm_names.specs.Variables.{texts};

use crate::variables::LentNames;
use hm_syntax::Name;
use indexmap::IndexMap;
use std::alloc::{AllocError, Global};
use std::marker::Model;

/// The texts of type variables, in order. A text may occur more than once.
pub struct TypeVariables<'a> {
    texts: Vec<&'a str>,
    first: IndexMap<&'a str, usize>,
}

impl Drop for TypeVariables<'_> {
    fn drop(self) {
        let TypeVariables {
            texts: _texts,
            first: _first,
        } = self;
    }
}

impl<'a> Model for TypeVariables<'a> {
    ghost use Rattle.std.specs.Prelude.{List, ℕ, map};

    ghost Value = { List (List ℕ) };

    ghost view = { λ v. map (λ k. k.now) v.texts.items };

    ghost use Rattle.hm_names.specs.TypeVariables.{ArePlaces};

    ghost invariant = { λ v. ArePlaces (map (λ k. k.now) v.texts.items) v.first };
}

impl<'a> TypeVariables<'a> {
    /// Returns the variables with these names.
    pub fn of(alloc: Global, names: &LentNames<'a>) -> Result<TypeVariables<'a>, AllocError>
        ensures { IfOk result (λ v. v ≡ texts names.now) }
    {
        let texts = texts_of(alloc, names.as_slice())?;
        let first = first_places(alloc, texts.as_slice())?;
        Ok(TypeVariables { texts, first })
    }

    /// Returns the number of occurrences.
    pub fn len(&self) -> usize
        ensures { result ≡ length self.now }
    {
        self.texts.len()
    }

    /// Returns whether a text is among them.
    pub fn contains(&self, text: &str) -> bool
        ensures { result ≡ is_text_among text.now self.now }
    {
        self.first.contains_key(text)
    }

    /// Returns the first place of a text, or the number of occurrences if it has none.
    pub fn place(&self, text: &str) -> usize
        ensures { result ≡ place text.now self.now }
    {
        match self.first.get(text) {
            Some(place) => *place,
            None => self.texts.len(),
        }
    }
}

/// Returns the texts of names.
fn texts_of<'a>(alloc: Global, names: &[&'a Name]) -> Result<Vec<&'a str>, AllocError>
    ensures { IfOk result (λ ts. map (λ t. t.now) ts.items ≡ map (λ n. n.now.text) names.now) }
{
    let mut texts = Vec::new(alloc);
    'names: for name in names {
        texts.push(name.as_str())?;
    }
    Ok(texts)
}

// Why: docs/DECISIONS.md, "Numbers of declared types".
/// Returns the first place of each text.
fn first_places<'a>(
    alloc: Global,
    texts: &[&'a str],
) -> Result<IndexMap<&'a str, usize>, AllocError>
    ensures { IfOk result (λ table. ArePlaces (map (λ t. t.now) texts.now) table) }
{
    let mut places = IndexMap::new(alloc);
    'texts: for (place, text) in texts.iter().enumerate() {
        note_place(&mut places, text, place)?;
    }
    Ok(places)
}

/// Adds the place of a text, unless it has an earlier one.
fn note_place<'a>(
    places: &mut IndexMap<&'a str, usize>,
    text: &'a str,
    place: usize,
) -> Result<(), AllocError>
    ensures { OnOk result ((xs : List (List ℕ)) → place ≡ length xs → ArePlaces xs places.old → ArePlaces (xs ++ text.now ∷ []) places.new) }
{
    if places.contains_key(text) {
        return Ok(());
    }
    places.insert(text, place)?;
    Ok(())
}
