//! Sets of texts.

ghost use Rattle.std.specs.Prelude.{◌≡◌, ◌++◌, ◌∷◌, [], IfOk, OnOk, cond, not, length, position};
ghost use Rattle.hm_names.specs.Texts.{is_text_among, same_text};

use indexmap::IndexSet;
use std::alloc::{AllocError, Global};
use std::marker::Model;

/// The number of texts for which room is made at once. Few sets have only a few texts, because short lists are searched without a set.
const ROOM: usize = 32;

/// A set of texts. Contracts see a list, in the order of insertion.
pub struct TextSet<'a> {
    keys: IndexSet<&'a str>,
}

impl Drop for TextSet<'_> {
    fn drop(self) {
        let TextSet { keys: _keys } = self;
    }
}

impl<'a> Model for TextSet<'a> {
    ghost use Rattle.std.specs.Prelude.{List, ℕ, map};

    ghost Value = { List (List ℕ) };

    ghost view = { λ s. map (λ k. k.now) s.keys.keys };
}

impl<'a> TextSet<'a> {
    /// Returns an empty set.
    pub fn new(alloc: Global) -> TextSet<'a>
        ensures { result ≡ [] }
    {
        TextSet {
            keys: IndexSet::new(alloc),
        }
    }

    /// Returns whether the set has the text.
    pub fn contains(&self, text: &str) -> bool
        ensures { result ≡ is_text_among text.now self.now }
    {
        self.keys.contains(text)
    }

    /// Returns the number of texts.
    pub fn len(&self) -> usize
        ensures { result ≡ length self.now }
    {
        self.keys.len()
    }

    /// Returns the place of the text in the order of insertion, if the set has it.
    pub fn place_of(&self, text: &str) -> Option<usize>
        ensures { result ≡ position (same_text text.now) self.now }
    {
        self.keys.get_index_of(text)
    }

    /// Adds the text. Returns whether it is new.
    pub fn insert(&mut self, text: &'a str) -> Result<bool, AllocError>
        ensures added { IfOk result (λ r. r ≡ not (is_text_among text.now self.old)) }
        ensures texts { OnOk result (self.new ≡ cond (is_text_among text.now self.old) self.old (self.old ++ text.now ∷ [])) }
    {
        make_room(&mut self.keys)?;
        Ok(self.keys.insert(text)?)
    }
}

/// Makes room in an empty set.
fn make_room(keys: &mut IndexSet<&str>) -> Result<(), AllocError>
    ensures { keys.new.keys ≡ keys.old.keys }
{
    if keys.is_empty() {
        keys.reserve(ROOM)?;
    }
    Ok(())
}
