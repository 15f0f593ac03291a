//! Texts with shared bytes, for names and parts of names; and a table with which a parser shares them.
//!
//! Copying a [`Text`] only counts one more owner. A [`TextTable`] returns the same text for all places of a source with the same bytes.
#![tactic(auto)]

ghost use Rattle.std.specs.Prelude.{◌≡◌, ◌↔◌, IfOk, IsTrue, string_bytes};

mod tables;

use std::alloc::{AllocError, Global};
use std::marker::Model;
use std::sync::ArcStr;
pub use tables::TextTable;

// Why: docs/DECISIONS.md, "Shared texts".
/// A name, or a part of one. Contracts see its bytes.
pub struct Text {
    text: ArcStr,
}

impl Drop for Text {
    fn drop(self) {
        let Text { text: _text } = self;
    }
}

impl Model for Text {
    ghost use Rattle.std.specs.Prelude.{List, ℕ};
    ghost use Rattle.std.specs.Arc.{arc_str_bytes};

    ghost Value = { List ℕ };

    ghost view = { λ s. arc_str_bytes s.text };
}

impl Text {
    /// Makes a text of a `String`, unless memory runs out.
    pub fn new(text: String) -> Result<Text, AllocError>
        ensures { IfOk result (λ name. name ≡ string_bytes text) }
    {
        Ok(Text {
            text: ArcStr::from_string(text)?,
        })
    }

    /// Makes a text of a `str`, unless memory runs out.
    pub fn from_str(alloc: Global, text: &str) -> Result<Text, AllocError>
        ensures { IfOk result (λ name. name ≡ text.now) }
    {
        Text::new(String::from_str(alloc, text)?)
    }

    /// Returns the text as a `str`.
    pub fn as_str(&self) -> &str
        ensures { result.now ≡ self.now }
    {
        self.text.as_str()
    }

    /// Returns a copy that shares the bytes, unless memory runs out.
    pub fn copy(&self) -> Result<Text, AllocError>
        ensures { IfOk result (λ text. text ≡ self.now) }
    {
        Ok(Text {
            text: self.text.clone()?,
        })
    }

    /// Returns whether both have the same bytes.
    pub fn is_same(&self, other: &Text) -> bool
        ensures { IsTrue result ↔ (self.now ≡ other.now) }
    {
        self.as_str() == other.as_str()
    }
}
