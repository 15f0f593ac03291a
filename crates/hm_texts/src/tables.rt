//! A table that makes one text for equal bytes.

ghost use Rattle.std.specs.Prelude.{◌≡◌, IfOk};
ghost use Rattle.std.specs.Str.{IsUtf8};

use crate::Text;
use std::alloc::{AllocError, Global};
use std::collections::HashMap;

/// A table with more texts than this is replaced instead of cleared, because clearing a large table takes long.
const MOST_CLEARED: usize = 1024;

// Why: docs/DECISIONS.md, "Texts of names".
/// The texts that were made so far, by their bytes in a source.
///
/// A found text is compared with the bytes that are looked up, so no contract depends on the contents of the table.
#[derive(Drop)]
pub struct TextTable<'a> {
    texts: HashMap<&'a [u8], Text>,
}

impl<'a> TextTable<'a> {
    /// Returns a table without texts.
    pub fn new(alloc: Global) -> TextTable<'a> {
        TextTable {
            texts: HashMap::new(alloc),
        }
    }

    /// Returns the text of these bytes. It shares them with the text that an earlier call returned for equal bytes.
    ///
    /// # Errors
    ///
    /// If memory runs out.
    pub fn text(&mut self, alloc: Global, bytes: &'a [u8]) -> Result<Text, AllocError>
        requires { IsUtf8 bytes.now }
        ensures { IfOk result (λ text. text ≡ bytes.now) }
    {
        if let Some(found) = self.texts.get(bytes) {
            if found.as_str().as_bytes() == bytes {
                return found.copy();
            }
        }
        match std::str::from_utf8(bytes) {
            Ok(text) => {
                let made = Text::from_str(alloc, text)?;
                self.texts.insert(bytes, made.copy()?)?;
                Ok(made)
            }
            Err(_) => unreachable!(),
        }
    }

    /// Removes all texts. Later calls share none with earlier ones.
    pub fn forget(&mut self, alloc: Global) {
        if self.texts.len() > MOST_CLEARED {
            self.texts = HashMap::new(alloc);
        } else {
            self.texts.clear();
        }
    }
}
