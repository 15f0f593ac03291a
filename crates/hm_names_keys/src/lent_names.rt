//! Variables of trees as keys of tables.

ghost use Rattle.std.specs.Prelude.{◌≡◌};
ghost use Rattle.hm_names_keys.specs.Variables.{variable_of};
ghost use Rattle.hm_names_keys.specs.Keys.{variable_of_key};
ghost use Rattle.hm_names_keys.specs.Hashed.{same_writes, writes_of};

use hm_syntax::Name;
use std::hash::{Hash, Hasher};

// Why: docs/DECISIONS.md, "Hashes".
/// A variable, by its qualifier and text, borrowed from a tree.
#[derive(Clone, Copy, Debug, PartialEq, Eq)]
pub struct LentName<'a> {
    pub qualifier: Option<&'a str>,
    pub text: &'a str,
}

/// Hashes only the texts. The derived one would also hash a number for the qualifier and a byte after each text.
impl<'a> Hash for LentName<'a> {
    ghost hash_input = { writes_of };

    ghost respects_eq = { same_writes };

    fn hash<H: Hasher>(&self, state: &mut H) {
        if let Some(qualifier) = self.qualifier {
            state.write(qualifier.as_bytes());
        }
        state.write(self.text.as_bytes());
    }
}

/// Returns the variable with this name.
pub fn key_of(name: &Name) -> LentName<'_>
    ensures { variable_of_key result ≡ variable_of name.now }
{
    let qualifier = match &name.qualifier {
        Some(text) => Some(text.as_str()),
        None => None,
    };
    LentName {
        qualifier,
        text: name.text.as_str(),
    }
}
