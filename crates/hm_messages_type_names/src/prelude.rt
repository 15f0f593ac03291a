//! The names of Prelude's types.
ghost use Rattle.std.specs.Prelude.{◌≡◌, All, true};

use hm_types::{Interface, SynonymEntry, TypeEntry};

/// Returns whether no type has this name.
fn is_no_type(entries: &[TypeEntry], name: &str) -> bool
    ensures { result ≡ true → All (λ t. ¬ (t.name ≡ name.now)) entries.now }
{
    entries.iter().all(|entry| entry.name.as_str() != name)
}

/// Returns whether no synonym has this name.
fn is_no_synonym(entries: &[SynonymEntry], name: &str) -> bool
    ensures { result ≡ true → All (λ t. ¬ (t.name ≡ name.now)) entries.now }
{
    entries.iter().all(|entry| entry.name.as_str() != name)
}

/// Returns whether an interface exports no type or synonym with this name.
pub(crate) fn is_free(interface: &Interface, name: &str) -> bool
    ensures types { result ≡ true → All (λ t. ¬ (t.name ≡ name.now)) interface.now.types }
    ensures synonyms { result ≡ true → All (λ t. ¬ (t.name ≡ name.now)) interface.now.synonyms }
{
    is_no_type(interface.types(), name) && is_no_synonym(interface.synonyms(), name)
}
