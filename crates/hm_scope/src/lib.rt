//! The core of a module, or all faults of the first phase that has any (Haskell 98 Report, chapters 4 and 5).
//!
//! `declared_synonyms`, `needed_synonyms`, `finished_synonyms` and `recursive_synonyms` are about the module's own synonyms, `phases` and
//! `answering` about the order of faults.
#![tactic(auto)]

mod answering;
mod declared_synonyms;
mod finished_synonyms;
mod needed_synonyms;
mod phases;
mod recursive_synonyms;
mod scoping;
mod type_names;
mod used_types;

pub use crate::scoping::{scope, scope_within};
