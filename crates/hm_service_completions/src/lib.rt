//! Finds the names that may be written at a place of a checked set of sources, each with its type.
//!
//! They are those that mean one entity in the scope of the module at the place. Local variables aren't among them.
#![tactic(auto)]

mod finding;
pub mod laws;
mod modules;

pub use crate::finding::completions_of;
pub use hm_scope_typed_names::TypedName;
