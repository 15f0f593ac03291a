//! Finds the names in a checked set of sources that mean the same as the name at a place.
//!
//! [`references_of`] finds them, on a thread with a large stack. [`all_names`] returns all names of a build, for a caller that has such a stack.
#![tactic(auto)]

mod asking;
mod imported;
pub mod laws;
mod names;

pub use crate::asking::references_of;
pub use crate::imported::{Imported, View, all_imported, imports_at, module_of};
pub use crate::names::{all_names, source_of};
pub use hm_uses_references::Reference;
