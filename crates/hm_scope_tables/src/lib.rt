//! Tables for look-ups in a module's scope (Haskell 98 Report, section 5.5).
//!
//! They have the scope's bindings by key, sets of texts and names, and the entries of an interface by name.
#![tactic(auto)]

mod bindings;
mod keys;
mod lookups;
mod name_set;
mod table;
mod text_set;

pub use crate::bindings::{Binding, EntityRef};
pub use crate::keys::{EntityKey, Key};
pub use crate::lookups::{Named, entry_named};
pub use crate::name_set::NameSet;
pub use crate::table::{Meaning, Scope, Slot, is_several, note};
pub use crate::text_set::TextSet;
