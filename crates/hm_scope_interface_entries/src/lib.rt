//! Makes the entries of a core's interface, for given schemes of its variables.
#![tactic(auto)]

mod entries;
mod known_exports;

pub use crate::entries::{TypeEntries, constructor_entries, type_entries, value_entries};
