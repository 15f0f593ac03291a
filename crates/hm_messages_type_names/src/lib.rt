//! The names with which types are shown in notes: synonyms of the module, and bare names that mean types in it.
#![tactic(auto)]

mod entities;
pub mod laws;
mod names;
mod prelude;

pub use crate::names::{Home, type_names};
