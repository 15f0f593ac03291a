//! Finds the names at a place of a module among its uses, and the place where an entity is declared.
#![tactic(auto)]

mod declared;
pub mod laws;
mod on_names;

pub use crate::declared::declared_at;
pub use crate::on_names::{is_on, qualifier_len, uses_at};
