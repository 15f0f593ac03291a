//! Finds the names in the modules of a set that mean the same as the name at a place.
//!
//! [`SetUse`] is a use with the number of its module, and [`references_at`] looks among such uses. [`is_same`] decides whether two mean the same.
#![tactic(auto)]

mod finding;
pub mod laws;
mod same;
mod set_uses;

pub use crate::finding::{Reference, names_at, reference_of, references_at};
pub use crate::same::{is_meaning, is_same};
pub use crate::set_uses::{SetUse, add_uses};
