//! The descriptions of types, synonyms and constructors (Haskell 98 Report, chapters 4 and 5), and the type to which each constructor belongs.
//!
//! The first description of an entity counts.
#![tactic(auto)]

mod constructors;
mod tables;

pub use crate::constructors::{owner_of, owners_of};
pub use crate::tables::Tables;
