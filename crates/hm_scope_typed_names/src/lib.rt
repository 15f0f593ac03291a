//! Lists the names that mean one entity in the scope of a module and begin with a prefix, each with its type.
#![tactic(auto)]

pub mod laws;
mod schemes;
mod typed;

pub use crate::typed::{TypedName, Wanted, typed_names};
