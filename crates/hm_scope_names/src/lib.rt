//! Lists the names that mean one entity in the scope of a module (Haskell 98 Report, section 5.5.2).
#![tactic(auto)]

pub mod laws;
mod meant;

pub use crate::meant::meant_names;
