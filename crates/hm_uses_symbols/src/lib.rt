//! Finds what a module declares at its top level: types, type synonyms, constructors and variables.
//!
//! [`add_symbols`] needs only the tree of a module, so the module may have faults.
#![tactic(auto)]

mod declared;
pub mod laws;
mod once;
mod patterns;
mod symbol;

pub use crate::once::add_symbols;
pub use crate::symbol::{Symbol, SymbolKind};
