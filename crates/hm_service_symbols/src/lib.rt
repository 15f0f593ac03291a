//! Finds what the modules of a source of a checked set declare at their top level.
//!
//! [`symbols_of`] returns the symbols of one source, and [`all_symbols`] those of all.
#![tactic(auto)]

mod asking;
pub mod laws;
mod set_symbols;
mod sources;

pub use crate::asking::{all_symbols, symbols_of};
pub use crate::set_symbols::SetSymbol;
pub use hm_uses_symbols::{Symbol, SymbolKind};
