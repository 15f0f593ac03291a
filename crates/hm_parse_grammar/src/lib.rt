//! The grammar of modules, and functions on tokens that read it. The parser reads what the grammar spells, and nothing else.
#![tactic(auto)]

mod fault;
pub mod laws;
mod symbol;
mod text;

pub use crate::fault::ParseFault;
pub use crate::symbol::{Symbol, symbol_of};
pub use crate::text::{name_in, text_of};
