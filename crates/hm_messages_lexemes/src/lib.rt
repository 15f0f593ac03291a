//! Finds the lexical faults after the first one of a source.
#![tactic(auto)]

mod foreign;
mod later;
pub mod laws;

pub use crate::later::later_lexemes;
