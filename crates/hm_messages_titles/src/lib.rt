//! Writes what is wrong with a module, in a few words.
#![tactic(auto)]

mod titles;

pub use crate::titles::{NamedFault, fault_title, hidden_title};
