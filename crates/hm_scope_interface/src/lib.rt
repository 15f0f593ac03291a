//! Makes the interface of a core, for given schemes of its variables.
#![tactic(auto)]

mod exporting;

pub use crate::exporting::export;
