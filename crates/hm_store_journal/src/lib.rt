//! The list of all entries of a build, which only proofs have, and a token of it for each worker.
//!
//! The lock has the whole list. A token has seen a prefix of it.
#![tactic(auto)]

mod journal;
mod rule;

pub use crate::journal::{Journal, Known, Unnamed};
pub use crate::rule::View;
