//! Finds the signature of another definition from which a type fault follows.
#![tactic(auto)]

mod causes;
pub mod laws;

pub use crate::causes::{Cause, cause_of};
