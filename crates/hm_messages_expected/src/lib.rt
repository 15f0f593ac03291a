//! Finds the types that are expected of names which aren't in scope, by a check of a changed source.
#![tactic(auto)]

mod costs;
mod expected;
pub mod laws;
mod opened;
mod texts;

pub use crate::expected::{UnboundName, expected_of};
