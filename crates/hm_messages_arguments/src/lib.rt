//! Finds how many arguments a name has in an expression, before and after a change that leaves one out or adds one.
#![tactic(auto)]

mod applied;
mod changed;
mod counts;
pub mod laws;

pub use crate::changed::{Arguments, arguments_with_one_more, arguments_without};
