//! Writes the report of a build as JSON objects, each on its own line.
//!
//! [`listing`] returns the lines of a build, [`refusal_line`] that of a refused set.
#![tactic(auto)]

mod blame;
mod counts;
pub mod laws;
mod listings;
mod refusals;

pub use crate::listings::listing;
pub use crate::refusals::refusal_line;
