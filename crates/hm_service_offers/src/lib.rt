//! Finds the changes of a source in a held set that remove its faults, by a check of the set that each of them makes.
//!
//! [`fixes_of`] tries the changes that the messages for a range say, and returns those that are fixes.
#![tactic(auto)]

mod changed;
mod judging;
pub mod laws;
mod offering;
mod trying;

pub use crate::offering::fixes_of;
pub use hm_service_candidates::{Candidate, SourceRange};
