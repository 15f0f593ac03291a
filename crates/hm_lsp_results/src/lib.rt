//! Finds the results of requests about what texts mean, and makes their replies.
#![tactic(auto)]

mod asking;
mod completing;
mod declared;
mod faults;
mod fixing;
mod folder;
pub mod laws;
mod preparing;
mod queries;
mod referring;
mod renames;
mod replying;
mod walking;

pub use crate::asking::Asked;
pub use crate::replying::{failure, replied};
