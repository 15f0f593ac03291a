//! Makes the diagnostics of runs of sources that are named by their numbers.
#![tactic(auto)]

mod messages;

pub use crate::messages::{finished_told, refused_told};
