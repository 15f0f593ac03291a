//! Finds advice for a syntax fault: a hint, or a change of one token after which the source can be parsed.
//!
//! The parser itself decides whether a change works, because the changed tokens must spell modules. So each result is a theorem about the
//! grammar. This crate chooses which of several changes it finds first.
#![tactic(auto)]

mod advice;
pub mod laws;
mod search;
mod trial;

pub use crate::advice::{Search, advice_at};
