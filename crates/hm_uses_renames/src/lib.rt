//! Decides whether the names of a set are those of another one, with one name renamed, and renames it in the texts.
//!
//! [`are_renamed`] compares the names, and [`renamed_text`] makes a text.
#![tactic(auto)]

mod comparing;
mod firsts;
pub mod laws;
mod meanings;
mod standing;
mod texts;

pub use crate::comparing::are_renamed;
pub use crate::texts::renamed_text;
