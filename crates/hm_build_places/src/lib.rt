//! Finds what the name at a place of a build's sources means: its kind, where it is bound, and its type.
#![tactic(auto)]

mod answers;
mod bound;
mod closed;
mod columns;
mod entities;
mod finding;
mod here;
pub mod laws;
mod names;
mod read;
mod typed;
mod uses;
mod views;

pub use crate::answers::{PlaceQuestion, place_answer};
pub use hm_build_place_texts::PlaceFormat;
