//! What is at a place of a source, as a value, with its text for readers and its JSON object for programs.
//!
//! Both texts are made from one value. [`place_text`] returns either of them.
#![tactic(auto)]

mod found;
pub mod laws;
mod objects;
mod prose;
mod texts;

pub use crate::found::{
    Bound, DeclaredType, Definition, HereType, PlaceFound, PlaceItem, PlaceName, PlaceType,
    SourceSpot,
};
pub use crate::texts::{PlaceFormat, place_text, refused_text};
