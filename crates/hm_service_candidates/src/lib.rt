//! The changes of a source that the messages of a fault say, and the texts that they make.
//!
//! [`candidates_of`] chooses the messages of a fault, [`candidates_in`] those for a range, and [`edited_text`] makes their edits.
#![tactic(auto)]

mod candidates;
mod cursors;
mod edited;
pub mod laws;
mod ranges;

pub use crate::candidates::{MOST_TRIED, candidates_of};
pub use crate::edited::{EditedText, edited_text};
pub use crate::ranges::{Candidate, SourceRange, candidates_in};
