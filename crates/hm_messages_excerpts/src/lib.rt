//! Shows the line around a place in a source with a mark below it, and counts the columns of a place.
#![tactic(auto)]

mod columns;
mod cutting;
mod drawing;
mod escapes;
mod excerpt;
pub mod laws;
mod lines;
mod marks;

pub use crate::columns::Columns;
pub use crate::cutting::continues;
pub use crate::drawing::add_excerpt;
pub use crate::escapes::shown;
pub use crate::excerpt::Excerpt;
pub use crate::lines::SourceLines;
