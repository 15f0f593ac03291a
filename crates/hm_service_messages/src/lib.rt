//! Reads the messages of a run, which are JSON objects on lines of their own, as values.
#![tactic(auto)]

mod choosing;
mod diagnostic;
mod members;
mod parsing;
mod reading;
mod spots;
mod writing;

pub use crate::choosing::{diagnostics_in, overlaps};
pub use crate::diagnostic::{Diagnostic, Edit, Told};
pub use crate::reading::{ReadingFault, told_in};
pub use crate::spots::{Bound, bound_in};
pub use hm_messages_excerpts::Columns;
pub use hm_messages_json::{Level, Position, Range};
