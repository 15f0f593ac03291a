//! Makes the changes of a source that a message about a name or a token says, for messages to programs.
//!
//! They write a near name in place of a name, put a token in, replace it or leave it out. The checker hasn't accepted the source with them.
#![tactic(auto)]

pub mod laws;
mod names;
mod tokens;
mod writing;

pub use crate::names::name_changes;
pub use crate::tokens::{PlacedToken, token_changes};
pub use crate::writing::after_text;
