//! Makes the edits of a source by which a definition has a type, and the one that changes a signature, for messages to programs.
//!
//! [`changes_of`] returns those of a mend. With them the definition has a type (`edits_mend`). The checker hasn't accepted the edit of a signature
//! ([`signature_changes`]).
#![tactic(auto)]

mod changes;
pub mod laws;
mod signatures;
mod spans;

pub use crate::changes::changes_of;
pub use crate::signatures::signature_changes;
pub use crate::spans::{first_part, second_part, span_of};
