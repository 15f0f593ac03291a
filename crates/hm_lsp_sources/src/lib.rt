//! The sources of a language server: the documents of its client, and the files beside them, each with the text that is held for it.
#![tactic(auto)]

mod documents;
mod following;
pub mod laws;
mod source;
mod uris;

pub use crate::following::Sources;
pub use crate::source::{Source, name_of, number_of};
pub use crate::uris::uri_of;
