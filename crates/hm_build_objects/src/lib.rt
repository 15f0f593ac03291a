//! Writes modules with their verdicts as JSON objects, each on its own line.
//!
//! [`module_line`] returns the line of a module. Its texts of types are those of `scheme_text`.
#![tactic(auto)]

mod declared;
mod entries;
pub mod laws;
mod lines;
mod modules;
mod type_texts;
mod written;

pub use crate::lines::line_of;
pub use crate::modules::{Stated, module_line};
