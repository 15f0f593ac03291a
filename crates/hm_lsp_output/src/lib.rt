//! Writes the messages of a language server to its client.
#![tactic(auto)]

pub mod laws;
mod sending;

pub use crate::sending::{SendFault, send};
