//! A language server: holds the texts of a client's documents and of the files beside them, and replies with what the checker says of them.
//!
//! [`Server::take`] takes the body of a message, and [`Server::publish`] sends the diagnostics of all sources.
#![tactic(auto)]

pub mod laws;
mod second;
mod server;
mod taken;
mod telling;

pub use crate::server::{Server, SourceFile};
pub use crate::taken::Taken;
