//! The store of a build: a sequential object with a journal, and the records that workers keep of their calls.
//!
//! Each call of [`Store`] is a step of the build object (`specs/Objects`). The type of the store guarantees that its journal is legal.
//! [`Record`] lists the calls of one worker; `Store::audit` compares the records with the journal.
#![tactic(auto)]

pub mod laws;
mod object;
mod record;
mod store;

pub use crate::object::{Claimed, Entry, Refusal, Status, Turn};
pub use crate::record::{Act, Call, Record, noted};
pub use crate::store::Store;
