//! The published interfaces of a build, for readers that take no lock.
//!
//! The publications are one list, which only grows. Each reader sees a prefix of it, and a later look-up never sees a shorter one.
#![tactic(auto)]

mod history;
pub mod laws;
pub mod pages;
mod publication;
mod published;
mod reading;

pub use crate::history::{Front, History, Naming, Opened};
pub use crate::publication::Publication;
pub use crate::published::{LookFault, Published, Sight, Step};
pub use crate::reading::{Found, Reader};
