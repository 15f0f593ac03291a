//! Serves one client: reads frames, takes their messages in order, and sends replies and diagnostics.
//!
//! [`serve`] does so for any reader and writer. A [`Disk`] has the files of the folders that the client opens.
#![tactic(auto)]

mod disk;
mod faults;
pub mod laws;
mod serving;
mod taking;
mod turns;

pub use crate::disk::{Disk, OnDisk};
pub use crate::faults::ServeFault;
pub use crate::serving::{Client, serve};
pub use crate::taking::Serving;
