//! The store of a build behind a lock, shared by its workers.
//!
//! Each worker has a [`Pass`], which records its calls. The calls of [`Shared`] take the lock. Look-ups are calls of the pass, and take no lock.
#![tactic(auto)]

mod dealing;
pub mod laws;
mod listed;
mod passes;
mod records;
mod shared;

pub use crate::dealing::{Crew, SharedFault};
pub use crate::listed::Listed;
pub use crate::passes::Pass;
pub use crate::records::Records;
pub use crate::shared::{Brands, Locked, Shared};
