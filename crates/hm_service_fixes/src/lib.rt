//! Decides whether a change of a source in a held set removes a fault and leaves nothing worse.
//!
//! [`is_fix`] decides it by the verdicts before and after a change.
#![tactic(auto)]

mod changes;
mod deciding;
mod faults;
mod judged;
pub mod laws;
mod modules;
mod moves;
mod phases;
mod skips;

pub use crate::changes::SourceChange;
pub use crate::deciding::is_fix;
pub use crate::judged::Judged;
pub use crate::moves::Replacement;
