//! Makes the modules of a set of sources and their plan with several threads.
//!
//! Each thread lexes and parses a part of the sources. If there is only one source, each thread parses a run of its tokens.
#![tactic(auto)]

mod joining;
mod making;
mod parsing;
mod parts;
mod pool;
mod runs;

pub use crate::making::set_modules_by;
pub use crate::pool::Pool;
