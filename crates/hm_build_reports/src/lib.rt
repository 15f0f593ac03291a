//! The result of a build: whether it finished, the status of each module, and the texts of its report and its journal.
//!
//! [`report`] and [`journal_text`] return the texts, [`has_ended`] whether the build is complete.
#![tactic(auto)]

mod ending;
mod journals;
pub mod laws;
mod reports;
mod rounds;
mod statuses;
mod worker_counts;

pub use ending::has_ended;
pub use journals::journal_text;
pub use reports::{report, skipped_in, status_of};
pub use statuses::{Settled, settled_in};
pub use worker_counts::may_work;
