//! Sets up and ends a build: its store, `BuildFault`, `Finished`, its report and journal, and dropping its trees in parallel.
#![tactic(auto)]

mod dropping;
mod faults;
mod finished_build;
mod finishing;
mod setting_up;
mod texts;

pub use dropping::drop_by_threads;
pub use faults::BuildFault;
pub use finished_build::Finished;
pub use finishing::finished;
pub use setting_up::{Fresh, read, room_for, with_store};
pub use texts::{journal_text, report};
