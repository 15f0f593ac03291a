//! Checks all modules of a set of sources with several workers, and writes the report of their verdicts.
//!
//! [`build`] returns the finished build. [`run`] reads sources from readers and writes the report to a writer; [`run_with_messages`] writes
//! messages to a second writer as well, and can write the report as JSON objects.
#![tactic(auto)]

mod building;
mod gate;
pub mod laws;
mod limits;
mod outputs;
mod reading;
mod running;
mod runs_with_messages;
mod stacks;
mod workers;

pub use building::{build, build_after};
pub use gate::{Gate, Open};
pub use hm_build_earlier::Earlier;
pub use hm_build_messages::MessageOptions;
pub use hm_build_output::{Options, RunOptions};
pub use hm_build_stages::{BuildFault, Finished, journal_text, report};
pub use running::run;
pub use runs_with_messages::{Outputs, run_with_messages};
