//! Reads sources to their ends and writes a text whole, through readers and writers that count the replies of their devices.
//!
//! [`Watched`] wraps a reader or writer. [`read_all`] reads sources, [`write_text`] writes a text and flushes it.
#![tactic(auto)]

mod faults;
pub mod laws;
mod output;
mod reading;
mod watched;

pub use faults::RunFault;
pub use output::write_text;
pub use reading::read_all;
pub use watched::Watched;
