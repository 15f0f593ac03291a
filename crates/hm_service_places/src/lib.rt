//! Looks up in a checked set of sources what was found in a source, and what the name at a place means.
#![tactic(auto)]

mod checked;
mod faults;
mod names;
mod places;
mod sources;
mod spelled;

pub use crate::checked::{Checked, CheckedSet};
pub use crate::faults::ServiceFault;
pub use crate::names::names_of;
pub use crate::places::{AtPlace, index_of, place_of};
pub use crate::sources::{diagnostics_of, in_run};
pub use crate::spelled::Spelled;
