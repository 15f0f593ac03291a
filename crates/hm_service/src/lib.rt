//! Checks a held set of sources, and says what it has found in each and what the name at a place means.
//!
//! [`check`] makes a [`Checked`]. [`diagnostics_of`] and [`place_of`] look things up in it.
#![tactic(auto)]

mod checking;
mod earlier;
mod faults;
mod here;
mod stacks;

pub use crate::checking::check;
pub use hm_service_messages::{Bound, Columns, Diagnostic, Edit, Level, Position, Told};
pub use hm_service_places::{AtPlace, Checked, ServiceFault, diagnostics_of, place_of};
pub use hm_service_sources::{ChangeFault, HeldSource, change};
