//! Finds the modules of a settled set that have a name which isn't in the scope of one of its modules.
#![tactic(auto)]

mod exporters;
mod private;
mod set;

pub use crate::exporters::{Exporter, exporters_of};
pub use crate::private::{Private, private_in};
pub use crate::set::SettledSet;
