//! Finds the types of names at their places, by checking changed sources.
//!
//! A variable that is a declared name has the name's scheme. A copy of a definition in which a value is beside an expression, or equal to a variable, makes that value have
//! the type there. So each result is a theorem about the verdict of a source that a user can write. Which change is made is a choice.
#![tactic(auto)]

mod here;
pub mod laws;
mod pairs;
mod patterns;
mod scheme;
mod targets;
mod typed;
mod without;
mod written;

pub use crate::here::{TypeHere, type_here};
pub use crate::scheme::scheme_here;
pub use crate::without::{Whole, without_faults};
pub use crate::written::WrittenName;
