//! The principal schemes of a module's bindings, or its units that have no type (Haskell 98 Report, section 4.5).
//!
//! `assuming` and `declaring` make what inference starts from: the schemes of imported variables and of constructors.
#![tactic(auto)]

mod assuming;
mod declaring;
mod inferring;
mod judging_units;
mod signed_faults;
mod signed_starts;
mod telling;
mod unit_starts;
mod untyped_units;

pub use crate::inferring::{InferFault, infer, infer_within};
