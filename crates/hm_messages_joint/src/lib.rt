//! Finds two parts of a definition that together are to blame for a type fault, if no part is by itself.
//!
//! A definition with two slips has no type with a hole in place of one part. [`joint_of`] returns two parts, so that the definition has a type with
//! something of every type in place of both, and none with that in place of one. Which parts are tried is a choice.
#![tactic(auto)]

mod beside;
mod joint;
mod judging;
pub mod laws;
mod least;
mod leaves;
mod openings;
mod parts;

pub use crate::joint::joint_of;
pub use crate::parts::{Joint, JointPart, range_of};
