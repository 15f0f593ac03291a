//! Finds what each name in the declarations of a module means.
//!
//! It does so for any module with a scope, also for one with faults.
#![tactic(auto)]

mod candidates;
mod expressions;
mod locals;
mod module_walk;
mod patterns;
mod types;
mod uses;
mod walking;

pub use crate::candidates::candidates_of;
pub use crate::module_walk::declaration_uses;
pub use crate::uses::{Meaning, Use};
