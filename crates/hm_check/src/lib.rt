//! Checks one module for the interfaces of its imports, and returns an outcome that carries the verdict.
//!
//! Call [`check_module`], or [`check_module_within`] with a Prelude made before and with limits for types.
#![tactic(auto)]

mod checking;

pub use crate::checking::{CheckFault, check_module, check_module_within};
