//! The exports of a module and the faults of its export list (Haskell 98 Report, section 5.2).
#![tactic(auto)]

mod exported;
mod exports;

pub use crate::exported::exported_in;
pub use crate::exports::{ModuleExports, module_exports};
