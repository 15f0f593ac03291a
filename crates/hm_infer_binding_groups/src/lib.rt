//! Dependency analysis: the binding groups of a declaration list, each after those that it depends on (Haskell 98 Report, section 4.5.1).
#![tactic(auto)]

mod groups;

pub use crate::groups::{BindingGroups, binding_groups};
