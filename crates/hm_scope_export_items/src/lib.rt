//! Groups the bindings of a scope by the items of an export list that select them (Haskell 98 Report, section 5.2).
#![tactic(auto)]

mod bare_pairs;
mod export_groups;

pub use crate::export_groups::{Selector, add_group, copy_of, groups_of};
