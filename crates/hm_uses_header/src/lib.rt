//! Finds what each name of a module means: those of its header, then those of its declarations (Haskell 98 Report, chapter 5).
//!
//! It does so for any module with a scope, also for one with faults.
#![tactic(auto)]

mod adding;
mod export_groups;
mod exports;
mod imports;
mod interfaces;
mod items;
mod module_uses;

pub use crate::module_uses::{uses_in, uses_of};
