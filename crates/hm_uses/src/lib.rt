//! Defines what each name that is written in a module means (Haskell 98 Report, chapters 3 to 5).
//!
//! The definitions are in `specs/`, and `laws` has their laws.
#![tactic(auto)]

pub mod laws;
mod name_kind;

pub use crate::name_kind::NameKind;
