//! Compares the trees of two modules.
#![tactic(auto)]

mod declarations;
mod expressions;
mod headers;
mod modules;
mod names;
mod patterns;
mod rows;
mod types;

pub use crate::modules::is_same_module;
