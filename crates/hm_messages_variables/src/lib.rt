//! Finds the type variables of a definition's signature that are named like types in scope.
#![tactic(auto)]

mod firsts;
pub mod laws;
mod like;
mod signed;

pub use crate::like::{LikeType, like_types};
