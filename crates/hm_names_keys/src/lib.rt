//! Variables of trees as keys of tables.
#![tactic(auto)]

mod lent_names;

pub use crate::lent_names::{LentName, key_of};
