//! Finds the faults that the report leaves out because names of the module aren't in scope, by a check of a changed source.
#![tactic(auto)]

mod hidden;
pub mod laws;

pub use crate::hidden::{are_replaced, hidden_of, is_plain_variable, unbound_in};
