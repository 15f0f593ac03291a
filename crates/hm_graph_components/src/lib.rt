//! Reachability in directed graphs, and the groups of nodes that reach each other. A graph is a row of successors for each node.
//! `specs/Digraph` defines both.
#![tactic(auto)]

mod checking;
mod components;
mod groups;
pub mod laws;
mod recursion;
mod reversal;
mod spreading;

pub use groups::{empty_rows, groups_of, mark_reached, reached_from};
pub use recursion::{joined, recursive_marks};
pub use spreading::spread;
