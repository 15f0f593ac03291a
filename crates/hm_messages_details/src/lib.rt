//! Finds details of a fault beyond its kind and its name: similar names, entities of an ambiguous name, earlier declarations, numbers of arguments, and
//! the module of an import.
#![tactic(auto)]

mod candidates;
mod counts;
mod detail;
mod exports;
mod firsts;
mod known;
pub mod laws;
mod left_out;
mod lengths;
mod listed;
mod locals;
mod nearest;
mod parts;
mod patterned;
mod role;
mod roles;
mod signed;
mod site;
mod written;

pub use crate::detail::{Candidate, Detail, Origin};
pub use crate::known::detail_of;
pub use crate::nearest::is_near;
pub use crate::site::Site;
