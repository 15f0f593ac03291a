//! Infers the types of expressions and binding lists with the solver (Damas and Milner 1982, section 6; Haskell 98 Report, sections 3 and 4.5).
//!
//! Expressions are checked against types, and binding groups are generalised.
#![tactic(auto)]

mod bindings;
mod expressions;
mod grouping;
mod listing;
mod signed;

pub use crate::expressions::{CheckedList, check_bindings, check_signed, infer_group};
pub use crate::listing::listed_groups;
pub use crate::signed::{bind_signed, signatures_of};
