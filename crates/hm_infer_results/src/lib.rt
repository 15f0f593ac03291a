//! The results of inference for a list: the canonical schemes of its variables, or its faulty groups (Haskell 98 Report, section 4.5).
#![tactic(auto)]

mod dependences;
mod finding_faults;
mod module_schemes;

pub use crate::dependences::{mark, members_refer_to_typed, refers_to_typed, unmark};
pub use crate::finding_faults::{faulty_groups, first_place};
pub use crate::module_schemes::own_schemes;
