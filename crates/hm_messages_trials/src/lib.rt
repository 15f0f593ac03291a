//! Finds the part of a definition that is to blame for a type fault, by checking changed sources.
//!
//! A part is replaced by an expression of every type, and the module is checked again. So the checker itself decides whether the part is to
//! blame: each result is a theorem about the verdict of a source that a user can write. This crate chooses which parts it tries, and which of
//! several it returns.
#![tactic(auto)]

mod costs;
mod culprits;
pub mod laws;
mod mends;
mod mentioned;
mod part_typing;
mod ranking;
mod reading;
mod search;
mod signatures;
mod signed;
mod trial;

pub use crate::costs::{Effort, cost_of};
pub use crate::culprits::{Searched, is_mended_by};
pub use crate::mends::Mend;
pub use crate::part_typing::{PartTypes, part_types_of};
pub use crate::reading::{Reading, TypeFault, read, reading_of};
pub use crate::search::{mend_of, mend_within, names_of, token_at};
pub use crate::signatures::{Unsigned, unsigned_of};
pub use crate::trial::{has_types_in, judged, module_in};
pub use hm_messages_types::Question;
