//! The walk over a module's trees that resolves names, expands synonyms and notes faults (Haskell 98 Report, chapters 3 and 4).
//!
//! `locals` keeps which names are local, `expansion` puts arguments into synonyms, and `list_faults` finds the faults of declaration lists.
#![tactic(auto)]

// Why: docs/DECISIONS.md, "or_drop!".
/// Returns the value of a call, or returns its error after dropping the held values by calls. `?` would drop them inline, and the prover would
/// check the steps of each drop again at its place.
macro_rules! or_drop {
    ($call:expr, $($held:expr),+) => {
        match $call {
            Ok(answer) => answer,
            Err(refusal) => {
                $(drop($held);)+
                return Err(refusal);
            }
        }
    };
}

mod binding_lists;
mod copies;
mod expansion;
mod expressions;
mod list_faults;
mod list_names;
mod locals;
mod noted_names;
mod open_bindings;
mod patterns;
mod repeats;
mod resolving;
mod type_declarations;
mod types;
mod walking;

pub use crate::binding_lists::binding_names;
pub use crate::copies::{copy_name, copy_names, special_arity};
pub use crate::list_names::{add_names, constructor_names, signed_names, type_names};
pub use crate::resolving::Resolving;
pub use crate::walking::{Walked, walk};
