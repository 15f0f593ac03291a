//! The state of type inference (Damas and Milner 1982, sections 5 and 6; Haskell 98 Report, section 3.17).
//!
//! It has the solver, the schemes of names and constructors, the instances of schemes, and the types of patterns.
#![tactic(auto)]

mod constructors;
mod environment;
mod fronts;
mod functions;
mod inference;
mod instances;
mod names;
mod parts;
mod patterns;
mod shapes;
mod special;
mod unifying;
mod variables;

pub use crate::constructors::{Constructors, Entry, KnownScheme};
pub use crate::environment::{AssumedType, Binding, Environment};
pub use crate::functions::{open_alternative, open_function};
pub use crate::inference::Inference;
pub use crate::instances::{
    VariableKind, check_constructor, check_scheme, constructor_instance, instantiate,
};
pub use crate::names::{check_name, entity_name, name_instance, own_text};
pub use crate::parts::{FunctionType, list_part, split_function, tuple_parts};
pub use crate::patterns::{PartTypes, match_pattern};
pub use crate::unifying::{equate, new_variables};
pub use crate::variables::{Variable, Variables};
