//! The meaning of names in a module (Haskell 98 Report, chapters 4 and 5): scopes, entities, exports, faults and cores.
//!
//! The definitions are in `specs/`, and `laws` has their laws. The functions read single parts of a tree: its names, a declared type, the
//! scheme of a constructor, the order of faults.
#![tactic(auto)]

mod cores;
mod declared;
mod declared_schemes;
mod fault_names;
mod fault_order;
mod faults;
pub mod laws;
mod monotypes;
mod namespace;
mod scheme_table;
mod special;
mod type_limits;
mod type_variables;
mod variables;

pub use crate::cores::{Core, Exported};
pub use crate::declared::{DeclaredType, declared_type};
pub use crate::declared_schemes::{declared_scheme, declared_synonym, own_entity, parameters_of};
pub use crate::fault_names::fault_at;
pub use crate::fault_order::sort_faults;
pub use crate::faults::{Fault, Kind, ScopeFault};
pub use crate::monotypes::monotype;
pub use crate::namespace::Namespace;
pub use crate::scheme_table::Schemes;
pub use crate::special::tuple_arity;
pub use crate::type_limits::{NO_SYNONYMS, TypeLimits, WIDE_LIMITS};
pub use crate::type_variables::TypeVariables;
pub use crate::variables::{
    LentNames, add_all_bound, add_constructor, add_constructors, add_pattern, add_patterns,
    add_type,
};
