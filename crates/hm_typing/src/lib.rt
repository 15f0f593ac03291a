//! Laws of the typing relation: types of expressions, schemes of binding lists, and assignments of sets of modules.
//!
//! The definitions are in `specs/`. Each law is a function with an empty body, and its contract is the law.
#![tactic(auto)]

mod inference;
mod modules;
mod schemes;
mod sources;
mod typing;
mod verdicts;

pub use inference::{
    every_expression_is_answered, generalisation_may_keep_outer_variables, groups_are_an_order,
    principal_or_none, unification_is_decided,
};
pub use modules::{good_modules_have_principal_assignments, principal_assignments_compose};
pub use schemes::{programs_decide_generality, programs_unify_alike};
pub use sources::{sources_with_faults, sources_with_types, sources_without_types};
pub use typing::typing_is_stable;
pub use verdicts::{
    lists_have_verdicts, modules_are_judged_by_their_imports, modules_have_verdicts,
};
