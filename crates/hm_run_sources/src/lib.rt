//! Turns sources into the modules of a lawful set with their import plan, or refuses them; and writes plans and refusals as texts.
//!
//! [`set_modules`] returns modules, plan, and the number of modules of each source. [`run_plan`] reads sources from readers, and writes the text of
//! their plan to a writer.
#![tactic(auto)]

mod answers;
mod counting;
mod faults;
pub mod laws;
mod located;
mod nesting;
mod pieces;
mod plan_errors;
mod plans;
mod refusals;
mod running;
mod sets;
mod stacks;
mod status;
mod trees;

pub use answers::{Answer, refusal_answer};
pub use counting::{origins_of, source_of};
pub use faults::{SetFault, SetFaultKind};
pub use located::{Located, SourceModule};
pub use plan_errors::{PlanError, RefusedSet, source_error};
pub use plans::plan_text;
pub use refusals::refusal_text;
pub use running::run_plan;
pub use sets::{
    CountedModules, PlannedModules, SetError, modules_between, planned, set_modules, source_tokens,
    spelled_modules,
};
pub use stacks::Nesting;
pub use status::Status;
pub use trees::Trees;
