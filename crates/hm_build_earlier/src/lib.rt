//! Takes from earlier builds what hasn't changed: the modules of sources with equal texts, and the outcomes of equal modules with equal imports.
#![tactic(auto)]

mod earlier;
mod known;
pub mod laws;
mod outcomes;
mod reading;
mod taking;

pub use earlier::Earlier;
pub use outcomes::{named_outcomes, outcome_from};
pub use reading::read_after;
