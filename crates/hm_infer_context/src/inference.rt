//! The state of type inference.

use crate::environment::Environment;
use hm_unify::Solver;
use std::alloc::Global;

/// The state of type inference: the solver of the equations between types, and the assumptions
/// about names.
#[derive(Drop)]
pub struct Inference<'a> {
    pub alloc: Global,
    pub solver: Solver,
    pub environment: Environment<'a>,
}
