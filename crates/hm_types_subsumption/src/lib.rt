//! Compares schemes by generality (Damas and Milner 1982, section 3), and makes the canonical scheme of a type.
#![tactic(auto)]

mod instances;
mod numbering;

pub use instances::{instance_of, instantiate};
pub use numbering::canonical;
