//! Reads sources, checks their modules, and writes what the name at a place of them means.
#![tactic(auto)]

mod answers;
mod reading;
mod running;
mod stacks;

pub use answers::AskedPlace;
pub use hm_build_places::{PlaceFormat, PlaceQuestion};
pub use running::run_place;
