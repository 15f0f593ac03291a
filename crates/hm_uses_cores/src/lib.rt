//! The laws that relate cores to uses: in the core of a module, each variable, constructor and type means what its use says.
#![tactic(auto)]

pub mod laws;
