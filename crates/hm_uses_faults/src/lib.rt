//! The laws that relate the faults of names to uses: a name is unbound or ambiguous exactly if its use says so.
#![tactic(auto)]

pub mod laws;
