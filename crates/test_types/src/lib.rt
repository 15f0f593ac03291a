//! Tests of instances, and of the limits for levels and nodes of types.
#![tactic(auto)]

#[cfg(test)]
mod types;
#[cfg(test)]
mod unification;
