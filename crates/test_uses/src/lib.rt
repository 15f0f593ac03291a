//! Tests of the uses of names.
#![tactic(auto)]

#[cfg(test)]
mod refused;
