//! Tests of renames: which are made, and why others are refused. And tests of checks after earlier ones.
#![tactic(auto)]

#[cfg(test)]
mod after;
#[cfg(test)]
mod renames;
