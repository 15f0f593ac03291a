//! Tests of single calls below a build.
#![tactic(auto)]

#[cfg(test)]
mod binders;
#[cfg(test)]
mod refused;
#[cfg(test)]
mod sources;
#[cfg(test)]
mod stores;
#[cfg(test)]
mod turns;
