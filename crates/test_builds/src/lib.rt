//! Tests of builds and runs: gates, failing devices, single messages, and calls that run out of memory.
#![tactic(auto)]

#[cfg(test)]
mod builds;
#[cfg(test)]
mod devices;
#[cfg(test)]
mod earlier;
#[cfg(test)]
mod pages;
#[cfg(test)]
mod refused;
#[cfg(test)]
mod runs;
#[cfg(test)]
mod transfers;
