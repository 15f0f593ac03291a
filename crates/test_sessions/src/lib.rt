//! Tests of what the messages of a client lead to, and of those that are sent.
#![tactic(auto)]

#[cfg(test)]
mod folders;
#[cfg(test)]
mod messages;
#[cfg(test)]
mod sending;
