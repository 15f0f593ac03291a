//! Lexes a source with several threads.
//!
//! The source is cut where a line begins with `module`. Each thread lexes a part.
#![tactic(auto)]

mod joining;
mod lexing;
mod parts;

pub use lexing::lex_in_parts;
