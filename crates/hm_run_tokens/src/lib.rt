//! Lexes parts of a source, whose tokens have their places in the source.
//!
//! [`part_len`] cuts a source before a line that begins with `module`, and [`part_tokens`] lexes a part. `laws` says when the tokens of two parts
//! are those of both.
#![tactic(auto)]

mod brackets;
pub mod laws;
mod moving;
mod parts;

pub use parts::{PartTokens, part_len, part_tokens};
