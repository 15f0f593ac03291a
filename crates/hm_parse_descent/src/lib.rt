//! Parses the parts of modules: a recursive-descent parser over the tokens of a source.
#![tactic(auto)]

// Why: docs/DECISIONS.md, "or_drop!".
/// Returns the value of a call, or returns its fault after dropping the held parts by calls. `?` would drop them inline, and each of its drops
/// would be proved again at its place.
macro_rules! or_drop {
    ($call:expr, $($held:expr),+) => {
        match $call {
            Ok(answer) => answer,
            Err(fault) => {
                $(drop($held);)+
                return Err(fault);
            }
        }
    };
}

mod cursor;
mod declarations;
mod expressions;
mod headers;
mod owned;
mod patterns;
mod type_declarations;
mod types;

pub use crate::cursor::Parser;
