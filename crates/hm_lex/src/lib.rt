//! Splits a source into lexemes (Haskell 98 Report, chapter 2), narrowed to the language that hmc reads.
//!
//! [`lex`] returns the tokens of a source, or its first fault. Each item is the longest one at its place, and a source has at most one such
//! cut. `specs/` defines each kind of text in its own file, all of them in `Shapes`, cuts and tokens in `Cut`, faults in `Faults`. `laws` has
//! the laws of these definitions.
#![tactic(auto)]

mod byte_class;
mod comments;
mod integers;
mod item;
pub mod laws;
mod lexer;
mod names;
mod next;
mod quotes;
mod runs;
mod symbols;
mod token;
mod words;

pub use crate::lexer::lex;
pub use crate::token::{Kind, LexFault, Place, Token};
