//! Finds the likely reason of a lexical or syntax fault, and its texts.
//!
//! A hint states only facts about the bytes or tokens at the place of the fault and before it.
#![tactic(auto)]

mod change;
mod contexts;
mod features;
pub mod laws;
mod lexeme_hints;
mod lexeme_texts;
mod mark;
mod syntax_hints;
mod syntax_texts;

pub use crate::change::{Repair, Scope, TokenChange};
pub use crate::features::{Feature, feature_of};
pub use crate::lexeme_hints::{LexemeHint, lexeme_hint, operator_in};
pub use crate::lexeme_texts::{lexeme_help, lexeme_text};
pub use crate::mark::Mark;
pub use crate::syntax_hints::{Advice, SyntaxHint, syntax_hint};
pub use crate::syntax_texts::{syntax_help, syntax_text};
