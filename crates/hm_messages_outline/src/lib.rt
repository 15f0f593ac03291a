//! Reads the tokens of a source as the grammar sees them: brackets, declarations, definitions and the parts of expressions.
//!
//! Hints, repairs and the notes of type faults find places with it. Most of it is proved only to end, because a trial decides what a result is
//! worth.
#![tactic(auto)]

mod brackets;
mod bytes;
mod declarations;
mod definitions;
mod enclosing;
mod outline;
mod parts;
mod tokens;

pub use crate::brackets::open_bracket;
pub use crate::bytes::bytes_in;
pub use crate::declarations::{declaration_end, declarations_of, header_of, past_semicolons};
pub use crate::definitions::{
    binding_at, binding_from, has_clause, is_clause_of, name_at, names_in, signature_of,
};
pub use crate::enclosing::{Enclosing, declaration_at};
pub use crate::outline::{Lexed, Outline};
pub use crate::parts::{Role, TermPart, parts_below, right_sides, without_brackets};
pub use crate::tokens::{Run, number_at, one, symbols_of};
