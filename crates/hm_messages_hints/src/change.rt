//! A change of a token, and the tokens that are read with it.

use crate::mark::Mark;
use hm_messages_outline::Run;

/// A change of one token.
#[derive(Clone, Copy, Debug, PartialEq, Eq)]
pub enum TokenChange {
    /// Puts this mark in before it.
    Insert(Mark),
    /// Replaces it with this mark.
    Replace(Mark),
    /// Leaves it out.
    Remove,
}

/// The tokens of a source that spell modules after a change.
#[derive(Clone, Copy, Debug, PartialEq, Eq)]
pub enum Scope {
    /// All of them.
    Whole,
    /// Those of one declaration, after the header of its module up to the `{`, and before a `}`.
    Declaration { header: Run, body: Run },
}

/// A change of the token with the number `at`, counted from 0, and the tokens that can be read with it. The number after that of
/// the last token is the end of the source.
#[derive(Clone, Copy, Debug, PartialEq, Eq)]
pub struct Repair {
    pub at: usize,
    pub change: TokenChange,
    pub scope: Scope,
}
