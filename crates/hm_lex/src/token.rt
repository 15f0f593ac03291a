ghost use Rattle.std.specs.Prelude.{◌≡◌, false, true};
ghost use Rattle.hm_lex.specs.Places.{IsBefore};

use thiserror::Error;

// Why: docs/DECISIONS.md, "Places in 32 bits".
/// A place in a source. Lines and columns are counted from 1, columns in bytes.
#[derive(Clone, Copy, Debug, PartialEq, Eq)]
pub struct Place {
    pub line: u32,
    pub column: u32,
}

impl Place {
    /// Returns whether this place comes before another one.
    pub fn is_before(self, other: Place) -> bool
        ensures before { result ≡ true → IsBefore self other }
        ensures behind { result ≡ false → ¬ (IsBefore self other) }
    {
        self.line < other.line || (self.line == other.line && self.column < other.column)
    }
}

/// The kind of a lexeme (Haskell 98 Report, sections 2.2 to 2.6).
#[derive(Clone, Copy, Debug, PartialEq, Eq)]
pub enum Kind {
    /// A reserved word, including `_`.
    Word,
    /// A variable or a type variable.
    VarId,
    /// A constructor, type or module with a name of one part.
    ConId,
    /// A qualified variable.
    QVarId,
    /// A qualified constructor or type, or a module with a name of several parts.
    QConId,
    /// A reserved operator.
    Op,
    /// One of `( ) [ ] { } , ;`.
    Special,
    /// An integer literal.
    Integer,
    /// A character literal, including its quotes.
    Character,
    /// A string literal, including its quotes.
    Str,
}

/// A lexeme of a source, `source[start..end]`.
#[derive(Clone, Copy, Debug, PartialEq, Eq)]
pub struct Token {
    pub kind: Kind,
    pub start: u32,
    pub end: u32,
    pub place: Place,
}

/// Why a source has no list of lexemes.
#[derive(Clone, Copy, Debug, Error, PartialEq, Eq)]
pub enum LexFault {
    /// The source has more than 1,048,576 bytes.
    #[error("too long")]
    TooLong,
    /// No lexeme, comment or white space that begins here can be completed.
    #[error("lexeme")]
    Lexeme(Place),
    /// The nested comment that begins here isn't closed.
    #[error("open comment")]
    OpenComment(Place),
    /// More than 200 brackets are open with this one.
    #[error("too deep")]
    TooDeep(Place),
    /// Memory ran out.
    #[error("no memory")]
    Memory,
}
