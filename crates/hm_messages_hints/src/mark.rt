//! The tokens that a change puts in.
ghost use Rattle.std.specs.Prelude.{◌≡◌};
ghost use Rattle.hm_messages_hints.specs.Marks.{mark_kind, mark_text};

use hm_lex::Kind;

/// A token that a change puts in.
#[derive(Clone, Copy, Debug, PartialEq, Eq)]
pub enum Mark {
    Semicolon,
    Comma,
    Equals,
    Arrow,
    Open,
    Close,
    OpenSquare,
    CloseSquare,
    LeftBrace,
    RightBrace,
    Where,
    Let,
    In,
    If,
    Then,
    Else,
    Case,
    Of,
    /// `::`
    OfType,
    Backslash,
}

impl Mark {
    /// Returns its text.
    pub fn text(self) -> &'static str
        ensures { result.now ≡ mark_text self }
    {
        match self {
            Mark::Semicolon => ";",
            Mark::Comma => ",",
            Mark::Equals => "=",
            Mark::Arrow => "->",
            Mark::Open => "(",
            Mark::Close => ")",
            Mark::OpenSquare => "[",
            Mark::CloseSquare => "]",
            Mark::LeftBrace => "{",
            Mark::RightBrace => "}",
            Mark::Where => "where",
            Mark::Let => "let",
            Mark::In => "in",
            Mark::If => "if",
            Mark::Then => "then",
            Mark::Else => "else",
            Mark::Case => "case",
            Mark::Of => "of",
            Mark::OfType => "::",
            Mark::Backslash => "\\",
        }
    }

    /// Returns the kind of a token with its text.
    pub fn kind(self) -> Kind
        ensures { result ≡ mark_kind self }
    {
        match self {
            Mark::Semicolon
            | Mark::Comma
            | Mark::Open
            | Mark::Close
            | Mark::OpenSquare
            | Mark::CloseSquare
            | Mark::LeftBrace
            | Mark::RightBrace => Kind::Special,
            Mark::Equals | Mark::Arrow | Mark::OfType | Mark::Backslash => Kind::Op,
            Mark::Where
            | Mark::Let
            | Mark::In
            | Mark::If
            | Mark::Then
            | Mark::Else
            | Mark::Case
            | Mark::Of => Kind::Word,
        }
    }
}
