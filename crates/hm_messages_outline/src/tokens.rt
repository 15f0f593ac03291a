//! Runs of tokens, and the symbols of tokens.
ghost use Rattle.std.specs.Prelude.{All, ◌≡◌, IfOk, map};
ghost use Rattle.hm_lex.specs.Texts.{LiesIn};
ghost use Rattle.hm_messages_outline.specs.Tokens.{IsAt, symbol_in};

use hm_lex::{Place, Token};
use hm_parse_grammar::{Symbol, symbol_of, text_of};
use std::alloc::{AllocError, Global};

/// A run of tokens: from one number up to another.
#[derive(Clone, Copy, Debug, PartialEq, Eq)]
pub struct Run {
    pub start: usize,
    pub end: usize,
}

impl Run {
    /// Returns whether a token is in the run.
    pub fn has(self, at: usize) -> bool {
        self.start <= at && at < self.end
    }
}

/// Returns the run of one token.
pub fn one(at: usize) -> Run {
    Run {
        start: at,
        end: at.saturating_add(1),
    }
}

/// Returns the number of the token at a place, or the number of tokens if there is none.
pub fn number_at(tokens: &[Token], place: Place) -> usize
    ensures { IsAt tokens.now place result }
{
    for number in 0..tokens.len() {
        if tokens[number].place == place {
            return number;
        }
    }
    tokens.len()
}

/// Returns the symbols of the tokens of a source.
pub fn symbols_of(alloc: Global, source: &[u8], tokens: &[Token]) -> Result<Vec<Symbol>, AllocError>
    requires { All (LiesIn source.now) tokens.now }
    ensures { IfOk result (λ symbols. symbols.items ≡ map (symbol_in source.now) tokens.now) }
{
    let mut symbols = Vec::with_capacity(alloc, tokens.len())?;
    for token in tokens {
        symbols.push(symbol_of(token.kind, text_of(source, token)))?;
    }
    Ok(symbols)
}
