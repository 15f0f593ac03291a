//! The tokens of a source with their symbols and brackets. It is proved only that each walk ends: a trial decides what a result is worth.
ghost use Rattle.std.specs.Prelude.{All};
ghost use Rattle.hm_lex.specs.Texts.{LiesIn};

use crate::brackets::closing_of;
use crate::bytes::bytes_in;
use crate::tokens::{Run, one, symbols_of};
use hm_lex::Token;
use hm_parse_grammar::Symbol;
use std::alloc::{AllocError, Global};

/// The symbols of tokens, and where each bracket is closed.
#[derive(Drop)]
pub struct Outline {
    symbols: Vec<Symbol>,
    /// For a bracket that opens, the number of the token that closes it; for any other token its own.
    closing: Vec<usize>,
}

impl Outline {
    /// Returns the outline of the tokens of a source.
    pub fn of(alloc: Global, source: &[u8], tokens: &[Token]) -> Result<Outline, AllocError>
        requires { All (LiesIn source.now) tokens.now }
    {
        let symbols = symbols_of(alloc, source, tokens)?;
        let closing = closing_of(alloc, symbols.as_slice())?;
        Ok(Outline { symbols, closing })
    }

    /// Returns the number of tokens.
    pub fn len(&self) -> usize {
        self.symbols.len()
    }

    /// Returns the symbol of the token with this number, or `End` after the last one.
    pub fn symbol(&self, at: usize) -> Symbol {
        if at >= self.symbols.len() {
            return Symbol::End;
        }
        self.symbols[at]
    }

    /// Returns the number of the token that closes the bracket which opens here. For any other token it returns its own number.
    pub fn closing(&self, at: usize) -> usize {
        if at >= self.closing.len() {
            return at;
        }
        self.closing[at]
    }

    /// Returns the number of the token after this one, and after the brackets that it opens.
    pub fn past(&self, at: usize) -> usize {
        self.closing(at).saturating_add(1)
    }

    /// Returns the first of these tokens with a symbol, outside brackets that open among them.
    pub fn find(&self, start: usize, end: usize, symbol: Symbol) -> Option<usize> {
        let mut next = start;
        for at in start..end {
            if at == next {
                next = self.past(at);
                if self.symbol(at).is(symbol) {
                    return Some(at);
                }
            }
        }
        None
    }

    /// Returns the word `last` of the form that begins here with `first`, as `else` for `if`, or `of` for `case`. Forms of the same kind may nest.
    pub fn find_word(
        &self,
        start: usize,
        end: usize,
        first: Symbol,
        last: Symbol,
    ) -> Option<usize> {
        let mut next = start;
        let mut nested = 0usize;
        for at in start..end {
            if at == next {
                next = self.past(at);
                let symbol = self.symbol(at);
                if symbol.is(first) {
                    nested = nested.saturating_add(1);
                }
                if symbol.is(last) {
                    nested = nested.saturating_sub(1);
                    if nested == 0 {
                        return Some(at);
                    }
                }
            }
        }
        None
    }
}

/// A source with its tokens.
#[derive(Clone, Copy)]
pub struct Lexed<'a> {
    pub source: &'a [u8],
    pub tokens: &'a [Token],
    pub outline: &'a Outline,
}

impl Lexed<'_> {
    /// Returns the number of the first byte of a token, or 0 if there is no such token.
    pub fn start(&self, at: usize) -> usize {
        if at < self.tokens.len() {
            self.tokens[at].start as usize
        } else {
            0
        }
    }

    /// Returns the number of the byte after the last token of a run, or 0 if the run ends after all tokens.
    pub fn end(&self, run: Run) -> usize {
        let last = run.end.saturating_sub(1);
        if last < self.tokens.len() {
            self.tokens[last].end as usize
        } else {
            0
        }
    }
    /// Returns the bytes of a token, or no bytes if there is no such token.
    pub fn text(&self, at: usize) -> &[u8] {
        bytes_in(self.source, self.start(at), self.end(one(at)))
    }
}
