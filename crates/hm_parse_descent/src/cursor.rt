//! The rest of a source's tokens, and the steps on them that all parts of the parser take.
ghost use Rattle.std.specs.Prelude.{◌≡◌, IfOk};
ghost use Rattle.hm_parse_grammar.specs.Reading.Basics.{peek, is_at, is_done, is_at_word, tail, expect, name_at, module_name_at, modid_at, item_end, past_semicolons};
ghost use Rattle.hm_parse_grammar.specs.declared.symbol.Symbol.TheVariants.{RightBrace};
ghost use Rattle.hm_parse_grammar.specs.Reading.Constructors.{IsPlaceAt};
ghost use Rattle.hm_parse_grammar.specs.Reading.Answers.{Gives};
ghost use Rattle.hm_parse_grammar.specs.Places.{AllLieIn};
ghost use Rattle.hm_parse_grammar.specs.Tokens.{terminals};

use hm_lex::{Place, Token};
use hm_parse_grammar::{ParseFault, Symbol, name_in, symbol_of, text_of};
use hm_syntax::Name;
use hm_texts::TextTable;
use std::alloc::Global;
use std::marker::Model;

/// Returns the symbol of the first token.
fn first_symbol(source: &[u8], tokens: &[Token]) -> Symbol
    requires { AllLieIn source.now tokens.now }
    ensures { result ≡ peek (terminals source.now tokens.now) }
{
    match tokens.split_first() {
        Some((token, _)) => symbol_of(token.kind, text_of(source, token)),
        None => Symbol::End,
    }
}

/// The position of an expression.
#[derive(Clone, Copy)]
pub(crate) enum Context {
    /// At the right end of an alternative's guard, before its arrow.
    AlternativeGuard,
    Elsewhere,
}

impl Context {
    /// Returns the position of a guard that this mark follows.
    pub(crate) fn of_guard(mark: Symbol) -> Context {
        if mark.is(Symbol::Arrow) {
            Context::AlternativeGuard
        } else {
            Context::Elsewhere
        }
    }
}

// Why: docs/DECISIONS.md, "Symbols of tokens".
/// The parser: the rest of a source's tokens. It descends through the grammar, with one token of look-ahead.
#[derive(Drop)]
pub struct Parser<'a> {
    source: &'a [u8],
    tokens: &'a [Token],
    /// The symbol of the first token.
    next: Symbol,
    /// The place just past the last byte of the source.
    end: Place,
    /// The first `::` with a type that would end an alternative's guard. The arrow after the guard would belong to the type,
    /// so no source has this `::` there.
    guard_type: Option<Place>,
    /// The texts of the names that were read, by their bytes in the source.
    texts: TextTable<'a>,
}

impl<'a> Model for Parser<'a> {
    ghost use Rattle.std.specs.Prelude.{◌≡◌, List};
    ghost use Rattle.hm_parse_grammar.specs.Tokens.{Terminal, terminals};
    ghost use Rattle.hm_parse_grammar.specs.Places.{AllLieIn};
    ghost use Rattle.hm_parse_grammar.specs.Reading.Basics.{peek};

    ghost Value = { List Terminal };

    ghost view = { λ p. terminals p.source.now p.tokens.now };

    ghost invariant = { λ p. record { lie : AllLieIn p.source.now p.tokens.now; next : p.next ≡ peek (terminals p.source.now p.tokens.now) } };
}

impl<'a> Parser<'a> {
    /// Returns a parser of these tokens of a source. `end` is the place just past the last byte.
    pub fn new(alloc: Global, source: &'a [u8], tokens: &'a [Token], end: Place) -> Parser<'a>
        requires { AllLieIn source.now tokens.now }
        ensures { result ≡ terminals source.now tokens.now }
    {
        Parser {
            source,
            tokens,
            next: first_symbol(source, tokens),
            end,
            guard_type: None,
            texts: TextTable::new(alloc),
        }
    }

    /// Forgets the texts of the names that were read. Names of later modules share none of them, so threads that work on different modules
    /// don't count owners of the same text.
    pub fn forget_texts(&mut self, alloc: Global)
        ensures { self.new ≡ self.old }
    {
        self.texts.forget(alloc);
    }
}

impl Parser<'_> {
    /// Returns the next symbol.
    pub(crate) fn symbol(&self) -> Symbol
        ensures { result ≡ peek self.now }
    {
        self.next
    }

    /// Returns the symbol after the next.
    pub(crate) fn second(&self) -> Symbol
        ensures { result ≡ peek (tail self.now) }
    {
        match self.tokens.split_first() {
            Some((_, rest)) => first_symbol(self.source, rest),
            None => Symbol::End,
        }
    }

    pub fn at(&self, symbol: Symbol) -> bool
        ensures { result ≡ is_at symbol self.now }
    {
        self.symbol().is(symbol)
    }

    pub fn is_done(&self) -> bool
        ensures { result ≡ is_done self.now }
    {
        self.tokens.is_empty()
    }

    /// Returns whether the next token is a variable with this text.
    pub(crate) fn is_at_word(&self, word: &[u8]) -> bool
        ensures { result ≡ is_at_word word.now self.now }
    {
        match self.tokens.split_first() {
            Some((token, _)) => { self.next.is(Symbol::Var) && text_of(self.source, token) == word }
            None => false,
        }
    }

    /// Returns the place of the next token.
    pub(crate) fn place(&self) -> Place
        ensures { IsPlaceAt self.now result }
    {
        match self.tokens.first() {
            Some(token) => token.place,
            None => self.end,
        }
    }

    pub fn skip(&mut self)
        ensures { self.new ≡ tail self.old }
    {
        if let Some((_, rest)) = self.tokens.split_first() {
            let next = first_symbol(self.source, rest);
            self.tokens = rest;
            self.next = next;
        }
    }

    // Why: docs/DECISIONS.md, "Types in guards".
    /// Records the place of the next token, a `::`, if its type would end an alternative's guard.
    pub(crate) fn note_type(&mut self, context: Context)
        ensures { self.new ≡ self.old }
    {
        match context {
            Context::AlternativeGuard => {
                if self.guard_type.is_none() {
                    self.guard_type = Some(self.place());
                }
            }
            Context::Elsewhere => {}
        }
    }

    // Why: docs/DECISIONS.md, "The place of a syntax fault".
    /// Returns the place of the first token from which no source goes on, if the parser stopped at this place.
    pub fn first_fault(&self, stopped: Place) -> Place {
        match self.guard_type {
            Some(place) => place,
            None => stopped,
        }
    }

    /// Skips this symbol, or fails at another one.
    pub fn expect(&mut self, symbol: Symbol) -> Result<(), ParseFault>
        ensures { Gives (λ _. self.new) result (expect symbol self.old) }
    {
        if self.at(symbol) && !self.is_done() {
            self.skip();
            Ok(())
        } else {
            Err(ParseFault::Syntax(self.place()))
        }
    }

    /// Reads a token that is a name.
    pub(crate) fn name(&mut self, alloc: Global) -> Result<Name, ParseFault>
        ensures { Gives (λ n. (n, self.new)) result (name_at self.old) }
    {
        match self.tokens.split_first() {
            Some((token, rest)) => {
                let name = name_in(
                    alloc,
                    &mut self.texts,
                    text_of(self.source, token),
                    token.place,
                )?;
                let next = first_symbol(self.source, rest);
                self.tokens = rest;
                self.next = next;
                Ok(name)
            }
            None => Err(ParseFault::Syntax(self.end)),
        }
    }

    /// Reads a token whose whole text is a name.
    pub(crate) fn module_name(&mut self, alloc: Global) -> Result<Name, ParseFault>
        ensures { Gives (λ n. (n, self.new)) result (module_name_at self.old) }
    {
        match self.tokens.split_first() {
            Some((token, rest)) => {
                let text = self.texts.text(alloc, text_of(self.source, token))?;
                let next = first_symbol(self.source, rest);
                self.tokens = rest;
                self.next = next;
                Ok(Name {
                    qualifier: None,
                    text,
                    place: token.place,
                })
            }
            None => Err(ParseFault::Syntax(self.end)),
        }
    }

    /// Reads the name of a module.
    #[tactic(auto, unfolding(hm_parse_grammar::specs::Reading::Basics::modid_at))]
    pub fn modid(&mut self, alloc: Global) -> Result<Name, ParseFault>
        ensures { Gives (λ n. (n, self.new)) result (modid_at self.old) }
    {
        if self.symbol().is_qcon() {
            self.module_name(alloc)
        } else {
            Err(ParseFault::Syntax(self.place()))
        }
    }

    /// Skips the separator after an item. Doesn't skip the end of the items.
    #[tactic(auto, unfolding(hm_parse_grammar::specs::Reading::Basics::item_end))]
    pub(crate) fn item_end(&mut self, separator: Symbol, end: Symbol) -> Result<(), ParseFault>
        ensures { Gives (λ _. self.new) result (item_end separator end self.old) }
    {
        if self.at(separator) {
            self.skip();
            Ok(())
        } else if self.at(end) {
            Ok(())
        } else {
            Err(ParseFault::Syntax(self.place()))
        }
    }

    /// Skips the separator after an item, but not the end of the items, and returns the item.
    pub fn ended<T: Drop>(
        &mut self,
        item: T,
        separator: Symbol,
        end: Symbol,
    ) -> Result<T, ParseFault>
        ensures read { Gives (λ _. self.new) result (item_end separator end self.old) }
        ensures item { IfOk result (λ it. it ≡ item) }
    {
        self.item_end(separator, end)?;
        Ok(item)
    }

    /// Skips this symbol after a part, and returns the part.
    pub(crate) fn before<T: Drop>(&mut self, part: T, symbol: Symbol) -> Result<T, ParseFault>
        ensures read { Gives (λ _. self.new) result (expect symbol self.old) }
        ensures part { IfOk result (λ it. it ≡ part) }
    {
        self.expect(symbol)?;
        Ok(part)
    }

    /// Skips semicolons.
    #[tactic(auto, using(crate::proofs::Loops::semicolons_go_on, crate::proofs::Loops::semicolons_end, crate::proofs::Loops::semicolon_shorter))]
    pub fn past_semicolons(&mut self)
        ensures { self.new ≡ past_semicolons self.old }
    {
        'semicolons: while self.at(Symbol::Semicolon) {
            self.skip();
        }
    }

    /// Skips semicolons. Returns whether the brace that ends the items is next.
    pub(crate) fn reaches_brace(&mut self) -> bool
        ensures past { self.new ≡ past_semicolons self.old }
        ensures at_end { result ≡ is_at RightBrace (past_semicolons self.old) }
    {
        self.past_semicolons();
        self.at(Symbol::RightBrace)
    }
}
