//! The advice for a fault of syntax.
ghost use Rattle.std.specs.Prelude.{◌≡◌, ◌≤◌, All, IfOk, length, map, take};
ghost use Rattle.hm_lex.specs.Texts.{LiesIn};
ghost use Rattle.hm_messages_hints.specs.SyntaxHints.{IsSyntaxHint};
ghost use Rattle.hm_messages_hints.specs.Advice.{IsAdviceAt, IsElsewhere, IsSo, about, symbol_at, text_at};
ghost use Rattle.hm_messages_outline.specs.Tokens.{symbol_in};

use crate::search::repair_at;
use hm_lex::{Place, Token, lex};
use hm_messages_hints::{Advice, Mark, Repair, SyntaxHint, TokenChange, syntax_hint};
use hm_messages_outline::{number_at, symbols_of};
use hm_parse_grammar::{Symbol, symbol_of, text_of};
use std::alloc::{AllocError, Global};

/// Which hint at a fault of syntax is looked for.
#[derive(Clone, Copy)]
pub enum Search {
    /// A change of one token after which the source can be parsed. If there is none, a fact about the token. This tries many changes.
    Changes,
    /// A fact about the token.
    Facts,
}

/// Returns the symbol of the token with this number, or `End` if there is none.
#[tactic(auto, using(crate::proofs::Numbered::symbol_past, crate::proofs::Numbered::symbol_found))]
fn symbol_at(source: &[u8], tokens: &[Token], number: usize) -> Symbol
    requires { All (LiesIn source.now) tokens.now }
    ensures { result ≡ symbol_at source.now tokens.now number }
{
    if number >= tokens.len() {
        return Symbol::End;
    }
    let token = &tokens[number];
    symbol_of(token.kind, text_of(source, token))
}

/// Returns the text of the token with this number, or no text if there is none.
#[tactic(auto, using(crate::proofs::Numbered::text_past, crate::proofs::Numbered::text_found))]
fn text_at<'a>(source: &'a [u8], tokens: &[Token], number: usize) -> &'a str
    requires { All (LiesIn source.now) tokens.now }
    ensures { result.now ≡ text_at source.entry.now tokens.now number }
{
    if number >= tokens.len() {
        return "";
    }
    let token = &tokens[number];
    match std::str::from_utf8(text_of(source, token)) {
        Ok(text) => text,
        Err(_) => unreachable!(),
    }
}

/// Returns the number of the token that a hint at this one is about.
fn about(hint: SyntaxHint, number: usize) -> usize
    ensures { result ≡ about hint number }
{
    match hint {
        SyntaxHint::Repaired(repair) => repair.at,
        _ => number,
    }
}

/// Returns the place of the token with number `at`, if there is one and it isn't the token at the fault.
fn elsewhere(tokens: &[Token], fault: usize, at: usize) -> Option<Place>
    ensures { IsElsewhere tokens.now fault at result }
{
    if at == fault {
        return None;
    }
    if at >= tokens.len() {
        return None;
    }
    Some(tokens[at].place)
}

/// Returns a fact about the token with this number.
fn fact_at(
    alloc: Global,
    source: &[u8],
    tokens: &[Token],
    number: usize,
) -> Result<SyntaxHint, AllocError>
    requires lie { All (LiesIn source.now) tokens.now }
    requires within { number ≤ length tokens.now }
    ensures { IfOk result (IsSyntaxHint (map (symbol_in source.now) (take number tokens.now)) (symbol_at source.now tokens.now number) (text_at source.now
        tokens.now number)) }
{
    let before = symbols_of(alloc, source, &tokens[..number])?;
    let here = symbol_at(source, tokens, number);
    let text = text_at(source, tokens, number);
    Ok(syntax_hint(before.as_slice(), here, text.as_bytes()))
}

/// Returns whether a change puts a mark in.
fn puts_in(change: TokenChange) -> bool {
    match change {
        TokenChange::Insert(_) => true,
        TokenChange::Replace(_) => false,
        TokenChange::Remove => false,
    }
}

/// Returns whether a change makes an argument a part of its own.
fn parts_argument(change: TokenChange) -> bool {
    if !puts_in(change) {
        return true;
    }
    change == TokenChange::Insert(Mark::Comma) || change == TokenChange::Insert(Mark::Arrow)
}

/// Returns whether a fact says more than a change of the token that it is about. The change makes this token readable, but often isn't the one
/// that the author meant.
fn says_more(fact: SyntaxHint, number: usize, repair: Repair) -> bool {
    if repair.at != number {
        return false;
    }
    let change = repair.change;
    match fact {
        SyntaxHint::Update => change == TokenChange::Insert(Mark::Where),
        SyntaxHint::AppliedVariable | SyntaxHint::AppliedName(_) => parts_argument(change),
        SyntaxHint::ConsPattern
        | SyntaxHint::InPattern(_)
        | SyntaxHint::ConstructorComma(_)
        | SyntaxHint::NumberComma => change == TokenChange::Remove,
        SyntaxHint::TypedPattern
        | SyntaxHint::NewtypeArguments(_)
        | SyntaxHint::NoElse(_)
        | SyntaxHint::BraceGroup => !puts_in(change),
        SyntaxHint::EqualsInCondition(_) => change == TokenChange::Remove,
        SyntaxHint::NoIn(_) => change != TokenChange::Insert(Mark::In),
        SyntaxHint::Hole => true,
        _ => false,
    }
}

/// Returns the hint at the token with this number: a fact about it, or a change with which the source can be read.
#[tactic(auto, using(crate::proofs::Facts::so_of_fact))]
fn hint_at(
    alloc: Global,
    source: &[u8],
    tokens: &[Token],
    number: usize,
    search: Search,
) -> Result<SyntaxHint, AllocError>
    requires lie { All (LiesIn source.now) tokens.now }
    requires within { number ≤ length tokens.now }
    ensures { IfOk result (IsSo source.now tokens.now number) }
{
    let fact = fact_at(alloc, source, tokens, number)?;
    if fact.is_enough() {
        return Ok(fact);
    }
    let Search::Changes = search else {
        return Ok(fact);
    };
    let Some(repair) = repair_at(alloc, source, tokens, number)? else {
        return Ok(fact);
    };
    if says_more(fact, number, repair) {
        return Ok(fact);
    }
    Ok(SyntaxHint::Repaired(repair))
}

/// Returns the advice for a fault of syntax at a place of a source that has tokens.
///
/// # Errors
///
/// Memory ran out. A source without tokens gives the same error.
pub fn advice_at<'a>(
    alloc: Global,
    source: &'a [u8],
    place: Place,
    search: Search,
) -> Result<Advice<'a>, AllocError>
    ensures { IfOk result (λ advice. IsAdviceAt source.entry.now place advice.hint advice.text.now advice.elsewhere) }
{
    let Ok(tokens) = lex(alloc, source) else {
        return Err(AllocError);
    };
    let number = number_at(tokens.as_slice(), place);
    let hint = hint_at(alloc, source, tokens.as_slice(), number, search)?;
    let at = about(hint, number);
    let text = text_at(source, tokens.as_slice(), at);
    let elsewhere = elsewhere(tokens.as_slice(), number, at);
    Ok(Advice {
        hint,
        text,
        elsewhere,
    })
}
