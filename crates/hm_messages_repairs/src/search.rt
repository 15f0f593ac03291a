//! Searches for a change with which a source can be read.
ghost use Rattle.std.specs.Prelude.{All, IfOk, IfSome};
ghost use Rattle.hm_lex.specs.Texts.{LiesIn};
ghost use Rattle.hm_messages_hints.specs.Repairs.{IsRepair};

use crate::trial::is_read;
use hm_lex::Token;
use hm_messages_hints::{Mark, Repair, Scope, TokenChange};
use hm_messages_outline::{Enclosing, declaration_at, open_bracket, symbols_of};
use hm_parse_grammar::Symbol;
use std::alloc::{AllocError, Global};

/// The marks that are put in at a fault, in this order.
const AT_FAULT: [Mark; 14] = [
    Mark::In,
    Mark::Else,
    Mark::Of,
    Mark::Then,
    Mark::Equals,
    Mark::Arrow,
    Mark::LeftBrace,
    Mark::Comma,
    Mark::Where,
    Mark::Let,
    Mark::RightBrace,
    Mark::Semicolon,
    Mark::Open,
    Mark::OpenSquare,
];

/// The marks that take the place of the token at a fault, in this order.
const IN_PLACE: [Mark; 10] = [
    Mark::Where,
    Mark::LeftBrace,
    Mark::Arrow,
    Mark::Equals,
    Mark::Semicolon,
    Mark::Comma,
    Mark::Of,
    Mark::Then,
    Mark::Else,
    Mark::In,
];

/// The marks that are put in before a fault, in this order at each place.
const BEFORE_FAULT: [Mark; 18] = [
    Mark::Equals,
    Mark::Arrow,
    Mark::Comma,
    Mark::Of,
    Mark::Then,
    Mark::Open,
    Mark::OpenSquare,
    Mark::Case,
    Mark::If,
    Mark::Let,
    Mark::Where,
    Mark::LeftBrace,
    Mark::In,
    Mark::Close,
    Mark::CloseSquare,
    Mark::Else,
    Mark::RightBrace,
    Mark::Semicolon,
];

/// The number of tokens before a fault at which marks are put in.
const MOST_BEFORE: usize = 40;

/// The number of beginnings of lines before a fault at which a `;` is put in.
const MOST_LINES: usize = 4;

/// The most bytes of a source in which a change is searched. A change can join parts of a source, so that it nests deeper than the source.
/// The stack for a source of at most this length has room for twice its depth.
const LONGEST: usize = 1 << 17;

/// The most that the trials of one search may cost with a declaration, and also with all tokens. It bounds their time to less than half a
/// second for any source.
const MOST_COST: usize = 1 << 22;

/// The cost of reading a token.
const COST_OF_TOKEN: usize = 16;

/// The number of bytes of the source that are copied at a cost of one.
const BYTES_PER_COST: usize = 16;

/// A change of the token with this number.
#[derive(Clone, Copy)]
struct Candidate {
    at: usize,
    change: TokenChange,
}

/// Returns the innermost bracket that is open before a fault, if one is.
fn innermost(symbols: &[Symbol], fault: usize) -> Option<Symbol> {
    let bracket = open_bracket(&symbols[..fault.min(symbols.len())])?;
    if bracket < symbols.len() {
        return Some(symbols[bracket]);
    }
    None
}

/// Returns the mark that closes a bracket.
fn closing(bracket: Symbol) -> Mark {
    match bracket {
        Symbol::Open => Mark::Close,
        Symbol::OpenSquare => Mark::CloseSquare,
        _ => Mark::RightBrace,
    }
}

/// Returns the bracket that a symbol closes, if it closes one.
fn opening(symbol: Symbol) -> Option<Symbol> {
    match symbol {
        Symbol::Close => Some(Symbol::Open),
        Symbol::CloseSquare => Some(Symbol::OpenSquare),
        Symbol::RightBrace => Some(Symbol::LeftBrace),
        _ => None,
    }
}

/// Returns whether the symbol at a fault closes a bracket, and none of its kind is open.
fn is_unopened(symbols: &[Symbol], fault: usize) -> bool {
    let Some(here) = symbols.get(fault) else {
        return false;
    };
    let Some(bracket) = opening(*here) else {
        return false;
    };
    let mut end = fault;
    for _ in 0..fault {
        let Some(at) = open_bracket(&symbols[..end.min(symbols.len())]) else {
            return true;
        };
        let Some(opened) = symbols.get(at) else {
            return true;
        };
        if opened.is(bracket) {
            return false;
        }
        end = at;
    }
    true
}

/// Adds the changes at the beginnings of the lines up to a fault, the last line first.
fn add_line_starts(
    found: &mut Vec<Candidate>,
    tokens: &[Token],
    fault: usize,
) -> Result<(), AllocError> {
    let last = fault.min(tokens.len().saturating_sub(1));
    let mut lines = 0usize;
    for after in 0..last {
        let at = last - after;
        if lines == MOST_LINES {
            return Ok(());
        }
        if tokens[at].place.line != tokens[at - 1].place.line {
            let change = TokenChange::Insert(Mark::Semicolon);
            found.push(Candidate { at, change })?;
            lines = lines.saturating_add(1);
        }
    }
    Ok(())
}

/// Adds the changes of the token at a fault.
fn add_at_fault(found: &mut Vec<Candidate>, fault: usize) -> Result<(), AllocError> {
    let at = fault;
    for mark in &AT_FAULT {
        let change = TokenChange::Insert(*mark);
        found.push(Candidate { at, change })?;
    }
    for mark in &IN_PLACE {
        let change = TokenChange::Replace(*mark);
        found.push(Candidate { at, change })?;
    }
    Ok(())
}

/// Adds the changes before a fault, the nearest first.
fn add_before_fault(found: &mut Vec<Candidate>, fault: usize) -> Result<(), AllocError> {
    let most = fault.min(MOST_BEFORE);
    for after in 0..most {
        let at = fault - 1 - after;
        for mark in &BEFORE_FAULT {
            let change = TokenChange::Insert(*mark);
            found.push(Candidate { at, change })?;
        }
    }
    Ok(())
}

/// Adds the change of a `:` after the first name of a declaration to `::`.
fn add_signature(
    found: &mut Vec<Candidate>,
    symbols: &[Symbol],
    part: Option<Scope>,
) -> Result<(), AllocError> {
    let Some(Scope::Declaration { body, .. }) = part else {
        return Ok(());
    };
    let Some(first) = symbols.get(body.start) else {
        return Ok(());
    };
    let at = body.start.saturating_add(1);
    let Some(second) = symbols.get(at) else {
        return Ok(());
    };
    if first.is(Symbol::Var) && second.is(Symbol::Colon) {
        let change = TokenChange::Replace(Mark::OfType);
        found.push(Candidate { at, change })?;
    }
    Ok(())
}

/// Adds the change that puts `\` in after the `(` of a `->` at a fault.
fn add_lambda(
    found: &mut Vec<Candidate>,
    symbols: &[Symbol],
    fault: usize,
) -> Result<(), AllocError> {
    let Some(here) = symbols.get(fault) else {
        return Ok(());
    };
    if !here.is(Symbol::Arrow) {
        return Ok(());
    }
    let Some(bracket) = open_bracket(&symbols[..fault.min(symbols.len())]) else {
        return Ok(());
    };
    let Some(opened) = symbols.get(bracket) else {
        return Ok(());
    };
    if opened.is(Symbol::Open) {
        let at = bracket.saturating_add(1);
        let change = TokenChange::Insert(Mark::Backslash);
        found.push(Candidate { at, change })?;
    }
    Ok(())
}

/// Returns the declaration that a fault is in.
fn part_at(symbols: &[Symbol], fault: usize) -> Option<Scope> {
    let Enclosing { header, body } = declaration_at(symbols, fault)?;
    Some(Scope::Declaration { header, body })
}

/// Returns the changes to try at a fault, the likeliest first.
fn candidates(
    alloc: Global,
    tokens: &[Token],
    symbols: &[Symbol],
    fault: usize,
    part: Option<Scope>,
) -> Result<Vec<Candidate>, AllocError> {
    let mut found = Vec::new(alloc);
    let at = fault;
    if is_unopened(symbols, fault) {
        let change = TokenChange::Remove;
        found.push(Candidate { at, change })?;
    }
    if let Some(bracket) = innermost(symbols, fault) {
        let change = TokenChange::Insert(closing(bracket));
        found.push(Candidate { at, change })?;
    }
    add_signature(&mut found, symbols, part)?;
    add_lambda(&mut found, symbols, fault)?;
    add_line_starts(&mut found, tokens, fault)?;
    add_at_fault(&mut found, fault)?;
    add_before_fault(&mut found, fault)?;
    let change = TokenChange::Remove;
    found.push(Candidate { at, change })?;
    Ok(found)
}

/// Returns the cost of a trial.
fn cost_of(source: &[u8], tokens: &[Token], scope: Scope) -> usize {
    let read = match scope {
        Scope::Whole => tokens.len(),
        Scope::Declaration { header, body } => body
            .end
            .saturating_sub(body.start)
            .saturating_add(header.end.saturating_sub(header.start)),
    };
    read.saturating_mul(COST_OF_TOKEN)
        .saturating_add(source.len() / BYTES_PER_COST)
}

/// Tries a change, if its cost is at most `left`, and takes the cost off. Returns the change if the tokens can be read with it.
fn tried(
    alloc: Global,
    source: &[u8],
    tokens: &[Token],
    repair: Repair,
    left: &mut usize,
) -> Result<Option<Repair>, AllocError>
    requires { All (LiesIn source.now) tokens.now }
    ensures { IfOk result (λ found. IfSome found (IsRepair source.now tokens.now)) }
{
    let Some(rest) = left.checked_sub(cost_of(source, tokens, repair.scope)) else {
        return Ok(None);
    };
    *left = rest;
    if is_read(alloc, source, tokens, repair)? {
        return Ok(Some(repair));
    }
    Ok(None)
}

/// Returns the first of these changes with which the given part of the tokens, or all of them, can be read.
fn first_read(
    alloc: Global,
    source: &[u8],
    tokens: &[Token],
    changes: &[Candidate],
    part: Option<Scope>,
) -> Result<Option<Repair>, AllocError>
    requires { All (LiesIn source.now) tokens.now }
    ensures { IfOk result (λ found. IfSome found (IsRepair source.now tokens.now)) }
{
    let mut left_of_part = MOST_COST;
    let mut left_of_all = MOST_COST;
    for candidate in changes {
        let Candidate { at, change } = *candidate;
        if let Some(scope) = part {
            let repair = Repair { at, change, scope };
            match tried(alloc, source, tokens, repair, &mut left_of_part)? {
                Some(found) => return Ok(Some(found)),
                None => {}
            }
        }
        let scope = Scope::Whole;
        let repair = Repair { at, change, scope };
        match tried(alloc, source, tokens, repair, &mut left_of_all)? {
            Some(found) => return Ok(Some(found)),
            None => {}
        }
    }
    Ok(None)
}

// Why: docs/DECISIONS.md, "Hints by the parser".
/// Returns a change with which a source that has a fault of syntax, or one declaration of it, can be read.
///
/// `fault` is the number of the first token with which no source begins, or the number of tokens at the end of the source. Each change is
/// tried first in the declaration with the fault alone, so other declarations may have faults too. Returns `None` if none of the tried
/// changes works, and for a source of more than 131,072 bytes.
pub fn repair_at(
    alloc: Global,
    source: &[u8],
    tokens: &[Token],
    fault: usize,
) -> Result<Option<Repair>, AllocError>
    requires { All (LiesIn source.now) tokens.now }
    ensures { IfOk result (λ found. IfSome found (IsRepair source.now tokens.now)) }
{
    if source.len() > LONGEST {
        return Ok(None);
    }
    let symbols = symbols_of(alloc, source, tokens)?;
    let part = part_at(symbols.as_slice(), fault);
    let changes = candidates(alloc, tokens, symbols.as_slice(), fault, part)?;
    first_read(alloc, source, tokens, changes.as_slice(), part)
}
