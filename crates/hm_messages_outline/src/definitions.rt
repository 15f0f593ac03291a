//! The tokens of a definition and of its signature, and the names that it mentions.

use crate::bytes::bytes_in;
use crate::declarations::{declaration_end, header_of, past_semicolons};
use crate::outline::{Lexed, Outline};
use crate::tokens::{Run, number_at};
use hm_lex::{Kind, Place, Token};
use hm_parse_grammar::Symbol;
use std::alloc::{AllocError, Global};

/// The most different names that a definition may mention to be explained.
const MOST_NAMES: usize = 256;

/// Returns the bytes of a token, or none if it isn't in the source.
fn token_bytes<'a>(source: &'a [u8], token: &Token) -> &'a [u8] {
    bytes_in(source, token.start as usize, token.end as usize)
}

/// Returns whether a clause of the variable at the token `variable` begins at the token `at`.
pub fn is_clause_of(
    source: &[u8],
    tokens: &[Token],
    outline: &Outline,
    at: usize,
    variable: usize,
) -> bool {
    if at >= tokens.len() || variable >= tokens.len() {
        return false;
    }
    if !outline.symbol(at).is(Symbol::Var) || !outline.symbol(variable).is(Symbol::Var) {
        return false;
    }
    let after = outline.symbol(at.saturating_add(1));
    if after.begins_signature() || after.continues_pattern() {
        return false;
    }
    token_bytes(source, &tokens[at]) == token_bytes(source, &tokens[variable])
}

/// Returns the tokens of the definition that begins here: all clauses that follow each other, or one pattern binding.
pub fn binding_from(source: &[u8], tokens: &[Token], outline: &Outline, start: usize) -> Run {
    let mut end = declaration_end(outline, start);
    if !is_clause_of(source, tokens, outline, start, start) {
        return Run { start, end };
    }
    for _ in start..tokens.len() {
        let next = past_semicolons(outline, end);
        if !is_clause_of(source, tokens, outline, next, start) {
            return Run { start, end };
        }
        end = declaration_end(outline, next);
    }
    Run { start, end }
}

/// Returns the tokens of the definition that begins at a place.
pub fn binding_at(source: &[u8], tokens: &[Token], outline: &Outline, place: Place) -> Option<Run> {
    let start = number_at(tokens, place);
    if start >= tokens.len() {
        return None;
    }
    Some(binding_from(source, tokens, outline, start))
}

/// Returns whether a name is among others.
fn is_among(names: &[&str], name: &str) -> bool {
    names.iter().any(|other| *other == name)
}

/// Returns the text of a token, or no text if it isn't in the source.
pub fn name_at<'a>(source: &'a [u8], token: &Token) -> &'a str {
    match std::str::from_utf8(token_bytes(source, token)) {
        Ok(text) => text,
        Err(_) => "",
    }
}

/// Returns the variables that a definition mentions, each once, except these names. Returns `None` if there are too many.
pub fn names_in<'a>(
    alloc: Global,
    lexed: &Lexed<'a>,
    run: Run,
    left_out: &[&str],
) -> Result<Option<Vec<&'a str>>, AllocError> {
    let mut names = Vec::new(alloc);
    for at in run.start..run.end.min(lexed.tokens.len()) {
        let token = &lexed.tokens[at];
        if token.kind == Kind::VarId {
            let name = name_at(lexed.source, token);
            if !is_among(names.as_slice(), name) && !is_among(left_out, name) {
                names.push(name)?;
            }
        }
        if names.len() > MOST_NAMES {
            return Ok(None);
        }
    }
    Ok(Some(names))
}

/// Returns whether a declaration is a clause of a variable that a signature names.
pub fn has_clause(lexed: &Lexed<'_>, signature: Run, at: usize) -> bool {
    for number in signature.start..signature.end {
        if lexed.outline.symbol(number).is(Symbol::OfType) {
            return false;
        }
        if is_clause_of(lexed.source, lexed.tokens, lexed.outline, at, number) {
            return true;
        }
    }
    false
}

/// Returns the signature of the variable of which a clause begins at this token.
pub fn signature_of(lexed: &Lexed<'_>, clause: usize) -> Option<Run> {
    let header = header_of(lexed.outline, clause)?;
    let close = lexed.outline.closing(header.end.saturating_sub(1));
    let mut at = header.end;
    for _ in header.end..close {
        if at >= close {
            return None;
        }
        let end = declaration_end(lexed.outline, at);
        let run = Run { start: at, end };
        let after = lexed.outline.symbol(at.saturating_add(1));
        if lexed.outline.symbol(at).is(Symbol::Var)
            && after.begins_signature()
            && has_clause(lexed, run, clause)
        {
            return Some(run);
        }
        at = end.saturating_add(1);
    }
    None
}
