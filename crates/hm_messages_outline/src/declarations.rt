//! The declarations of a module whose brackets match.

use crate::outline::{Lexed, Outline};
use crate::tokens::Run;
use hm_parse_grammar::Symbol;

/// Returns the tokens of the declarations of the module with this name: those between its brackets.
pub fn declarations_of(lexed: &Lexed<'_>, name: &str) -> Option<Run> {
    let mut next = 0usize;
    let mut is_named = false;
    for at in 0..lexed.outline.len() {
        if at == next {
            next = lexed.outline.past(at);
            match lexed.outline.symbol(at) {
                Symbol::Module => {
                    is_named = lexed.text(at.saturating_add(1)) == name.as_bytes();
                }
                Symbol::LeftBrace if is_named => {
                    return Some(Run {
                        start: at.saturating_add(1),
                        end: lexed.outline.closing(at),
                    });
                }
                _ => {}
            }
        }
    }
    None
}

/// Returns where the declaration that begins here ends: at its `;`, or at the `}` of its list.
pub fn declaration_end(outline: &Outline, start: usize) -> usize {
    let mut next = start;
    for at in start..outline.len() {
        if at == next {
            next = outline.past(at);
            match outline.symbol(at) {
                Symbol::Semicolon | Symbol::RightBrace => return at,
                _ => {}
            }
        }
    }
    outline.len()
}

/// Returns the number of the first token from this one on that isn't `;`.
pub fn past_semicolons(outline: &Outline, start: usize) -> usize {
    for at in start..outline.len() {
        if !outline.symbol(at).is(Symbol::Semicolon) {
            return at;
        }
    }
    outline.len()
}

/// Returns the header of the module that a token is in: from its first token to the bracket that opens its declarations.
pub fn header_of(outline: &Outline, token: usize) -> Option<Run> {
    let mut start = 0usize;
    let mut next = 0usize;
    for at in 0..token {
        if at == next {
            next = outline.past(at);
            match outline.symbol(at) {
                Symbol::Module => start = at,
                Symbol::LeftBrace if next > token => {
                    return Some(Run {
                        start,
                        end: at.saturating_add(1),
                    });
                }
                _ => {}
            }
        }
    }
    None
}
