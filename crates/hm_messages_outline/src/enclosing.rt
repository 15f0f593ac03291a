//! Finds the declaration that a token is in. It is proved only that the search ends, because a trial alone decides what can be read.

use crate::tokens::Run;
use hm_parse_grammar::Symbol;

/// The tokens of a declaration, and those of the header of its module up to the `{`.
#[derive(Clone, Copy)]
pub struct Enclosing {
    pub header: Run,
    pub body: Run,
}

/// Returns the number of the token with which the module of a fault begins: the last `module` before it that follows a `}`, else the first token.
fn module_start(symbols: &[Symbol], fault: usize) -> usize {
    let mut start = 0;
    for at in 1..fault.min(symbols.len()) {
        if symbols[at].is(Symbol::Module) && symbols[at - 1].is(Symbol::RightBrace) {
            start = at;
        }
    }
    start
}

/// Returns the number of open braces after a symbol.
fn depth_after(depth: usize, symbol: Symbol) -> usize {
    match symbol {
        Symbol::LeftBrace => depth.saturating_add(1),
        Symbol::RightBrace => depth.saturating_sub(1),
        _ => depth,
    }
}

/// Returns where the declaration that begins here ends: at its `;`, or at the `}` of its module.
fn body_end(symbols: &[Symbol], start: usize, fault: usize) -> usize {
    let mut depth = 0usize;
    for at in start..symbols.len() {
        let symbol = symbols[at];
        if depth == 0 {
            if symbol.is(Symbol::RightBrace) {
                return at;
            }
            if symbol.is(Symbol::Semicolon) && at > fault {
                return at;
            }
        }
        depth = depth_after(depth, symbol);
    }
    symbols.len()
}

/// Returns the declaration that the token with this number is in, with the header of its module up to the `{`.
pub fn declaration_at(symbols: &[Symbol], fault: usize) -> Option<Enclosing> {
    let first = module_start(symbols, fault);
    let mut depth = 0usize;
    let mut brace = None;
    let mut start = 0;
    for at in first..fault.min(symbols.len()) {
        let symbol = symbols[at];
        if symbol.is(Symbol::LeftBrace) && brace.is_none() {
            brace = Some(at);
            start = at.saturating_add(1);
        }
        if symbol.is(Symbol::Semicolon) && depth == 1 {
            start = at.saturating_add(1);
        }
        depth = depth_after(depth, symbol);
    }
    let brace = brace?;
    let header = Run {
        start: first,
        end: brace.saturating_add(1),
    };
    let body = Run {
        start,
        end: body_end(symbols, start, fault),
    };
    Some(Enclosing { header, body })
}
