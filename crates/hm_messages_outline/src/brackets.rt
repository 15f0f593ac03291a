//! Brackets: which are open after some symbols, and where each is closed.
ghost use Rattle.std.specs.Prelude.{◌≡◌, IfNone, IfSome};
ghost use Rattle.hm_messages_outline.specs.Brackets.{IsNoneOpen, IsInnermost, closes, opens};

use hm_parse_grammar::Symbol;
use std::alloc::{AllocError, Global};

/// Returns where each bracket is closed.
pub(crate) fn closing_of(alloc: Global, symbols: &[Symbol]) -> Result<Vec<usize>, AllocError> {
    let mut closing = Vec::with_capacity(alloc, symbols.len())?;
    let mut open = Vec::new(alloc);
    for (at, symbol) in symbols.iter().enumerate() {
        closing.push(at)?;
        if opens(*symbol) {
            open.push(at)?;
        } else if closes(*symbol) {
            if let Some(start) = open.pop() {
                if start < closing.len() {
                    closing[start] = at;
                }
            }
        }
    }
    Ok(closing)
}

/// Returns whether this is an opening bracket.
pub(crate) fn opens(symbol: Symbol) -> bool
    ensures { result ≡ opens symbol }
{
    match symbol {
        Symbol::Open | Symbol::OpenSquare | Symbol::LeftBrace => true,
        _ => false,
    }
}

/// Returns whether this is a closing bracket.
pub(crate) fn closes(symbol: Symbol) -> bool
    ensures { result ≡ closes symbol }
{
    match symbol {
        Symbol::Close | Symbol::CloseSquare | Symbol::RightBrace => true,
        _ => false,
    }
}

/// Returns the number of the innermost open bracket after these symbols, if one is open.
pub fn open_bracket(symbols: &[Symbol]) -> Option<usize>
    ensures some { IfSome result (IsInnermost symbols.now) }
    ensures none { IfNone result (IsNoneOpen symbols.now) }
{
    let mut unmatched = 0usize;
    let mut at = symbols.len();
    while at > 0 {
        let symbol = symbols[at - 1];
        if closes(symbol) {
            unmatched += 1;
        } else if opens(symbol) {
            if unmatched == 0 {
                return Some(at - 1);
            }
            unmatched -= 1;
        }
        at -= 1;
    }
    None
}
