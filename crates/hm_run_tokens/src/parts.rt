//! Lexes a source in parts.
ghost use Rattle.std.specs.Prelude.{◌≡◌, ◌+◌, ◌-◌, ◌≤◌, ◌<◌, IfErr, IfOk, true, drop, length, slice_range, take};
ghost use Rattle.hm_lex.specs.Faults.{AreTokensOf, IsRefusal, max_source_len};
ghost use Rattle.hm_run_tokens.specs.Parts.{AreTokensAfter, EndsLine, IsClosed};

use crate::brackets::is_closed;
use crate::moving::move_after;
use hm_lex::{LexFault, Token, lex};
use std::alloc::Global;

/// The tokens of a part of a source, with their places in the source.
#[derive(Drop)]
pub struct PartTokens {
    pub tokens: Vec<Token>,
    /// Whether each bracket that is opened in the part is closed in it.
    pub is_closed: bool,
}

/// Returns the tokens of a part of a source, if these lines come before it.
///
/// # Errors
///
/// The first fault of the part, and `Memory` if memory ran out.
pub fn part_tokens(alloc: Global, lines: &[u8], part: &[u8]) -> Result<PartTokens, LexFault>
    requires { length lines.now + length part.now ≤ max_source_len }
    ensures tokens { IfOk result (λ found. AreTokensAfter lines.now part.now found.tokens.items) }
    ensures closed { IfOk result (λ found. found.is_closed ≡ true → IsClosed part.now) }
    ensures fault { IfErr result (λ fault. IsRefusal part.now fault) }
{
    let own = match lex(alloc, part) {
        Ok(own) => own,
        Err(fault) => return Err(fault),
    };
    let is_closed = is_closed(part, own.as_slice());
    Ok(PartTokens {
        tokens: move_after(lines, part.len(), own),
        is_closed,
    })
}

/// Returns whether a line that begins with `module` begins at a byte of the text.
fn begins_module(text: &[u8], at: usize) -> bool
    requires some { 0 < at }
    requires inside { at ≤ length text.now }
    ensures { result ≡ true → EndsLine (take at text.now) }
{
    text[at - 1] == b'\n' && text[at..].starts_with(b"module")
}

// Why: docs/DECISIONS.md, "A lone source".
/// Returns the length of a part of at least this many bytes at the front of a text. The next part begins with a line that begins with `module`.
pub fn part_len(text: &[u8], least: usize) -> usize
    ensures inside { result ≤ length text.now }
    ensures some { 0 < length text.now → 0 < result }
    ensures line { result < length text.now → EndsLine (take result text.now) }
{
    for at in least.max(1)..text.len() {
        if begins_module(text, at) {
            return at;
        }
    }
    text.len()
}
