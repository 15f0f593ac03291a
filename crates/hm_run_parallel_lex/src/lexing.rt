//! Lexes a source with several threads.
ghost use Rattle.std.specs.Prelude.{◌≡◌, ◌+◌, ◌≤◌, IfSome, drop, length, take, true};
ghost use Rattle.hm_lex.specs.Faults.{AreTokensOf, max_source_len};
ghost use Rattle.hm_run_tokens.specs.Parts.{AreTokensAfter, IsClosed};

use crate::joining::joined;
use crate::parts::{Part, Rest};
use core::thread::Stack;
use hm_lex::Token;
use hm_run_tokens::{PartTokens, part_len, part_tokens};
use std::alloc::Global;
use std::sync::Wait;
use std::thread;
use std::thread::{Scope, Threads};

/// The length of the longest source that has tokens.
const MAX_SOURCE_LEN: usize = 1_048_576;

/// The least number of bytes of a part. A thread for less would save no time.
const LEAST_PART: usize = 1 << 14;

/// The bytes of stack for a thread that lexes. The lexer doesn't recurse.
const STACK: usize = 1 << 20;

/// Returns the tokens of a part, lexed on this thread, or `None` if it has a fault or memory ran out.
fn lexed(alloc: Global, part: Part<'_>) -> Option<PartTokens>
    requires { length part.before.now + length part.text.now ≤ max_source_len }
    ensures { IfSome result (λ found. AreTokensAfter part.entry.before.now part.entry.text.now found.tokens.items
        × (found.is_closed ≡ true → IsClosed part.entry.text.now)) }
{
    match part_tokens(alloc, part.before, part.text) {
        Ok(found) => Some(found),
        Err(_) => None,
    }
}

/// Returns the tokens of the last part.
fn last_tokens(alloc: Global, part: Part<'_>) -> Option<Vec<Token>>
    requires { length part.before.now + length part.text.now ≤ max_source_len }
    ensures { IfSome result (λ tokens. AreTokensAfter part.entry.before.now part.entry.text.now tokens.items) }
{
    match lexed(alloc, part) {
        Some(found) => {
            let PartTokens { tokens, .. } = found;
            Some(tokens)
        }
        None => None,
    }
}

/// Returns the tokens of the rest of a source. Gives a part of at least `least` bytes to another thread, if one can start, while this thread
/// goes on after it.
fn lexed_by_threads<'s, E, R: Threads>(
    rt: &R,
    scope: &Scope<'s, E>,
    alloc: Global,
    rest: Rest<'s>,
    least: usize,
) -> Option<Vec<Token>>
    requires from { rest.from ≤ length rest.source.now }
    requires short { length rest.source.now ≤ max_source_len }
    ensures { IfSome result (λ tokens. AreTokensAfter (take rest.entry.from rest.entry.source.now) (drop rest.entry.from rest.entry.source.now) tokens.items) }
{
    let (before, text) = rest.source.split_at(rest.from);
    let len = part_len(text, least);
    if len >= text.len() {
        return last_tokens(alloc, Part { before, text });
    }
    let (text, _) = text.split_at(len);
    let behind = Rest {
        source: rest.source,
        from: rest.from + len,
    };
    let front = Part { before, text };
    let thread = Stack::new().stack_size(STACK);
    let work = move ||
        requires { length front.before.now + length front.text.now ≤ max_source_len }
    { lexed(alloc, front) };
    let begun = thread.spawn_scoped_with(scope, front, work);
    let later = lexed_by_threads(rt, scope, alloc, behind, least);
    match begun {
        Ok(thread) => joined(thread.join(rt), later),
        Err(_) => joined(lexed(alloc, front), later),
    }
}

/// Returns the tokens of a source, lexed in parts of at least `least` bytes.
fn lexed_in_parts<T: Threads + Wait + Sync>(
    rt: &T,
    alloc: Global,
    source: &[u8],
    least: usize,
) -> Option<Vec<Token>>
    requires { length source.now ≤ max_source_len }
    ensures { IfSome result (λ tokens. AreTokensOf source.now tokens.items) }
{
    thread::scope(
        thread::scope_env(),
        rt,
        |scope| -> Option<Vec<Token>>
            requires { length source.now ≤ max_source_len }
            ensures { IfSome result (λ tokens. AreTokensOf source.entry.now tokens.items) }
        { lexed_by_threads(rt, scope, alloc, Rest { source, from: 0 }, least) },
    )
}

// Why: docs/DECISIONS.md, "A lone source".
/// Returns the tokens of a source. Up to `threads` threads lex a part each.
///
/// Returns `None` if the source must be lexed as a whole:
/// - It has a lexical fault, or memory ran out.
/// - It is too short for two parts.
/// - The parts don't fit together, for example because a line in a comment begins with `module`.
pub fn lex_in_parts<T: Threads + Wait + Sync>(
    rt: &T,
    alloc: Global,
    source: &[u8],
    threads: usize,
) -> Option<Vec<Token>>
    // These are the tokens of the source's cut into white space, comments and lexemes, each the longest at its place.
    ensures { IfSome result (λ tokens. AreTokensOf source.now tokens.items) }
{
    let least = (source.len() / threads.max(1))
        .saturating_add(1)
        .max(LEAST_PART);
    if source.len() > MAX_SOURCE_LEN || least >= source.len() {
        return None;
    }
    lexed_in_parts(rt, alloc, source, least)
}
