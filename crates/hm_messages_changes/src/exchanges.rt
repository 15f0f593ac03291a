//! A source with two parts exchanged.
ghost use Rattle.std.specs.Prelude.{◌≡◌, ◌≤◌, IfOk};
ghost use Rattle.hm_messages_changes.specs.Holes.{IsPartOf};
ghost use Rattle.hm_messages_changes.specs.Exchanges.{bracketed as bracketed_text, with_exchanged as exchanged_text};

use crate::data::SourceRange;
use crate::edits::joined;
use std::alloc::{AllocError, Global};

/// Returns a part of the source in brackets.
fn bracketed(alloc: Global, source: &[u8], part: SourceRange) -> Result<Vec<u8>, AllocError>
    requires { IsPartOf source.now part }
    ensures { IfOk result (λ made. made.items ≡ bracketed_text source.now part) }
{
    let inner = &source[part.from..part.to];
    Ok(joined(alloc, &[b"(", inner, b")"])?)
}

/// Returns the source with two parts exchanged.
pub fn with_exchanged(
    alloc: Global,
    source: &[u8],
    first: SourceRange,
    second: SourceRange,
) -> Result<Vec<u8>, AllocError>
    requires first { IsPartOf source.now first }
    requires second { IsPartOf source.now second }
    requires apart { first.to ≤ second.from }
    ensures { IfOk result (λ made. made.items ≡ exchanged_text source.now first second) }
{
    let in_front = bracketed(alloc, source, second)?;
    let after = bracketed(alloc, source, first)?;
    let start = &source[..first.from];
    let middle = &source[first.to..second.from];
    let end = &source[second.to..];
    Ok(joined(
        alloc,
        &[start, in_front.as_slice(), middle, after.as_slice(), end],
    )?)
}
