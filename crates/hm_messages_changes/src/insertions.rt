//! A source with a text put in around a part, or before it.
ghost use Rattle.std.specs.Prelude.{◌≡◌, IfOk};
ghost use Rattle.hm_messages_changes.specs.Holes.{IsPartOf};
ghost use Rattle.hm_messages_changes.specs.Insertions.{text_after as after_bytes, text_before as before_bytes, with_insertion as insertion_text};

use crate::data::SourceRange;
use std::alloc::{AllocError, Global};

/// What is put in around an expression, or before it.
#[derive(Clone, Copy)]
pub enum Insertion {
    /// Brackets.
    Brackets,
    /// The brackets of a list.
    ListBrackets,
    /// One more argument after it: the hole.
    Argument,
    /// A `;` before it.
    Semicolon,
    /// A `,` before it.
    Comma,
}

/// Returns what is put in before the expression.
pub(crate) fn text_before(insertion: Insertion) -> &'static str
    ensures { result.now ≡ before_bytes insertion }
{
    match insertion {
        Insertion::Brackets => "(",
        Insertion::ListBrackets => "[",
        Insertion::Argument => "(",
        Insertion::Semicolon => "; ",
        Insertion::Comma => ", ",
    }
}

/// Returns what is put in after the expression.
pub(crate) fn text_after(insertion: Insertion) -> &'static str
    ensures { result.now ≡ after_bytes insertion }
{
    match insertion {
        Insertion::Brackets => ")",
        Insertion::ListBrackets => "]",
        Insertion::Argument => " (let { h = h } in h))",
        Insertion::Semicolon => "",
        Insertion::Comma => "",
    }
}

/// Returns the source with a text put in around a part.
pub fn with_insertion(
    alloc: Global,
    source: &[u8],
    insertion: Insertion,
    part: SourceRange,
) -> Result<Vec<u8>, AllocError>
    requires { IsPartOf source.now part }
    ensures { IfOk result (λ made. made.items ≡ insertion_text source.now insertion part) }
{
    let mut made = Vec::from_slice(alloc, &source[..part.from])?;
    made.extend_from_slice(text_before(insertion).as_bytes())?;
    made.extend_from_slice(&source[part.from..part.to])?;
    made.extend_from_slice(text_after(insertion).as_bytes())?;
    made.extend_from_slice(&source[part.to..])?;
    Ok(made)
}
