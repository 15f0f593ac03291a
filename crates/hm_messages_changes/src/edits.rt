//! Makes changed sources: puts texts in place of ranges of bytes.
ghost use Rattle.std.specs.Prelude.{◌≡◌, IfOk, flat_map};

use hm_messages_outline::{Lexed, Run, bytes_in};
use std::alloc::{AllocError, Global};

/// The text that an edit puts in.
#[derive(Clone, Copy)]
pub enum Filling {
    Text(&'static str),
    /// The bytes of the source from one number up to another.
    Copy(usize, usize),
    /// The same, in brackets.
    Bracketed(usize, usize),
}

/// A text in place of the bytes from one number up to another.
#[derive(Clone, Copy)]
pub struct Edit {
    pub from: usize,
    pub to: usize,
    pub by: Filling,
}

/// Returns the edit that puts a text in place of a run.
pub fn in_place(lexed: &Lexed<'_>, run: Run, by: Filling) -> Edit {
    let from = lexed.start(run.start);
    let to = lexed.end(run);
    Edit { from, to, by }
}

/// Returns the edit that puts a text before a run.
pub(crate) fn before(lexed: &Lexed<'_>, run: Run, by: Filling) -> Edit {
    let from = lexed.start(run.start);
    Edit { from, to: from, by }
}

/// Returns the edit that puts a text after a run.
pub(crate) fn after(lexed: &Lexed<'_>, run: Run, by: Filling) -> Edit {
    let to = lexed.end(run);
    Edit { from: to, to, by }
}

/// Returns a copy of a run.
pub(crate) fn copied(lexed: &Lexed<'_>, run: Run) -> Filling {
    Filling::Copy(lexed.start(run.start), lexed.end(run))
}

/// Returns a copy of a run, in brackets.
pub(crate) fn bracketed(lexed: &Lexed<'_>, run: Run) -> Filling {
    Filling::Bracketed(lexed.start(run.start), lexed.end(run))
}

/// Returns pieces of a text, joined.
pub(crate) fn joined(alloc: Global, pieces: &[&[u8]]) -> Result<Vec<u8>, AllocError>
    ensures { IfOk result (λ made. made.items ≡ flat_map (λ p. p.now) pieces.now) }
{
    let mut made = Vec::new(alloc);
    for piece in pieces {
        made.extend_from_slice(piece)?;
    }
    Ok(made)
}

/// Appends the text that an edit puts in.
fn fill(text: &mut Vec<u8>, source: &[u8], by: Filling) -> Result<(), AllocError> {
    match by {
        Filling::Text(filling) => text.extend_from_slice(filling.as_bytes())?,
        Filling::Copy(from, to) => text.extend_from_slice(bytes_in(source, from, to))?,
        Filling::Bracketed(from, to) => {
            text.extend_from_slice(b"(")?;
            text.extend_from_slice(bytes_in(source, from, to))?;
            text.extend_from_slice(b")")?;
        }
    }
    Ok(())
}

/// Returns the source with these edits, which are in order. An edit that doesn't come after the ones before it is left out.
pub fn edited(alloc: Global, source: &[u8], edits: &[Edit]) -> Result<Vec<u8>, AllocError> {
    let mut text = Vec::new(alloc);
    let mut at = 0usize;
    for edit in edits {
        if at <= edit.from && edit.from <= edit.to && edit.to <= source.len() {
            text.extend_from_slice(bytes_in(source, at, edit.from))?;
            fill(&mut text, source, edit.by)?;
            at = edit.to;
        }
    }
    text.extend_from_slice(bytes_in(source, at, source.len()))?;
    Ok(text)
}
