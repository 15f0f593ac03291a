//! An excerpt as text: the shown part of the line, with a mark in the line below.
ghost use Rattle.std.specs.Prelude.{◌≡◌, ◌++◌, IfOk, OnOk, replicate};
ghost use Rattle.hm_messages_excerpts.specs.Drawing.{dots, excerpt_text, indent, line_text, mark_text, mark_width, without_return};

use crate::escapes::{shown, shown_width};
use crate::excerpt::Excerpt;
use crate::marks::marked;
use std::alloc::{AllocError, Global};

/// Returns the dots that replace a cut part of a line.
fn dots(is_cut: bool) -> &'static [u8]
    ensures { result.now ≡ dots is_cut }
{
    if is_cut { b"..." } else { b"" }
}

/// Returns the spaces below these dots.
fn indent(is_cut: bool) -> &'static [u8]
    ensures { result.now ≡ indent is_cut }
{
    if is_cut { b"   " } else { b"" }
}

/// Returns a text without a carriage return at its end.
fn without_return(text: &[u8]) -> &[u8]
    ensures { result.now ≡ without_return text.now }
{
    match text.last() {
        Some(b'\r') => &text[..text.len() - 1],
        _ => text,
    }
}

/// Appends `count` copies of a byte.
fn add_copies(text: &mut Vec<u8>, byte: u8, count: usize) -> Result<(), AllocError>
    ensures { OnOk result (text.new.items ≡ text.old.items ++ replicate count byte) }
{
    for _ in 0..count {
        text.push(byte)?;
    }
    Ok(())
}

/// Returns the number of columns of the mark.
fn mark_width(alloc: Global, right: &[u8]) -> Result<usize, AllocError>
    ensures { IfOk result (λ columns. columns ≡ mark_width right.now) }
{
    let columns = shown_width(alloc, &right[..marked(right)])?;
    Ok(columns.max(1))
}

/// Appends the line of an excerpt, without its end.
fn add_line(alloc: Global, text: &mut Vec<u8>, excerpt: &Excerpt<'_>) -> Result<(), AllocError>
    ensures { OnOk result (text.new.items ≡ text.old.items ++ line_text excerpt.now) }
{
    text.extend_from_slice(dots(excerpt.is_cut_left))?;
    text.extend_from_slice(shown(alloc, excerpt.left)?.as_bytes())?;
    text.extend_from_slice(shown(alloc, without_return(excerpt.right))?.as_bytes())?;
    text.extend_from_slice(dots(excerpt.is_cut_right))?;
    Ok(())
}

/// Appends the mark below the place.
fn add_mark(alloc: Global, text: &mut Vec<u8>, excerpt: &Excerpt<'_>) -> Result<(), AllocError>
    ensures { OnOk result (text.new.items ≡ text.old.items ++ mark_text excerpt.now) }
{
    let blanks = shown_width(alloc, excerpt.left)?;
    let marks = mark_width(alloc, excerpt.right)?;
    text.extend_from_slice(indent(excerpt.is_cut_left))?;
    add_copies(text, b' ', blanks)?;
    add_copies(text, b'^', marks)?;
    Ok(())
}

/// Appends an excerpt: the line, and a mark below the place.
pub fn add_excerpt(
    alloc: Global,
    text: &mut Vec<u8>,
    excerpt: &Excerpt<'_>,
) -> Result<(), AllocError>
    ensures { OnOk result (text.new.items ≡ text.old.items ++ excerpt_text excerpt.now) }
{
    add_line(alloc, text, excerpt)?;
    text.extend_from_slice(b"\n")?;
    add_mark(alloc, text, excerpt)?;
    text.extend_from_slice(b"\n")?;
    Ok(())
}
