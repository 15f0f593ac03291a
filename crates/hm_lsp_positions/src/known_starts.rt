//! The starts of the first lines of a text, which stay known while the text changes after them.
ghost use Rattle.std.specs.Prelude.{◌≡◌, ◌++◌, ◌≤◌, ℕ, List, IfOk, IfSome, length, take};
ghost use Rattle.hm_lsp_positions.specs.Lines.{line_start};
ghost use Rattle.hm_lsp_positions.specs.Positions.{IsOffsetOf};
ghost use Rattle.hm_lsp_positions.specs.Starts.{AreStarts, is_past};

use crate::lines::{line_length, next_line};
use crate::positions::{Position, column_bytes};
use crate::units::Encoding;
use std::alloc::{AllocError, Global};

/// Returns the start of the first line, which is that of each text.
pub(crate) fn first_start(alloc: Global) -> Result<Vec<usize>, AllocError>
    ensures { IfOk result (λ starts. (text : List ℕ) → AreStarts text starts.items) }
{
    let mut starts = Vec::new(alloc);
    starts.push(0)?;
    Ok(starts)
}

/// Returns the number of bytes before the line with this number, if the text has so many lines. The starts up to that line are known then.
fn start_in(text: &[u8], starts: &mut Vec<usize>, line: usize) -> Result<Option<usize>, AllocError>
    requires { AreStarts text.now starts.old.items }
    ensures starts { AreStarts text.now starts.new.items }
    ensures value { IfOk result (λ start. start ≡ line_start line text.now) }
    ensures within { IfOk result (λ start. IfSome start (λ k. k ≤ length text.now)) }
{
    'lines: while starts.len() <= line {
        let last = starts[starts.len() - 1];
        match next_line(&text[last..]) {
            Some(next) => starts.push(last + next)?,
            None => return Ok(None),
        }
    }
    Ok(Some(starts[line]))
}

/// Returns the number of bytes before a position, as `offset_of` does.
pub(crate) fn offset_in(
    encoding: Encoding,
    text: &[u8],
    starts: &mut Vec<usize>,
    position: Position,
) -> Result<usize, AllocError>
    requires { AreStarts text.now starts.old.items }
    ensures starts { AreStarts text.now starts.new.items }
    ensures place { IfOk result (IsOffsetOf encoding text.now position) }
    ensures within { IfOk result (λ k. k ≤ length text.now) }
{
    match start_in(text, starts, position.line)? {
        None => Ok(text.len()),
        Some(start) => {
            let rest = &text[start..];
            let line = &rest[..line_length(rest)];
            Ok(start + column_bytes(encoding, line, position.column))
        }
    }
}

/// Returns whether the last start isn't before this place, and isn't the first one.
fn is_past(starts: &[usize], from: usize) -> bool
    ensures { result ≡ is_past starts.now from }
{
    starts.len() > 1 && starts[starts.len() - 1] >= from
}

/// Keeps the starts before a place, and that of the first line. They are starts of each text that has the same bytes up to the place.
pub(crate) fn keep_before(starts: &mut Vec<usize>, from: usize)
    ensures { (text rest : List ℕ) → AreStarts text starts.old.items → from ≤ length text → AreStarts (take from text ++ rest) starts.new.items }
{
    'starts: while is_past(starts.as_slice(), from) {
        starts.pop();
    }
}
