//! Positions in a text.
ghost use Rattle.std.specs.Prelude.{◌≡◌, ℕ, ◌+◌, ◌*◌, ◌<◌, ◌≤◌, true, Some, IfSome, length, take};
ghost use Rattle.hm_lsp_positions.specs.Lines.{line_start};
ghost use Rattle.hm_lsp_positions.specs.Positions.{is_inside, IsBetween, IsColumn, IsOffsetOf, IsPositionOf};
ghost use Rattle.hm_lsp_positions.specs.Units.{units};
ghost use Rattle.hm_lsp_positions.specs.declared.units.Encoding.TheVariants.{Utf8};

use crate::lines::{line_length, line_start, next_line};
use crate::units::{Encoding, continues, unit_of, units};

/// A position in a text: a line and a column, both counted from 0.
#[derive(Clone, Copy, Debug, PartialEq, Eq)]
pub struct Position {
    /// The number of lines before it.
    pub line: usize,
    /// The number of units before it in its line.
    pub column: usize,
}

/// Returns the largest number of bytes of a line with at most so many units.
fn most_bytes(encoding: Encoding, line: &[u8], column: usize) -> usize
    ensures within { result ≤ length line.now }
    ensures most { units encoding (take result line.now) ≤ column }
    ensures last { result < length line.now → column < units encoding (take (result + 1) line.now) }
{
    let mut sum = 0;
    'bytes: for (at, byte) in line.iter().enumerate() {
        sum += unit_of(encoding, *byte);
        if sum > column {
            return at;
        }
    }
    line.len()
}

/// Returns whether a place of a line is inside a character.
fn is_inside(line: &[u8], place: usize) -> bool
    ensures { result ≡ is_inside line.now place }
{
    place > 0 && place < line.len() && continues(line[place])
}

/// Returns the last place at or before this one that isn't inside a character.
fn boundary(line: &[u8], most: usize) -> usize
    requires { most ≤ length line.now }
    ensures before { result ≤ most }
    ensures between { IsBetween line.now result }
    ensures last { (j : ℕ) → result < j → j ≤ most → is_inside line.now j ≡ true }
{
    let mut place = most;
    'places: while is_inside(line, place) {
        place -= 1;
    }
    place
}

/// Returns the number of bytes of a line before a column.
pub(crate) fn column_bytes(encoding: Encoding, line: &[u8], column: usize) -> usize
    ensures { IsColumn encoding line.now column result }
{
    boundary(line, most_bytes(encoding, line, column))
}

/// Returns the largest number of bytes of a line that isn't above a column, which counts bytes.
fn most_of_bytes(line: &[u8], column: usize) -> usize
    ensures within { result ≤ length line.now }
    ensures most { units Utf8 (take result line.now) ≤ column }
    ensures last { result < length line.now → column < units Utf8 (take (result + 1) line.now) }
{
    if line.len() <= column {
        return line.len();
    }
    column
}

/// Returns the number of bytes of a line before a column, which counts bytes.
pub(crate) fn byte_column(line: &[u8], column: usize) -> usize
    ensures { IsColumn Utf8 line.now column result }
{
    boundary(line, most_of_bytes(line, column))
}

// Why: docs/DECISIONS.md, "Positions that don't exist".
/// Returns the number of bytes before a position.
///
/// A position after the end of its line is the end of the line. One in a character is the start of the character. One after the last line is the end of
/// the text.
pub fn offset_of(encoding: Encoding, text: &[u8], position: Position) -> usize
    ensures place { IsOffsetOf encoding text.now position result }
    ensures within { result ≤ length text.now }
{
    match line_start(text, position.line) {
        None => text.len(),
        Some(start) => {
            let rest = &text[start..];
            let line = &rest[..line_length(rest)];
            start + column_bytes(encoding, line, position.column)
        }
    }
}

/// A line of a text: its number and the number of bytes before it.
#[derive(Clone, Copy)]
struct LineAt {
    line: usize,
    start: usize,
}

/// Returns the last line that begins at or before the place after so many bytes.
fn line_at(text: &[u8], offset: usize) -> LineAt
    requires { offset ≤ length text.now }
    ensures starts { line_start result.line text.now ≡ Some result.start }
    ensures after { result.start ≤ offset }
    ensures line { result.line ≤ result.start }
    ensures last { IfSome (line_start (result.line + 1) text.now) (λ next. offset < next) }
{
    let mut start = 0;
    let mut line = 0;
    'lines: while let Some(next) = next_line(&text[start..]) {
        if next > offset - start {
            return LineAt { line, start };
        }
        start += next;
        line += 1;
    }
    LineAt { line, start }
}

/// Returns the position of the place after so many bytes.
pub fn position_of(encoding: Encoding, text: &[u8], offset: usize) -> Position
    requires { offset ≤ length text.now }
    ensures place { IsPositionOf encoding text.now offset result }
    ensures line { result.line ≤ offset }
    ensures column { result.column ≤ 2 * offset }
{
    let found = line_at(text, offset);
    Position {
        line: found.line,
        column: units(encoding, &text[found.start..offset]),
    }
}
