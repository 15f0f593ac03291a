//! Cursors in texts, which find the positions of places without reading the text from its start for each.
ghost use Rattle.std.specs.Prelude.{◌≡◌, ◌⊎◌, ◌+◌, ◌<◌, ◌≤◌, None, Some, IfSome, length};
ghost use Rattle.hm_lsp_positions.specs.Cursors.{IsLine, IsSpot, Walk};
ghost use Rattle.hm_lsp_positions.specs.Lines.{line_start};
ghost use Rattle.hm_lsp_positions.specs.Positions.{IsOffsetOf, IsPositionOf};
ghost use Rattle.hm_lsp_positions.specs.declared.units.Encoding.TheVariants.{Utf8};

use crate::lines::{line_length, next_line};
use crate::positions::{Position, byte_column};
use crate::units::{Encoding, units};
use std::marker::Model;

/// A line of a text: its number, the numbers of bytes before it and before its end, and the number of bytes before the next line.
#[derive(Clone, Copy)]
struct Line {
    number: usize,
    start: usize,
    end: usize,
    next: Option<usize>,
}

/// A place of a text: its line, the number of bytes before it, and the number of units before it in its line.
#[derive(Clone, Copy)]
struct Spot {
    line: Line,
    offset: usize,
    column: usize,
}

// Why: docs/DECISIONS.md, "Places in order".
/// A text and a place in it, from which later places are found.
///
/// Finding places in the order of the text reads it twice. A place before the last one is found from the start of its line, or of the text.
#[derive(Drop)]
pub struct Cursor<'a> {
    encoding: Encoding,
    text: &'a [u8],
    spot: Spot,
}

impl<'a> Model for Cursor<'a> {
    ghost use Rattle.hm_lsp_positions.specs.Cursors.{Walk};

    ghost Value = { Walk };

    ghost use Rattle.hm_lsp_positions.specs.Cursors.{IsSpot};

    ghost view = { λ c. record { encoding = c.encoding; text = c.text.now } };

    ghost invariant = { λ c. IsSpot c.encoding c.text.now c.spot };
}

/// Returns the line that begins after so many bytes.
fn line_from(text: &[u8], number: usize, start: usize) -> Line
    requires starts { line_start number text.now ≡ Some start }
    requires within { start ≤ length text.now }
    requires few { number ≤ start }
    ensures line { IsLine text.now result }
    ensures number { result.number ≡ number }
    ensures start { result.start ≡ start }
{
    let rest = &text[start..];
    let size = line_length(rest);
    let end = start + size;
    match next_line(rest) {
        Some(whole) => Line {
            number,
            start,
            end,
            next: Some(start + whole),
        },
        None => Line {
            number,
            start,
            end,
            next: None,
        },
    }
}

/// Returns the first line of a text.
#[tactic(auto, using(crate::proofs::Starts::start_zero))]
fn first_line(text: &[u8]) -> Line
    ensures line { IsLine text.now result }
    ensures number { result.number ≡ 0 }
    ensures start { result.start ≡ 0 }
{
    line_from(text, 0, 0)
}

/// Returns the line after a line, which begins after so many bytes.
fn line_after(text: &[u8], line: Line, next: usize) -> Line
    requires line { IsLine text.now line }
    requires next { line.next ≡ Some next }
    ensures line { IsLine text.now result }
    ensures number { result.number ≡ line.number + 1 }
    ensures start { result.start ≡ next }
    ensures later { line.start < result.start }
    ensures within { result.start ≤ length text.now }
{
    line_from(text, line.number + 1, next)
}

/// Returns the line with a number, from one at or before it, or the last line if the text has fewer.
fn line_numbered(text: &[u8], from: Line, number: usize) -> Line
    requires line { IsLine text.now from }
    requires before { from.number ≤ number }
    ensures line { IsLine text.now result }
    ensures found { (result.number ≡ number) ⊎ ((result.number < number) × (result.next ≡ None)) }
{
    let mut line = from;
    'lines: while line.number < number {
        match line.next {
            Some(next) => line = line_after(text, line, next),
            None => return line,
        }
    }
    line
}

/// Returns the last line that begins at or before a place, from one that does.
fn line_around(text: &[u8], from: Line, offset: usize) -> Line
    requires line { IsLine text.now from }
    requires after { from.start ≤ offset }
    ensures line { IsLine text.now result }
    ensures after { result.start ≤ offset }
    ensures last { IfSome result.next (λ next. offset < next) }
{
    let mut line = from;
    'lines: while let Some(next) = line.next {
        if offset < next {
            return line;
        }
        line = line_after(text, line, next);
    }
    line
}

/// Returns the spot of a place in a line, whose start is at or before it.
fn spot_after(encoding: Encoding, text: &[u8], line: Line, offset: usize) -> Spot
    requires line { IsLine text.now line }
    requires after { line.start ≤ offset }
    requires within { offset ≤ length text.now }
    ensures spot { IsSpot encoding text.now result }
    ensures line { result.line ≡ line }
    ensures offset { result.offset ≡ offset }
{
    let column = units(encoding, &text[line.start..offset]);
    Spot {
        line,
        offset,
        column,
    }
}

/// Returns the spot of a place in a line, from another spot if that is before it in the line.
fn spot_in(encoding: Encoding, text: &[u8], from: Spot, line: Line, offset: usize) -> Spot
    requires from { IsSpot encoding text.now from }
    requires line { IsLine text.now line }
    requires after { line.start ≤ offset }
    requires within { offset ≤ length text.now }
    ensures spot { IsSpot encoding text.now result }
    ensures line { result.line ≡ line }
    ensures offset { result.offset ≡ offset }
{
    if from.line.number != line.number {
        return spot_after(encoding, text, line, offset);
    }
    if offset < from.offset {
        return spot_after(encoding, text, line, offset);
    }
    let more = units(encoding, &text[from.offset..offset]);
    Spot {
        line,
        offset,
        column: from.column + more,
    }
}

/// Returns the last line that begins at or before a place, from another line.
fn line_of(text: &[u8], from: Line, offset: usize) -> Line
    requires { IsLine text.now from }
    ensures line { IsLine text.now result }
    ensures after { result.start ≤ offset }
    ensures last { IfSome result.next (λ next. offset < next) }
{
    if offset < from.start {
        return line_around(text, first_line(text), offset);
    }
    line_around(text, from, offset)
}

/// Returns the spot of a place, from another spot. Its line and column are the position of the place.
fn spot_at(encoding: Encoding, text: &[u8], from: Spot, offset: usize) -> Spot
    requires from { IsSpot encoding text.now from }
    requires within { offset ≤ length text.now }
    ensures spot { IsSpot encoding text.now result }
    ensures position { IsPositionOf encoding text.now offset (record { line = result.line.number; column = result.column }) }
{
    let line = line_of(text, from.line, offset);
    spot_in(encoding, text, from, line, offset)
}

/// Returns the line with a number, from another line, or the last line if the text has fewer.
fn line_at(text: &[u8], from: Line, number: usize) -> Line
    requires { IsLine text.now from }
    ensures line { IsLine text.now result }
    ensures found { (result.number ≡ number) ⊎ ((result.number < number) × (result.next ≡ None)) }
{
    if number < from.number {
        return line_numbered(text, first_line(text), number);
    }
    line_numbered(text, from, number)
}

/// Returns the number of bytes before a position whose column counts bytes, from a line of the text.
fn offset_from(text: &[u8], from: Line, position: Position) -> usize
    requires { IsLine text.now from }
    ensures place { IsOffsetOf Utf8 text.now position result }
    ensures within { result ≤ length text.now }
{
    let line = line_at(text, from, position.line);
    if line.number != position.line {
        return text.len();
    }
    line.start + byte_column(&text[line.start..line.end], position.column)
}

impl<'a> Cursor<'a> {
    /// Returns a cursor at the start of a text.
    pub fn new(encoding: Encoding, text: &'a [u8]) -> Cursor<'a>
        ensures { result ≡ record { encoding = encoding; text = text.entry.now } }
    {
        let spot = spot_after(encoding, text, first_line(text), 0);
        Cursor {
            encoding,
            text,
            spot,
        }
    }

    /// Returns the text.
    pub fn text(&self) -> &'a [u8]
        ensures { result.now ≡ self.now.text }
    {
        self.text
    }

    /// Returns the number of bytes before a position whose column counts bytes, as `offset_of` does.
    pub fn offset_of(&self, position: Position) -> usize
        ensures place { IsOffsetOf Utf8 self.now.text position result }
        ensures within { result ≤ length self.now.text }
    {
        offset_from(self.text, self.spot.line, position)
    }

    /// Returns the position of the place after so many bytes, as `position_of` does, and goes there.
    pub fn position_of(&mut self, offset: usize) -> Position
        requires { offset ≤ length self.old.text }
        ensures same { self.new ≡ self.old }
        ensures place { IsPositionOf self.old.encoding self.old.text offset result }
    {
        let spot = spot_at(self.encoding, self.text, self.spot, offset);
        self.spot = spot;
        Position {
            line: spot.line.number,
            column: spot.column,
        }
    }
}
