//! The lines of a source, by number.
ghost use Rattle.std.specs.Prelude.{◌≡◌, ◌≤◌, ◌<◌, ◌+◌, All, IfNone, IfOk, IfSome, length, slice_index, take};
ghost use Rattle.hm_lex.specs.Cut.{is_line_end};
ghost use Rattle.hm_lex.specs.declared.token.Place.{Place as SourcePlace};
ghost use Rattle.hm_messages_excerpts.specs.Columns.{AreColumnsAt, IsMarkEnd};
ghost use Rattle.hm_messages_excerpts.specs.Excerpts.{IsExcerptAt, IsLineAround, IsPlaceIn, IsRestOfLine};
ghost use Rattle.hm_messages_excerpts.specs.Lines.{AreLinesOf, IsSpotOf, IsWithout};

use crate::columns::{Columns, Units, columns_at, units_table};
use crate::cutting::shown_round;
use crate::excerpt::Excerpt;
use crate::marks::marked;
use bstr::ByteSlice;
use hm_lex::Place;
use std::alloc::{AllocError, Global};
use std::marker::Model;

/// A line of a source, `source[start..end]`, without its end.
#[derive(Clone, Copy)]
struct Span {
    start: usize,
    end: usize,
}

// Why: docs/DECISIONS.md, "Lines in a table".
/// A source with a table of its lines, so that finding a place doesn't read the source again.
#[derive(Drop)]
pub struct SourceLines<'a> {
    source: &'a [u8],
    spans: Vec<Span>,
    units: Vec<Units>,
}

/// A place in a source: the line `source[start..end]`, and the number of its bytes before the place.
#[derive(Clone, Copy)]
struct Spot {
    start: usize,
    end: usize,
    offset: usize,
}

impl<'a> Model for SourceLines<'a> {
    ghost use Rattle.std.specs.Prelude.{List, ℕ};
    ghost use Rattle.hm_messages_excerpts.specs.Columns.{AreUnitsOf};
    ghost use Rattle.hm_messages_excerpts.specs.Lines.{AreLinesOf};

    ghost Value = { List ℕ };

    ghost view = { λ s. s.source.now };

    ghost invariant = { λ s. AreLinesOf s.source.now s.spans.items × AreUnitsOf s.source.now s.units.items };
}

/// Returns the length of the line at the front.
fn line_len(bytes: &[u8]) -> usize
    ensures within { result ≤ length bytes.now }
    ensures plain { IsWithout is_line_end (take result bytes.now) }
    ensures end { result < length bytes.now → slice_index bytes.now result ≡ 10 }
{
    match bytes.find_byte(b'\n') {
        Some(len) => len,
        None => bytes.len(),
    }
}

/// Returns the lines of a source: one more than it has line ends.
fn spans_of(alloc: Global, source: &[u8]) -> Result<Vec<Span>, AllocError>
    ensures { IfOk result (λ spans. AreLinesOf source.now spans.items) }
{
    let mut spans = Vec::new(alloc);
    let mut start = 0usize;
    while start <= source.len() {
        let end = start + line_len(&source[start..]);
        spans.push(Span { start, end })?;
        start = end + 1;
    }
    Ok(spans)
}

impl<'a> SourceLines<'a> {
    /// Makes the table of lines of a source.
    pub fn of(alloc: Global, source: &'a [u8]) -> Result<SourceLines<'a>, AllocError>
        ensures { IfOk result (λ lines. lines ≡ source.entry.now) }
    {
        let spans = spans_of(alloc, source)?;
        let units = units_table(alloc, source)?;
        Ok(SourceLines {
            source,
            spans,
            units,
        })
    }

    /// Returns the source.
    pub fn source(&self) -> &'a [u8]
        ensures { result.now ≡ self.now }
    {
        self.source
    }

    /// Returns where a place is, if it is in the source.
    fn spot(&self, place: Place) -> Option<Spot>
        ensures some { IfSome result (λ s. IsSpotOf self.now place s) }
        ensures none { IfNone result (IsPlaceIn self.now place → ⊥) }
    {
        if place.line == 0 {
            return None;
        }
        if place.line as usize > self.spans.len() {
            return None;
        }
        if place.column == 0 {
            return None;
        }
        let Span { start, end } = self.spans[place.line as usize - 1];
        let offset = place.column as usize - 1;
        if offset > end - start {
            return None;
        }
        Some(Spot { start, end, offset })
    }

    /// Returns the excerpt at a place, if it is in the source.
    pub fn excerpt(&self, place: Place) -> Option<Excerpt<'a>>
        ensures some { IfSome result (IsExcerptAt self.now place) }
        ensures none { IfNone result (IsPlaceIn self.now place → ⊥) }
    {
        let Spot { start, end, offset } = self.spot(place)?;
        let (front, back) = self.source[start..end].split_at(offset);
        Some(shown_round(front, back))
    }

    /// Returns the bytes from a place to the end of its line, if the place is in the source.
    pub fn rest_of_line(&self, place: Place) -> Option<&'a [u8]>
        ensures some { IfSome result (λ rest. IsRestOfLine self.now place rest.now) }
        ensures none { IfNone result (IsPlaceIn self.now place → ⊥) }
    {
        let Spot { start, end, offset } = self.spot(place)?;
        let (_, rest) = self.source[start..end].split_at(offset);
        Some(rest)
    }

    /// Returns the columns of the place at a spot.
    fn columns_of(&self, spot: Spot) -> Columns
        requires { (place : SourcePlace) × IsSpotOf self.now place spot }
        ensures { (place : SourcePlace) → IsSpotOf self.now place spot → AreColumnsAt self.now place result }
    {
        columns_at(self.source, &self.units, spot.start, spot.offset)
    }

    /// Returns the columns of a place, if it is in the source.
    pub fn columns(&self, place: Place) -> Option<Columns>
        ensures some { IfSome result (AreColumnsAt self.now place) }
        ensures none { IfNone result (IsPlaceIn self.now place → ⊥) }
    {
        let spot = self.spot(place)?;
        Some(self.columns_of(spot))
    }

    /// Returns the columns of the place after the mark at a place, on the same line, if the place is in the source.
    pub fn mark_end(&self, place: Place) -> Option<Columns>
        ensures some { IfSome result (λ columns. (after : SourcePlace) × IsMarkEnd self.now place after × AreColumnsAt self.now after columns) }
        ensures none { IfNone result (IsPlaceIn self.now place → ⊥) }
    {
        let Spot { start, end, offset } = self.spot(place)?;
        let len = marked(&self.source[start + offset..end]);
        Some(self.columns_of(Spot {
            start,
            end,
            offset: offset + len,
        }))
    }
}
