//! Positions and ranges of a source, for messages to programs.
ghost use Rattle.std.specs.Prelude.{IfNone, IfSome};
ghost use Rattle.hm_messages_excerpts.specs.Excerpts.{IsPlaceIn};
ghost use Rattle.hm_messages_json.specs.Positions.{IsPositionAt, IsRangeAt, IsRangeOf};

use crate::message::{Position, Range};
use hm_lex::Place;
use hm_messages_excerpts::SourceLines;

/// A part of a source, from one place up to another.
#[derive(Clone, Copy, Debug, PartialEq, Eq)]
pub struct Span {
    pub start: Place,
    /// The place after the part.
    pub end: Place,
}

/// Returns the position of a place, if it is in the source.
pub fn position_at(lines: &SourceLines<'_>, place: Place) -> Option<Position>
    ensures some { IfSome result (IsPositionAt lines.now place) }
    ensures none { IfNone result (¬ IsPlaceIn lines.now place) }
{
    let columns = lines.columns(place)?;
    Some(Position {
        line: place.line as usize,
        columns,
    })
}

/// Returns the range from a place to the end of the mark there, if the place is in the source.
pub fn range_at(lines: &SourceLines<'_>, place: Place) -> Option<Range>
    ensures some { IfSome result (λ range. IsRangeAt lines.now place range.start range.end) }
    ensures none { IfNone result (¬ IsPlaceIn lines.now place) }
{
    let start = position_at(lines, place)?;
    let columns = lines.mark_end(place)?;
    let end = Position {
        line: start.line,
        columns,
    };
    Some(Range { start, end })
}

/// Returns the range of a part, if there is one and both its places are in the source.
pub fn range_of(lines: &SourceLines<'_>, part: Option<Span>) -> Option<Range>
    ensures { IsRangeOf lines.now part result }
{
    let Some(part) = part else {
        return None;
    };
    let Some(start) = position_at(lines, part.start) else {
        return None;
    };
    let Some(end) = position_at(lines, part.end) else {
        return None;
    };
    Some(Range { start, end })
}
