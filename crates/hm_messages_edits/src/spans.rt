//! The parts of a source that a note is about, as places.
ghost use Rattle.std.specs.Prelude.{◌≡◌};
ghost use Rattle.hm_messages_edits.specs.Spans.{IsSpanOf, first_part, second_part};

use hm_lex::Place;
use hm_messages_changes::SourceRange;
use hm_messages_json::Span;
use hm_messages_trials::Mend;

/// Returns the places of a part: that of its first byte, and the one after its last byte. Returns `None` if the column of that has more than 32 bits.
pub fn span_of(part: SourceRange) -> Option<Span>
    ensures { IsSpanOf part result }
{
    let Place { line, column } = part.end;
    let Some(column) = column.checked_add(1) else {
        return None;
    };
    Some(Span {
        start: part.start,
        end: Place { line, column },
    })
}

/// Returns the part that a mend speaks of, or the first one.
pub fn first_part(mend: &Mend<'_>) -> SourceRange
    ensures { result ≡ first_part mend.now }
{
    match mend {
        Mend::Expression(part) => *part,
        Mend::Pattern(part) => *part,
        Mend::Exchange(first, _) => *first,
        Mend::Removal(part) => *part,
        Mend::Sides(first, _) => *first,
        Mend::Patterns(first, _) => *first,
        Mend::Insertion(_, part) => *part,
        Mend::Wrapped(_, part) => *part,
    }
}

/// Returns the other part that a mend speaks of, if there are two.
pub fn second_part(mend: &Mend<'_>) -> Option<SourceRange>
    ensures { result ≡ second_part mend.now }
{
    match mend {
        Mend::Expression(_) => None,
        Mend::Pattern(_) => None,
        Mend::Exchange(_, second) => Some(*second),
        Mend::Removal(_) => None,
        Mend::Sides(_, second) => Some(*second),
        Mend::Patterns(_, second) => Some(*second),
        Mend::Insertion(_, _) => None,
        Mend::Wrapped(_, _) => None,
    }
}
