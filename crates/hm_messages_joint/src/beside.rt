//! Looks for each of two parts as for one: by the search for a single part, in the source in which the other one is open. It is proved only that this ends: more
//! trials test what is found.

use crate::least::is_typed_with;
use crate::openings::openings;
use crate::parts::{FoundJoint, spot_of};
use hm_lex::Token;
use hm_messages_changes::edited;
use hm_messages_outline::{Lexed, Outline, Role, Run, TermPart, parts_below, right_sides};
use hm_messages_trials::{
    Effort, Mend, Question, Searched, TypeFault, mend_within, read, token_at,
};
use std::alloc::{AllocError, Global};

/// The most parts around what is found that are tried.
const MOST_AROUND: usize = 4;

/// How bytes move if a part is opened.
#[derive(Clone, Copy)]
struct Shift {
    /// Where the part begins.
    from: usize,
    /// How many bytes it has.
    taken: usize,
    /// How many are put in its place.
    put: usize,
    /// The byte before which a text is added.
    spot: usize,
    /// How many bytes that has.
    added: usize,
}

impl Shift {
    /// Returns how bytes move to a source of this length if the part is opened.
    fn of(lexed: &Lexed<'_>, length: usize, part: TermPart) -> Shift {
        let from = lexed.start(part.run.start);
        let taken = lexed.end(part.run).saturating_sub(from);
        let new = length
            .saturating_add(taken)
            .saturating_sub(lexed.source.len());
        match spot_of(lexed, part) {
            Some(spot) => Shift {
                from,
                taken,
                put: 1,
                spot: spot.at,
                added: new.saturating_sub(1),
            },
            None => Shift {
                from,
                taken,
                put: new,
                spot: from,
                added: 0,
            },
        }
    }

    /// Returns where a byte was before, or where a range ended. `None` for those that are put in.
    fn back(self, at: usize, is_end: bool) -> Option<usize> {
        if at <= self.from {
            return Some(at);
        }
        if at < self.from.saturating_add(self.put) {
            return None;
        }
        let byte = at.saturating_sub(self.put).saturating_add(self.taken);
        if self.added == 0 || byte < self.spot || is_end && byte == self.spot {
            return Some(byte);
        }
        if byte < self.spot.saturating_add(self.added) {
            return None;
        }
        Some(byte.saturating_sub(self.added))
    }
}

/// Returns the bytes of what a change is about.
fn bytes_of(mend: &Mend<'_>) -> (usize, usize) {
    match mend {
        Mend::Expression(part) => (part.from, part.to),
        Mend::Pattern(part) => (part.from, part.to),
        Mend::Removal(part) => (part.from, part.to),
        Mend::Insertion(_, part) => (part.from, part.to),
        Mend::Wrapped(_, part) => (part.from, part.to),
        Mend::Exchange(first, second) => (first.from, second.to),
        Mend::Sides(first, second) => (first.from, second.to),
        Mend::Patterns(first, second) => (first.from, second.to),
    }
}

/// Returns the tokens from one byte to another.
fn run_between(tokens: &[Token], from: usize, to: usize) -> Run {
    Run {
        start: token_at(tokens, from),
        end: token_at(tokens, to),
    }
}

/// Returns what the search for a single part finds if another part is open, in tokens of the source.
fn found_beside(
    alloc: Global,
    searched: &Searched<'_, '_>,
    fault: &TypeFault<'_>,
    other: TermPart,
    effort: &mut Effort,
) -> Result<Option<Run>, AllocError> {
    let lexed = searched.lexed;
    let edits = openings(alloc, lexed, &[other])?;
    let changed = edited(alloc, lexed.source, edits.as_slice())?;
    let source = changed.as_slice();
    let Some(reading) = read(alloc, source)? else {
        return Ok(None);
    };
    let question = Question {
        source,
        name: searched.question.name,
        imports: searched.question.imports,
        prelude: searched.question.prelude,
    };
    let there = TypeFault {
        fault: fault.fault,
        faults: fault.faults,
        reading: &reading,
    };
    let Some(mend) = mend_within(alloc, &question, &there, effort)? else {
        return Ok(None);
    };
    let (from, to) = bytes_of(&mend);
    let shift = Shift::of(lexed, source.len(), other);
    match (shift.back(from, false), shift.back(to, true)) {
        (Some(from), Some(to)) => Ok(Some(run_between(lexed.tokens, from, to))),
        _ => Ok(None),
    }
}

/// Returns the one of these parts in which a run lies.
fn part_with(parts: &[TermPart], run: Run) -> Option<TermPart> {
    for part in parts {
        if part.run.start <= run.start && run.end <= part.run.end {
            return Some(*part);
        }
    }
    None
}

/// Returns the parts of a definition in which a run lies, each inside the one before it.
fn parts_around(
    alloc: Global,
    outline: &Outline,
    definition: Run,
    run: Run,
) -> Result<Vec<TermPart>, AllocError> {
    let mut found = Vec::new(alloc);
    let mut inside = right_sides(alloc, outline, definition)?;
    for _ in 0..outline.len() {
        let Some(part) = part_with(inside.as_slice(), run) else {
            break;
        };
        found.push(part)?;
        inside = parts_below(alloc, outline, part)?;
    }
    Ok(found)
}

/// Returns whether two parts have a token in common.
fn overlap(one: TermPart, other: TermPart) -> bool {
    one.run.start < other.run.end && other.run.start < one.run.end
}

/// Returns the smallest of these parts, each inside the one before it, that gives the definition a type beside another one.
fn smallest_beside(
    alloc: Global,
    searched: &Searched<'_, '_>,
    around: &[TermPart],
    other: TermPart,
    effort: &mut Effort,
) -> Result<Option<TermPart>, AllocError> {
    for back in 0..around.len().min(MOST_AROUND) {
        let part = around[around.len() - 1 - back];
        if overlap(part, other) {
            return Ok(None);
        }
        if is_typed_with(alloc, searched, &[part], &[other], effort)? {
            return Ok(Some(part));
        }
    }
    Ok(None)
}

/// A definition with a type fault.
#[derive(Clone, Copy)]
pub(crate) struct FaultyDefinition<'a, 'f> {
    pub fault: &'a TypeFault<'f>,
    pub definition: Run,
}

/// Returns the part that the search for a single part finds if another one is open, or the smallest one around it that gives the definition a type.
fn part_beside(
    alloc: Global,
    searched: &Searched<'_, '_>,
    faulty: FaultyDefinition<'_, '_>,
    other: TermPart,
    effort: &mut Effort,
) -> Result<Option<TermPart>, AllocError> {
    let Some(run) = found_beside(alloc, searched, faulty.fault, other, effort)? else {
        return Ok(None);
    };
    let around = parts_around(alloc, searched.lexed.outline, faulty.definition, run)?;
    smallest_beside(alloc, searched, around.as_slice(), other, effort)
}

/// Returns the application that a part is the function of, if the other part isn't in it, or else the part. Often the arguments are too many or too few.
fn whole_of(part: TermPart, other: TermPart) -> TermPart {
    if part.role != Role::Function || part.around.has(other.run.start) {
        return part;
    }
    TermPart {
        run: part.around,
        role: Role::Body,
        around: part.around,
    }
}

/// Returns the parts, and applications in place of their functions.
pub(crate) fn wholes_of(found: FoundJoint) -> FoundJoint {
    FoundJoint {
        first: whole_of(found.first, found.second),
        second: whole_of(found.second, found.first),
    }
}

/// Returns the two parts in order.
fn in_order(one: TermPart, other: TermPart) -> FoundJoint {
    if other.run.start < one.run.start {
        return FoundJoint {
            first: other,
            second: one,
        };
    }
    FoundJoint {
        first: one,
        second: other,
    }
}

// Why: docs/DECISIONS.md, "Two slips".
/// Returns the parts that the search for a single part finds, each beside the other one, with applications in place of functions.
pub(crate) fn refined(
    alloc: Global,
    searched: &Searched<'_, '_>,
    faulty: FaultyDefinition<'_, '_>,
    found: FoundJoint,
    effort: &mut Effort,
) -> Result<FoundJoint, AllocError> {
    let FoundJoint { first, second } = found;
    let beside_second = part_beside(alloc, searched, faulty, second, effort)?;
    let first = beside_second.unwrap_or(first);
    let beside_first = part_beside(alloc, searched, faulty, first, effort)?;
    let second = beside_first.unwrap_or(second);
    Ok(wholes_of(in_order(first, second)))
}
