//! The search for the parts without which a definition has a type.

use crate::costs::{Effort, MOST_TRIALS};
use crate::trial::has_types_in;
use hm_messages_changes::{Edit, Filling, HOLE, add_open_patterns, edited, in_place};
use hm_messages_outline::{Lexed, Role, Run, TermPart, parts_below};
use hm_messages_types::Question;
use std::alloc::{AllocError, Global};

/// The number of parts from which on halves of them are tried first.
const SPLIT: usize = 6;

/// A search: a definition of a source, and the data of its trials.
#[derive(Clone, Copy)]
pub struct Searched<'a, 'q> {
    pub question: &'a Question<'q>,
    pub lexed: &'a Lexed<'a>,
    pub definition: &'a str,
    pub others: &'a [&'a str],
    /// Whether the definition has a signature.
    pub is_signed: bool,
    /// Whether no other definitions are searched.
    pub is_alone: bool,
    /// The cost of a trial.
    pub cost: usize,
}

/// Returns whether a definition has a type with these edits. Returns `false` if no trial is left.
pub fn is_mended_by(
    alloc: Global,
    searched: &Searched<'_, '_>,
    edits: &[Edit],
    effort: &mut Effort,
) -> Result<bool, AllocError> {
    if !effort.pays(searched.cost) {
        return Ok(false);
    }
    let changed = edited(alloc, searched.lexed.source, edits)?;
    has_types_in(
        alloc,
        searched.question,
        changed.as_slice(),
        searched.definition,
        searched.others,
    )
}

/// Returns how many of the parts from this one on are patterns of the same clause, alternative or lambda.
fn same_around(parts: &[TermPart], from: usize) -> usize {
    if from >= parts.len() {
        return 0;
    }
    let start = parts[from].around.start;
    parts[from..]
        .iter()
        .take_while(|part| part.role == Role::Pattern && part.around.start == start)
        .count()
}

/// Returns edits with holes in place of parts, which are in order. Neighbours in a list have one hole for all of them.
fn holes(alloc: Global, lexed: &Lexed<'_>, parts: &[TermPart]) -> Result<Vec<Edit>, AllocError> {
    let mut edits = Vec::new(alloc);
    let (Some(first), Some(last)) = (parts.first(), parts.last()) else {
        return Ok(edits);
    };
    if first.role == Role::Element || first.role == Role::Operand {
        let run = Run {
            start: first.run.start,
            end: last.run.end,
        };
        edits.push(in_place(lexed, run, Filling::Text(HOLE)))?;
        return Ok(edits);
    }
    let mut next = 0usize;
    for number in 0..parts.len() {
        let part = parts[number];
        if part.role != Role::Pattern {
            edits.push(in_place(lexed, part.run, Filling::Text(HOLE)))?;
        } else if number >= next {
            next = number.saturating_add(same_around(parts, number));
            let patterns = Run {
                start: number,
                end: next,
            };
            add_open_patterns(&mut edits, lexed, part.around, parts_in(parts, patterns))?;
        }
    }
    edits.sort_by_key(|edit| edit.from)?;
    Ok(edits)
}

/// Returns whether a definition has a type with holes in place of all these parts.
fn mends(
    alloc: Global,
    searched: &Searched<'_, '_>,
    parts: &[TermPart],
    effort: &mut Effort,
) -> Result<bool, AllocError> {
    let edits = holes(alloc, searched.lexed, parts)?;
    is_mended_by(alloc, searched, edits.as_slice(), effort)
}

/// Returns the parts with these numbers.
fn parts_in(parts: &[TermPart], run: Run) -> &[TermPart] {
    if run.start <= run.end && run.end <= parts.len() {
        &parts[run.start..run.end]
    } else {
        &parts[..0]
    }
}

/// Returns the parts that mend. If there are many, halves of them are tried first: a half that doesn't mend has no part that does.
fn mending(
    alloc: Global,
    searched: &Searched<'_, '_>,
    parts: &[TermPart],
    effort: &mut Effort,
) -> Result<Vec<TermPart>, AllocError> {
    let mut found = Vec::new(alloc);
    let mut pending = Vec::new(alloc);
    pending.push(Run {
        start: 0,
        end: parts.len(),
    })?;
    for _ in 0..MOST_TRIALS {
        let Some(run) = pending.pop() else {
            return Ok(found);
        };
        let few = run.end.saturating_sub(run.start) < SPLIT;
        if few {
            for part in parts_in(parts, run) {
                let one = [*part];
                if mends(alloc, searched, &one, effort)? {
                    found.push(*part)?;
                }
            }
        } else {
            let middle = run
                .start
                .saturating_add(run.end.saturating_sub(run.start) / 2);
            let halves = [
                Run {
                    start: run.start,
                    end: middle,
                },
                Run {
                    start: middle,
                    end: run.end,
                },
            ];
            for half in &halves {
                if mends(alloc, searched, parts_in(parts, *half), effort)? {
                    pending.push(*half)?;
                }
            }
        }
    }
    Ok(found)
}

/// The parts without which a definition has a type.
#[derive(Drop)]
pub(crate) struct MendingParts {
    /// All that were found, each before those inside it.
    pub all: Vec<TermPart>,
    /// Those inside which no part has this property.
    pub least: Vec<TermPart>,
}

/// Returns the parts without which a definition has a type. If the trials run out, it returns those found by then.
pub(crate) fn culprits(
    alloc: Global,
    searched: &Searched<'_, '_>,
    top: &[TermPart],
    effort: &mut Effort,
) -> Result<MendingParts, AllocError> {
    let mut found = MendingParts {
        all: Vec::new(alloc),
        least: Vec::new(alloc),
    };
    let mut pending = mending(alloc, searched, top, effort)?;
    for _ in 0..MOST_TRIALS {
        let Some(part) = pending.pop() else {
            return Ok(found);
        };
        found.all.push(part)?;
        let below = parts_below(alloc, searched.lexed.outline, part)?;
        let inside = mending(alloc, searched, below.as_slice(), effort)?;
        if effort.is_spent() {
            return Ok(found);
        }
        if inside.is_empty() {
            found.least.push(part)?;
        }
        pending.extend_from_slice(inside.as_slice())?;
    }
    Ok(found)
}
