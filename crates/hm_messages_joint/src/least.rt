//! The search for a least set of parts. It is proved only that it ends: two more trials test what is found.

use crate::leaves::{expressions, expressions_below, leaves_of, patterns_first};
use crate::openings::openings;
use hm_messages_changes::HOLE;
use hm_messages_outline::{Role, Run, TermPart, right_sides};
use hm_messages_trials::{Effort, Searched, is_mended_by};
use std::alloc::{AllocError, Global};

/// The most parts of a set.
const MOST_PARTS: usize = 2;

/// The most rounds in which a part is added to a set, or in which it is found to be one.
const MOST_ROUNDS: usize = 3;

/// The most steps of a search, each of which costs a trial.
const MOST_STEPS: usize = 200;

/// The tokens in which a set is searched.
#[derive(Clone, Copy)]
pub(crate) struct Sought {
    pub definition: Run,
    /// A part of the definition that is a set by itself. If there is one, its insides are searched.
    pub part: Option<Run>,
}

impl Sought {
    /// Returns the same, as if the token with the first number had the second one.
    pub fn moved(self, from: usize, to: usize) -> Sought {
        Sought {
            definition: moved(self.definition, from, to),
            part: match self.part {
                Some(run) => Some(moved(run, from, to)),
                None => None,
            },
        }
    }
}

/// Returns the run, as if its token with the first number had the second one.
fn moved(run: Run, from: usize, to: usize) -> Run {
    Run {
        start: run.start.saturating_sub(from).saturating_add(to),
        end: run.end.saturating_sub(from).saturating_add(to),
    }
}

/// Returns the part, as if its token with the first number had the second one.
pub(crate) fn part_moved(part: TermPart, from: usize, to: usize) -> TermPart {
    TermPart {
        run: moved(part.run, from, to),
        role: part.role,
        around: moved(part.around, from, to),
    }
}

/// Returns whether the definition has a type with something of every type in place of all these parts. Returns `false` if no trial is left.
pub(crate) fn is_typed_with(
    alloc: Global,
    searched: &Searched<'_, '_>,
    kept: &[TermPart],
    more: &[TermPart],
    effort: &mut Effort,
) -> Result<bool, AllocError> {
    let mut parts = Vec::from_slice(alloc, kept)?;
    parts.extend_from_slice(more)?;
    parts.sort_by_key(|part| part.run.start)?;
    let edits = openings(alloc, searched.lexed, parts.as_slice())?;
    let holes = edits.len().saturating_mul(HOLE.len());
    let dearer = Searched {
        question: searched.question,
        lexed: searched.lexed,
        definition: searched.definition,
        others: searched.others,
        is_signed: searched.is_signed,
        is_alone: searched.is_alone,
        cost: searched.cost.saturating_add(holes),
    };
    is_mended_by(alloc, &dearer, edits.as_slice(), effort)
}

/// Returns the parts from a number on.
fn rest_of(parts: &[TermPart], start: usize) -> &[TermPart] {
    if start <= parts.len() {
        &parts[start..]
    } else {
        &parts[..0]
    }
}

/// Returns the number of the first of these parts that has to be open, if those after it and the kept ones are.
fn first_needed(
    alloc: Global,
    searched: &Searched<'_, '_>,
    kept: &[TermPart],
    parts: &[TermPart],
    effort: &mut Effort,
) -> Result<usize, AllocError> {
    let mut low = 0usize;
    let mut high = parts.len();
    for _ in 0..MOST_STEPS {
        let between = high.saturating_sub(low);
        if between <= 1 {
            return Ok(low);
        }
        let middle = low.saturating_add(between / 2);
        if is_typed_with(alloc, searched, kept, rest_of(parts, middle), effort)? {
            low = middle;
        } else {
            high = middle;
        }
    }
    Ok(low)
}

/// Returns the kept parts and those of the others that have to be open beside them, or `None` if these are too many together.
fn with_needed(
    alloc: Global,
    searched: &Searched<'_, '_>,
    kept: &[TermPart],
    parts: &[TermPart],
    effort: &mut Effort,
) -> Result<Option<Vec<TermPart>>, AllocError> {
    let mut set = Vec::from_slice(alloc, kept)?;
    let mut start = 0usize;
    for _ in 0..MOST_ROUNDS {
        if is_typed_with(alloc, searched, set.as_slice(), &[], effort)? {
            return Ok(Some(set));
        }
        let rest = rest_of(parts, start);
        if set.len() >= MOST_PARTS || rest.is_empty() {
            return Ok(None);
        }
        let at = first_needed(alloc, searched, set.as_slice(), rest, effort)?;
        if at < rest.len() {
            set.push(rest[at])?;
        }
        start = start.saturating_add(at).saturating_add(1);
    }
    Ok(None)
}

/// Returns these parts without the one with a number.
fn except(alloc: Global, parts: &[TermPart], number: usize) -> Result<Vec<TermPart>, AllocError> {
    let mut rest = Vec::new(alloc);
    for at in 0..parts.len() {
        if at != number {
            rest.push(parts[at])?;
        }
    }
    Ok(rest)
}

/// Returns the kept parts with some of these, if that gives a set.
fn set_inside(
    alloc: Global,
    searched: &Searched<'_, '_>,
    kept: &[TermPart],
    inside: &[TermPart],
    effort: &mut Effort,
) -> Result<Option<Vec<TermPart>>, AllocError> {
    if inside.is_empty() || !is_typed_with(alloc, searched, kept, inside, effort)? {
        return Ok(None);
    }
    with_needed(alloc, searched, kept, inside, effort)
}

/// Returns the set with parts inside one of its parts in place of that one, if that gives a set.
fn narrowed(
    alloc: Global,
    searched: &Searched<'_, '_>,
    set: &[TermPart],
    number: usize,
    effort: &mut Effort,
) -> Result<Option<Vec<TermPart>>, AllocError> {
    if number >= set.len() {
        return Ok(None);
    }
    let outline = searched.lexed.outline;
    let others = except(alloc, set, number)?;
    let others = others.as_slice();
    let leaves = leaves_of(alloc, outline, set[number])?;
    match set_inside(alloc, searched, others, leaves.as_slice(), effort)? {
        Some(found) => return Ok(Some(found)),
        None => {}
    }
    let below = expressions_below(alloc, outline, set[number])?;
    set_inside(alloc, searched, others, below.as_slice(), effort)
}

/// Returns a set that has no smaller parts, of the parts of this one and of those inside them.
fn narrowest(
    alloc: Global,
    searched: &Searched<'_, '_>,
    set: Vec<TermPart>,
    effort: &mut Effort,
) -> Result<Vec<TermPart>, AllocError> {
    let mut set = set;
    let mut done = 0usize;
    for _ in 0..MOST_STEPS {
        if done >= set.len() {
            break;
        }
        match narrowed(alloc, searched, set.as_slice(), done, effort)? {
            Some(narrower) => set = narrower,
            None => done = done.saturating_add(1),
        }
    }
    Ok(set)
}

/// Returns the parts, the last one first.
fn backwards(alloc: Global, parts: &[TermPart]) -> Result<Vec<TermPart>, AllocError> {
    let mut found = Vec::with_capacity(alloc, parts.len())?;
    for back in 0..parts.len() {
        found.push(parts[parts.len() - 1 - back])?;
    }
    Ok(found)
}

/// Returns a set of some of these parts. If one clashes with several others, it stays open instead of those only if it is put back after them. So both orders
/// are tried.
fn set_among(
    alloc: Global,
    searched: &Searched<'_, '_>,
    parts: &[TermPart],
    effort: &mut Effort,
) -> Result<Option<Vec<TermPart>>, AllocError> {
    let sorted = patterns_first(alloc, parts)?;
    match set_inside(alloc, searched, &[], sorted.as_slice(), effort)? {
        Some(set) => return Ok(Some(set)),
        None => {}
    }
    let last_first = backwards(alloc, parts)?;
    let sorted = patterns_first(alloc, last_first.as_slice())?;
    set_inside(alloc, searched, &[], sorted.as_slice(), effort)
}

/// Returns a least set of right sides of a definition, or of its patterns and right sides if no right sides are one.
fn least_sides(
    alloc: Global,
    searched: &Searched<'_, '_>,
    definition: Run,
    effort: &mut Effort,
) -> Result<Option<Vec<TermPart>>, AllocError> {
    let parts = right_sides(alloc, searched.lexed.outline, definition)?;
    let sides = expressions(alloc, parts.as_slice())?;
    match set_among(alloc, searched, sides.as_slice(), effort)? {
        Some(set) => return Ok(Some(set)),
        None => {}
    }
    set_among(alloc, searched, parts.as_slice(), effort)
}

/// Returns the set of one expression.
fn set_of(alloc: Global, run: Run) -> Result<Vec<TermPart>, AllocError> {
    let mut set = Vec::new(alloc);
    set.push(TermPart {
        run,
        role: Role::Body,
        around: run,
    })?;
    Ok(set)
}

/// Returns a least set of parts of a definition, or of those inside an expression that is one by itself, in order: it has a type with something of every type in
/// place of all of them. If the trials run out, the set may not be least.
pub(crate) fn least_set(
    alloc: Global,
    searched: &Searched<'_, '_>,
    sought: Sought,
    effort: &mut Effort,
) -> Result<Option<Vec<TermPart>>, AllocError> {
    let found = match sought.part {
        Some(run) => Some(set_of(alloc, run)?),
        None => least_sides(alloc, searched, sought.definition, effort)?,
    };
    let Some(set) = found else {
        return Ok(None);
    };
    let mut set = narrowest(alloc, searched, set, effort)?;
    set.sort_by_key(|part| part.run.start)?;
    Ok(Some(set))
}
