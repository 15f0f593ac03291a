//! Decides which of several parts is reported.

use crate::costs::Effort;
use crate::culprits::{MendingParts, Searched, is_mended_by};
use crate::trial::has_types_in;
use hm_messages_changes::{
    Insertion, Reported, SmallChange, Wrapper, changes_at, constructor_name, insertions_in,
    part_of, pattern_exchanges_in, with_constructor, wrappers_of,
};
use hm_messages_outline::{Lexed, Outline, Role, Run, TermPart, without_brackets};
use hm_parse_grammar::Symbol;
use std::alloc::{AllocError, Global};

/// The most that a trial may cost if constructors are tried. There are up to fifteen, and faults of a large module would use up what is left for the run.
const MOST_COST_OF_WRAPPING: usize = 1 << 14;

/// A part without which a definition has a type.
#[derive(Clone, Copy)]
struct Suspect {
    /// Where the part begins.
    start: usize,
    /// What is reported: the part, or the expression around a change of it.
    reported: Reported,
    points: usize,
}

/// Returns whether a part is one literal or constructor.
fn is_constant(outline: &Outline, run: Run) -> bool {
    if run.end.saturating_sub(run.start) != 1 {
        return false;
    }
    match outline.symbol(run.start) {
        Symbol::Con | Symbol::QCon | Symbol::Integer | Symbol::Character | Symbol::Text => true,
        _ => false,
    }
}

// Why: docs/DECISIONS.md, "Points".
/// Returns how likely a part is to be the slip if no change of it gives the definition a type. A function gets less than its arguments, because another
/// function hides any fault of these. The numbers were found on slips in good modules; docs/DECISIONS.md says how.
fn points_of(outline: &Outline, part: TermPart) -> usize {
    let points = match part.role {
        Role::Function | Role::Pattern => 2usize,
        _ => 4,
    };
    if is_constant(outline, part.run) {
        return points.saturating_add(1);
    }
    points
}

/// Returns whether an argument has the same tokens as the expression before it, with which the other run begins.
fn is_repeated(lexed: &Lexed<'_>, argument: Run, around: Run) -> bool {
    let length = argument.end.saturating_sub(argument.start);
    if argument.start.saturating_sub(around.start) != length {
        return false;
    }
    (0..length).all(|at| {
        let before = around.start.saturating_add(at);
        lexed.text(before) == lexed.text(argument.start.saturating_add(at))
    })
}

/// Returns whether a change at a part outweighs all else: an exchange of arguments, or one that leaves out an argument that repeats the one before it.
pub(crate) fn is_strong(lexed: &Lexed<'_>, part: TermPart, change: &SmallChange) -> bool {
    match change.reported {
        Reported::Exchange(_, _) => true,
        Reported::Removal(argument, around) => {
            around.start != part.run.start && is_repeated(lexed, argument, around)
        }
        _ => false,
    }
}

/// Returns how much more likely a part is if this change of it gives the definition a type. Of a pattern only lists of one element are changed, which is a
/// rarer slip than those that other changes mend.
fn points_of_change(lexed: &Lexed<'_>, part: TermPart, change: &SmallChange) -> usize {
    if is_strong(lexed, part, change) {
        return 8;
    }
    match change.reported {
        Reported::Sides(_, _) => 8,
        Reported::Pattern(_, _) => 5,
        Reported::Insertion(Insertion::ListBrackets, _) => 1,
        _ => 4,
    }
}

/// Returns whether a part is a function, and one of these parts lies in its arguments.
fn has_faulty_argument(parts: &[TermPart], part: TermPart) -> bool {
    if part.role != Role::Function {
        return false;
    }
    parts.iter().any(|other| other.run.start >= part.run.end && other.run.end <= part.around.end)
}

/// Returns the changes that are tried at a part, strong ones first. At a function these are all if one of these parts lies in its arguments: that one is more
/// likely than the function.
fn changes_for(
    alloc: Global,
    searched: &Searched<'_, '_>,
    parts: &[TermPart],
    part: TermPart,
) -> Result<Vec<SmallChange>, AllocError> {
    let all = changes_at(alloc, searched.lexed, part, searched.is_signed)?;
    let are_all_tried = !has_faulty_argument(parts, part);
    let mut found = Vec::new(alloc);
    for is_first in [true, false] {
        for change in &all {
            let is_tried = is_first || are_all_tried;
            if is_tried && is_strong(searched.lexed, part, change) == is_first {
                found.push(*change)?;
            }
        }
    }
    Ok(found)
}

/// Returns a part of these, and what is reported of it: the expression around the first change that gives the definition a type, or else the part without
/// its brackets.
fn judged_part(
    alloc: Global,
    searched: &Searched<'_, '_>,
    parts: &[TermPart],
    part: TermPart,
    effort: &mut Effort,
) -> Result<Suspect, AllocError> {
    let start = part.run.start;
    let points = points_of(searched.lexed.outline, part);
    let changes = changes_for(alloc, searched, parts, part)?;
    for change in &changes {
        let edits = [change.first, change.second];
        if is_mended_by(alloc, searched, &edits, effort)? {
            return Ok(Suspect {
                start,
                reported: change.reported,
                points: points.saturating_add(points_of_change(searched.lexed, part, change)),
            });
        }
    }
    let run = without_brackets(searched.lexed.outline, part.run);
    let reported = match part.role {
        Role::Pattern => Reported::Pattern(run, part.around),
        _ => Reported::Expression(run),
    };
    Ok(Suspect {
        start,
        reported,
        points,
    })
}

/// Returns what the first of these changes that gives the definition a type reports.
fn first_of(
    alloc: Global,
    searched: &Searched<'_, '_>,
    changes: &[SmallChange],
    effort: &mut Effort,
) -> Result<Option<Reported>, AllocError> {
    for change in changes {
        let edits = [change.first, change.second];
        if is_mended_by(alloc, searched, &edits, effort)? {
            return Ok(Some(change.reported));
        }
    }
    Ok(None)
}

// Why: docs/DECISIONS.md, "Texts put in".
/// Returns what is reported of a definition with these right sides: a text that is put in, or else a change of a part, an exchange of patterns, a constructor
/// in front of the likeliest part, or that part. Without a part that mends, patterns of all its clauses are exchanged.
pub(crate) fn likeliest(
    alloc: Global,
    searched: &Searched<'_, '_>,
    sides: &[TermPart],
    found: &MendingParts,
    effort: &mut Effort,
) -> Result<Option<Reported>, AllocError> {
    let all = found.all.as_slice();
    let insertions = insertions_in(alloc, searched.lexed, all, searched.is_signed)?;
    if let Some(reported) = first_of(alloc, searched, insertions.as_slice(), effort)? {
        return Ok(Some(reported));
    }
    let likeliest = likeliest_part(alloc, searched, found.least.as_slice(), effort)?;
    if let Some(reported) = likeliest {
        if reported.is_change() {
            return Ok(likeliest);
        }
    }
    let clauses = if all.is_empty() { sides } else { all };
    let exchanges = pattern_exchanges_in(alloc, searched.lexed, clauses)?;
    match first_of(alloc, searched, exchanges.as_slice(), effort)? {
        Some(reported) => Ok(Some(reported)),
        None => with_wrapper(alloc, searched, found.least.as_slice(), likeliest, effort),
    }
}

/// Returns an expression, or the application of which it is the function.
fn whole_of(outline: &Outline, parts: &[TermPart], run: Run) -> Run {
    for part in parts {
        if part.role == Role::Function && without_brackets(outline, part.run) == run {
            return part.around;
        }
    }
    run
}

/// Returns a constructor in front of the expression that is reported, if the definition has a type with this one and with no other that is tried. Otherwise
/// returns what is reported.
fn with_wrapper(
    alloc: Global,
    searched: &Searched<'_, '_>,
    parts: &[TermPart],
    reported: Option<Reported>,
    effort: &mut Effort,
) -> Result<Option<Reported>, AllocError> {
    let Some(Reported::Expression(run)) = reported else {
        return Ok(reported);
    };
    if searched.cost > MOST_COST_OF_WRAPPING {
        return Ok(reported);
    }
    let run = whole_of(searched.lexed.outline, parts, run);
    let mut found = None;
    for wrapper in &wrappers_of(alloc, searched.lexed, run.start)? {
        if is_wrapped(alloc, searched, *wrapper, run, effort)? {
            if found.is_some() {
                return Ok(reported);
            }
            found = Some(Reported::Wrapped(*wrapper, run));
        }
    }
    match found {
        Some(wrapped) => Ok(Some(wrapped)),
        None => Ok(reported),
    }
}

/// Returns whether the definition has a type with a constructor in front of an expression. Returns `false` if no trial is left.
fn is_wrapped(
    alloc: Global,
    searched: &Searched<'_, '_>,
    wrapper: Wrapper,
    run: Run,
    effort: &mut Effort,
) -> Result<bool, AllocError> {
    let lexed = searched.lexed;
    let Some(name) = constructor_name(alloc, lexed.source, lexed, wrapper, run.start)? else {
        return Ok(false);
    };
    let Some(part) = part_of(lexed.tokens, run, lexed.source) else {
        return Ok(false);
    };
    if !effort.pays(searched.cost) {
        return Ok(false);
    }
    let changed = with_constructor(alloc, lexed.source, name, part)?;
    has_types_in(
        alloc,
        searched.question,
        changed.as_slice(),
        searched.definition,
        searched.others,
    )
}

/// Returns how many literals of its kind a source has, if what is reported is one literal.
fn literals_like(outline: &Outline, reported: Reported) -> Option<usize> {
    let Reported::Expression(run) = reported else {
        return None;
    };
    let symbol = outline.symbol(run.start);
    if run.end.saturating_sub(run.start) != 1 {
        return None;
    }
    match symbol {
        Symbol::Integer | Symbol::Character | Symbol::Text => {
            let all = 0..outline.len();
            Some(all.filter(|at| outline.symbol(*at).is(symbol)).count())
        }
        _ => None,
    }
}

/// Returns whether a part is likelier than one before it: it has more points, or as many. Of two literals with as many it is the one of the rarer kind.
fn is_likelier(outline: &Outline, suspect: Suspect, other: Suspect) -> bool {
    if suspect.points != other.points {
        return suspect.points > other.points;
    }
    let own = literals_like(outline, suspect.reported);
    let others = literals_like(outline, other.reported);
    match (own, others) {
        (Some(own), Some(others)) if own != others => own < others,
        _ => suspect.start > other.start,
    }
}

/// Returns what is reported of these parts: of the one with the most points, and of the last of several with as many.
fn likeliest_part(
    alloc: Global,
    searched: &Searched<'_, '_>,
    parts: &[TermPart],
    effort: &mut Effort,
) -> Result<Option<Reported>, AllocError> {
    let mut best: Option<Suspect> = None;
    for part in parts {
        let suspect = judged_part(alloc, searched, parts, *part, effort)?;
        let is_better = match best {
            Some(other) => is_likelier(searched.lexed.outline, suspect, other),
            None => true,
        };
        if is_better {
            best = Some(suspect);
        }
    }
    match best {
        Some(suspect) => Ok(Some(suspect.reported)),
        None => Ok(None),
    }
}
