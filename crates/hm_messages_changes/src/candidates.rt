//! The places at which a text may be missing: brackets, `;` and `,`. Which of them are tried is a choice.

use crate::changes::{SmallChange, add_of_pair, atoms_of, inserted};
use crate::insertions::Insertion;
use hm_messages_outline::{Lexed, Role, Run, TermPart, one, without_brackets};
use hm_parse_grammar::Symbol;
use std::alloc::{AllocError, Global};

/// The most atoms next to each other around which brackets are tried.
const MOST_BRACKETED: usize = 10;

/// The most atoms next to each other before which a `,` is tried.
const MOST_ATOMS: usize = 16;

/// Returns the application at the beginning of an expression without brackets around it, or an empty run if the expression begins otherwise.
fn first_application(lexed: &Lexed<'_>, run: Run) -> Run {
    let Run { start, end } = run;
    match lexed.outline.symbol(start) {
        Symbol::Backslash | Symbol::Let | Symbol::If | Symbol::Case => Run { start, end: start },
        _ => {
            let end = match lexed.outline.find(start, end, Symbol::OfType) {
                Some(at) => at,
                None => end,
            };
            match lexed.outline.find(start, end, Symbol::Colon) {
                Some(at) => Run { start, end: at },
                None => Run { start, end },
            }
        }
    }
}

/// Adds the change that puts a `;` before the variable of a signature that is read as one of an expression.
fn add_semicolon(
    found: &mut Vec<SmallChange>,
    lexed: &Lexed<'_>,
    part: TermPart,
) -> Result<(), AllocError> {
    let run = part.run;
    if part.role != Role::Body {
        return Ok(());
    }
    let Some(at) = lexed.outline.find(run.start, run.end, Symbol::OfType) else {
        return Ok(());
    };
    let variable = at.saturating_sub(1);
    if variable > run.start && lexed.outline.symbol(variable).is(Symbol::Var) {
        found.push(inserted(lexed, Insertion::Semicolon, one(variable)))?;
    }
    Ok(())
}

/// Adds the changes that put brackets around neighbouring arguments of an application.
fn add_around_neighbours(
    found: &mut Vec<SmallChange>,
    lexed: &Lexed<'_>,
    atoms: &[Run],
) -> Result<(), AllocError> {
    for first in 1..atoms.len() {
        for last in first..atoms.len() {
            if first < last {
                let neighbours = Run {
                    start: atoms[first].start,
                    end: atoms[last].end,
                };
                found.push(inserted(lexed, Insertion::Brackets, neighbours))?;
            }
        }
    }
    Ok(())
}

/// Adds the changes that put brackets around neighbouring arguments. If `:` follows the application, each pair of brackets ends with the expression.
fn add_brackets(
    alloc: Global,
    found: &mut Vec<SmallChange>,
    lexed: &Lexed<'_>,
    part: TermPart,
) -> Result<(), AllocError> {
    let run = without_brackets(lexed.outline, part.run);
    let application = first_application(lexed, run);
    let atoms = atoms_of(alloc, lexed.outline, application)?;
    let atoms = atoms.as_slice();
    if atoms.len() < 2 || atoms.len() > MOST_BRACKETED {
        return Ok(());
    }
    if application.end >= run.end {
        return add_around_neighbours(found, lexed, atoms);
    }
    for atom in &atoms[1..] {
        let rest = Run {
            start: atom.start,
            end: run.end,
        };
        found.push(inserted(lexed, Insertion::Brackets, rest))?;
    }
    Ok(())
}

/// Returns whether an expression is all that stands between brackets or commas.
fn is_enclosed(lexed: &Lexed<'_>, run: Run) -> bool {
    if run.start == 0 {
        return false;
    }
    let opens = match lexed.outline.symbol(run.start.saturating_sub(1)) {
        Symbol::Open | Symbol::OpenSquare | Symbol::Comma => true,
        _ => false,
    };
    let closes = match lexed.outline.symbol(run.end) {
        Symbol::Close | Symbol::CloseSquare | Symbol::Comma => true,
        _ => false,
    };
    opens && closes
}

/// Returns whether an expression is all that stands between round brackets.
fn is_bracketed(lexed: &Lexed<'_>, run: Run) -> bool {
    let opening = lexed.outline.symbol(run.start.saturating_sub(1));
    opening.is(Symbol::Open) && lexed.outline.symbol(run.end).is(Symbol::Close)
}

/// Adds the changes that put a `,` before an argument of the application at the beginning of an expression.
fn add_commas_in(
    alloc: Global,
    found: &mut Vec<SmallChange>,
    lexed: &Lexed<'_>,
    run: Run,
) -> Result<(), AllocError> {
    let application = first_application(lexed, run);
    let atoms = atoms_of(alloc, lexed.outline, application)?;
    let atoms = atoms.as_slice();
    if atoms.len() < 2 || atoms.len() > MOST_ATOMS {
        return Ok(());
    }
    for atom in &atoms[1..] {
        found.push(inserted(lexed, Insertion::Comma, *atom))?;
    }
    Ok(())
}

/// Adds the changes that put a `,` into a component of a tuple.
fn add_commas_in_tuple(
    alloc: Global,
    found: &mut Vec<SmallChange>,
    lexed: &Lexed<'_>,
    tuple: Run,
) -> Result<(), AllocError> {
    let last = tuple.end.saturating_sub(1);
    let mut start = tuple.start.saturating_add(1);
    let mut next = start;
    for at in start..tuple.end {
        if at == next {
            next = lexed.outline.past(at);
            if lexed.outline.symbol(at).is(Symbol::Comma) || at == last {
                add_commas_in(alloc, found, lexed, Run { start, end: at })?;
                start = next;
            }
        }
    }
    Ok(())
}

/// Returns whether a literal, a list or `()` begins here, which can't be a function.
fn begins_with_data(lexed: &Lexed<'_>, at: usize) -> bool {
    match lexed.outline.symbol(at) {
        Symbol::Integer | Symbol::Character | Symbol::Text | Symbol::OpenSquare => true,
        Symbol::Open => lexed.outline.closing(at) == at.saturating_add(1),
        _ => false,
    }
}

/// Adds the changes that put a `,` into an expression in brackets, or into the components of a tuple. A function in round brackets becomes a component only
/// in a definition with a signature, because without one most definitions have a type with a pair.
fn add_commas(
    alloc: Global,
    found: &mut Vec<SmallChange>,
    lexed: &Lexed<'_>,
    part: TermPart,
    is_signed: bool,
) -> Result<(), AllocError> {
    let outline = lexed.outline;
    let run = without_brackets(outline, part.run);
    let may_be_pair = is_signed || begins_with_data(lexed, run.start);
    if is_enclosed(lexed, run) && (may_be_pair || !is_bracketed(lexed, run)) {
        add_commas_in(alloc, found, lexed, run)?;
    }
    let last = run.end.saturating_sub(1);
    if outline.symbol(run.start).is(Symbol::Open) && outline.closing(run.start) == last {
        return add_commas_in_tuple(alloc, found, lexed, run);
    }
    Ok(())
}

// Why: docs/DECISIONS.md, "Texts put in".
/// Returns the changes that put a text into these parts of a definition, or exchange the sides of a `:` of which they are one, the most likely ones first.
pub fn insertions_in(
    alloc: Global,
    lexed: &Lexed<'_>,
    parts: &[TermPart],
    is_signed: bool,
) -> Result<Vec<SmallChange>, AllocError> {
    let mut found = Vec::new(alloc);
    for part in parts {
        add_semicolon(&mut found, lexed, *part)?;
    }
    for part in parts {
        if part.role != Role::Pattern {
            add_brackets(alloc, &mut found, lexed, *part)?;
        }
    }
    for part in parts {
        if part.role != Role::Pattern {
            add_commas(alloc, &mut found, lexed, *part, is_signed)?;
        }
    }
    for part in parts {
        if part.role == Role::Operand {
            add_of_pair(&mut found, lexed, part.around, Symbol::Colon)?;
        }
    }
    Ok(found)
}
