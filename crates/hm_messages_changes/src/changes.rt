//! Small changes of an expression, which show what may be wrong with it.
ghost use Rattle.std.specs.Prelude.{◌≡◌, ◌≤◌, length, true};

use crate::edits::{Edit, Filling, after, before, bracketed, in_place};
use crate::insertions::{Insertion, text_after, text_before};
use crate::reported::Reported;
use hm_messages_outline::{Lexed, Outline, Role, Run, TermPart, without_brackets};
use hm_parse_grammar::Symbol;
use std::alloc::{AllocError, Global};

/// The most arguments of an application in which they are changed.
const MOST_ARGUMENTS: usize = 6;

const NOTHING: Filling = Filling::Text(" ");

/// A hole as the last component of a tuple.
const LAST_COMPONENT: &str = ", let { h = h } in h";

/// A change of an expression: edits in two places.
#[derive(Clone, Copy)]
pub struct SmallChange {
    /// What is reported if the change gives a definition a type. With a hole in place of a reported expression, the definition has one too.
    pub reported: Reported,
    pub first: Edit,
    pub second: Edit,
}

/// Returns the function and the arguments of an application, or patterns that are next to each other.
pub(crate) fn atoms_of(alloc: Global, outline: &Outline, run: Run) -> Result<Vec<Run>, AllocError> {
    let mut atoms = Vec::new(alloc);
    let mut next = run.start;
    for at in run.start..run.end {
        if at == next {
            next = outline.past(at);
            atoms.push(Run {
                start: at,
                end: next,
            })?;
        }
    }
    Ok(atoms)
}

/// Returns the change that puts a text in around a run.
pub(crate) fn inserted(lexed: &Lexed<'_>, insertion: Insertion, run: Run) -> SmallChange {
    SmallChange {
        reported: Reported::Insertion(insertion, run),
        first: before(lexed, run, Filling::Text(text_before(insertion))),
        second: after(lexed, run, Filling::Text(text_after(insertion))),
    }
}

/// Returns the exchange of two runs, which are in order.
pub(crate) fn exchange_of(
    lexed: &Lexed<'_>,
    first: Run,
    second: Run,
    reported: Reported,
) -> SmallChange {
    SmallChange {
        reported,
        first: in_place(lexed, first, bracketed(lexed, second)),
        second: in_place(lexed, second, bracketed(lexed, first)),
    }
}

/// Adds the exchange of two runs, which are in order.
fn add_exchange(
    found: &mut Vec<SmallChange>,
    lexed: &Lexed<'_>,
    first: Run,
    second: Run,
) -> Result<(), AllocError> {
    let reported = Reported::Exchange(first, second);
    found.push(exchange_of(lexed, first, second, reported))?;
    Ok(())
}

/// Adds each exchange of two of these.
fn add_exchanges(
    found: &mut Vec<SmallChange>,
    lexed: &Lexed<'_>,
    items: &[Run],
) -> Result<(), AllocError> {
    for second in 1..items.len() {
        for first in 0..second {
            add_exchange(found, lexed, items[first], items[second])?;
        }
    }
    Ok(())
}

/// Returns whether two runs have the same tokens.
fn are_same(lexed: &Lexed<'_>, first: Run, second: Run) -> bool {
    let length = first.end.saturating_sub(first.start);
    if length != second.end.saturating_sub(second.start) {
        return false;
    }
    for at in 0..length {
        let other = second.start.saturating_add(at);
        if lexed.text(first.start.saturating_add(at)) != lexed.text(other) {
            return false;
        }
    }
    true
}

/// Returns the change that leaves an argument out. What is reported otherwise begins at this token.
fn removal_of(lexed: &Lexed<'_>, whole: Run, argument: Run, start: usize) -> SmallChange {
    let around = Run {
        start,
        end: argument.end,
    };
    SmallChange {
        reported: Reported::Removal(argument, around),
        first: in_place(lexed, argument, NOTHING),
        second: after(lexed, whole, NOTHING),
    }
}

/// Adds the changes that leave an argument out: those that repeat the one before them first, and then the last one first.
fn add_without_one(
    found: &mut Vec<SmallChange>,
    lexed: &Lexed<'_>,
    whole: Run,
    atoms: &[Run],
) -> Result<(), AllocError> {
    for is_repeated in [true, false] {
        for back in 1..atoms.len() {
            let number = atoms.len() - back;
            let before = atoms[number - 1];
            let is_first = number == 1;
            if (!is_first && are_same(lexed, before, atoms[number])) == is_repeated {
                let start = if is_first { whole.start } else { before.start };
                found.push(removal_of(lexed, whole, atoms[number], start))?;
            }
        }
    }
    Ok(())
}

/// Adds the changes that put one more argument into an application, at the last place first.
fn add_with_one_more(
    found: &mut Vec<SmallChange>,
    lexed: &Lexed<'_>,
    whole: Run,
    atoms: &[Run],
) -> Result<(), AllocError> {
    for back in 0..atoms.len() {
        let atom = atoms[atoms.len() - 1 - back];
        let front = Run {
            start: whole.start,
            end: atom.end,
        };
        found.push(inserted(lexed, Insertion::Argument, front))?;
    }
    Ok(())
}

/// Returns whether the arguments of an application of a function and arguments are changed.
fn is_changed(atoms: &[Run]) -> bool
    ensures { result ≡ true → 2 ≤ length atoms.now }
{
    atoms.len() >= 2 && atoms.len() <= MOST_ARGUMENTS
}

/// Returns the exchanges of two arguments of an application.
pub fn exchanges_at(
    alloc: Global,
    lexed: &Lexed<'_>,
    whole: Run,
) -> Result<Vec<SmallChange>, AllocError> {
    let mut found = Vec::new(alloc);
    let atoms = atoms_of(alloc, lexed.outline, whole)?;
    let atoms = atoms.as_slice();
    if is_changed(atoms) {
        add_exchanges(&mut found, lexed, &atoms[1..])?;
    }
    Ok(found)
}

/// Adds the changes of the arguments of an application.
fn add_of_application(
    alloc: Global,
    found: &mut Vec<SmallChange>,
    lexed: &Lexed<'_>,
    whole: Run,
) -> Result<(), AllocError> {
    let atoms = atoms_of(alloc, lexed.outline, whole)?;
    let atoms = atoms.as_slice();
    if !is_changed(atoms) {
        return Ok(());
    }
    add_exchanges(found, lexed, &atoms[1..])?;
    add_with_one_more(found, lexed, whole, atoms)?;
    add_without_one(found, lexed, whole, atoms)
}

/// Adds the change that puts an argument after a name. Only in a definition with a signature it is reported as such.
fn add_of_name(
    found: &mut Vec<SmallChange>,
    lexed: &Lexed<'_>,
    whole: Run,
    is_signed: bool,
) -> Result<(), AllocError> {
    let name = without_brackets(lexed.outline, whole);
    match lexed.outline.symbol(name.start) {
        Symbol::Var | Symbol::QVar | Symbol::Con | Symbol::QCon => {}
        _ => return Ok(()),
    }
    if name.end.saturating_sub(name.start) == 1 {
        let mut change = inserted(lexed, Insertion::Argument, name);
        if !is_signed {
            change.reported = Reported::Expression(name);
        }
        found.push(change)?;
    }
    Ok(())
}

/// Returns whether a run is a list of one element.
fn is_list_of_one(outline: &Outline, run: Run) -> bool {
    let last = run.end.saturating_sub(1);
    let inner = run.start.saturating_add(1);
    outline.symbol(run.start).is(Symbol::OpenSquare)
        && outline.closing(run.start) == last
        && inner < last
        && outline.find(inner, last, Symbol::Comma).is_none()
}

/// Adds the change of a list of one element into that element.
fn add_unlisted(
    found: &mut Vec<SmallChange>,
    lexed: &Lexed<'_>,
    list: Run,
) -> Result<(), AllocError> {
    if is_list_of_one(lexed.outline, list) {
        let inner = Run {
            start: list.start.saturating_add(1),
            end: list.end.saturating_sub(1),
        };
        found.push(SmallChange {
            reported: Reported::Expression(list),
            first: in_place(lexed, list, bracketed(lexed, inner)),
            second: after(lexed, list, NOTHING),
        })?;
    }
    Ok(())
}

/// Adds, for each list of one element in a pattern, the change into that element.
fn add_unlisted_inside(
    found: &mut Vec<SmallChange>,
    lexed: &Lexed<'_>,
    part: TermPart,
) -> Result<(), AllocError> {
    for at in part.run.start..part.run.end {
        let list = Run {
            start: at,
            end: lexed.outline.past(at),
        };
        if is_list_of_one(lexed.outline, list) {
            let inner = Run {
                start: at.saturating_add(1),
                end: list.end.saturating_sub(1),
            };
            found.push(SmallChange {
                reported: Reported::Pattern(part.run, part.around),
                first: in_place(lexed, list, bracketed(lexed, inner)),
                second: after(lexed, list, NOTHING),
            })?;
        }
    }
    Ok(())
}

/// Adds the change that puts one more component into brackets, if these are around the whole of an expression.
fn add_with_component(
    found: &mut Vec<SmallChange>,
    lexed: &Lexed<'_>,
    run: Run,
) -> Result<(), AllocError> {
    let last = run.end.saturating_sub(1);
    if lexed.outline.symbol(run.start).is(Symbol::Open)
        && lexed.outline.closing(run.start) == last
    {
        let inner = Run {
            start: run.start,
            end: last,
        };
        found.push(SmallChange {
            reported: Reported::Expression(run),
            first: after(lexed, inner, Filling::Text(LAST_COMPONENT)),
            second: after(lexed, run, NOTHING),
        })?;
    }
    Ok(())
}

/// Adds the exchange of the two sides of a form of two parts with a separator between them.
pub(crate) fn add_of_pair(
    found: &mut Vec<SmallChange>,
    lexed: &Lexed<'_>,
    inner: Run,
    separator: Symbol,
) -> Result<(), AllocError> {
    let Some(middle) = lexed.outline.find(inner.start, inner.end, separator) else {
        return Ok(());
    };
    let first = Run {
        start: inner.start,
        end: middle,
    };
    let second = Run {
        start: middle.saturating_add(1),
        end: inner.end,
    };
    if lexed
        .outline
        .find(second.start, second.end, separator)
        .is_some()
    {
        return Ok(());
    }
    if separator.is(Symbol::Colon) {
        let sides = Reported::Sides(first, second);
        found.push(exchange_of(lexed, first, second, sides))?;
        return Ok(());
    }
    add_exchange(found, lexed, first, second)
}

/// Adds the exchange of the two sides of a `:` or of the two components of a pair, if they are the whole of an expression.
fn add_inside(found: &mut Vec<SmallChange>, lexed: &Lexed<'_>, run: Run) -> Result<(), AllocError> {
    let inner = without_brackets(lexed.outline, run);
    let last = inner.end.saturating_sub(1);
    let first = lexed.outline.symbol(inner.start);
    if first.is(Symbol::Open) && lexed.outline.closing(inner.start) == last {
        let pair = Run {
            start: inner.start.saturating_add(1),
            end: last,
        };
        return add_of_pair(found, lexed, pair, Symbol::Comma);
    }
    match first {
        Symbol::Backslash | Symbol::Let | Symbol::If | Symbol::Case => Ok(()),
        _ => add_of_pair(found, lexed, inner, Symbol::Colon),
    }
}

// Why: docs/DECISIONS.md, "Small changes".
/// Returns the changes that are tried at a part, the most likely ones first. Brackets of a list are put in only in a definition with a signature: without one,
/// `xs : [xs]` would be the change of `xs : xs`.
pub fn changes_at(
    alloc: Global,
    lexed: &Lexed<'_>,
    part: TermPart,
    is_signed: bool,
) -> Result<Vec<SmallChange>, AllocError> {
    let mut found = Vec::new(alloc);
    let around = part.around;
    if part.role != Role::Pattern {
        add_unlisted(&mut found, lexed, part.run)?;
    }
    match part.role {
        Role::Function => add_of_application(alloc, &mut found, lexed, around)?,
        Role::Element => add_unlisted(&mut found, lexed, around)?,
        Role::Component => {
            let inner = Run {
                start: around.start.saturating_add(1),
                end: around.end.saturating_sub(1),
            };
            add_of_pair(&mut found, lexed, inner, Symbol::Comma)?;
        }
        Role::Operand => add_of_pair(&mut found, lexed, around, Symbol::Colon)?,
        Role::Pattern => {
            add_unlisted_inside(&mut found, lexed, part)?;
            return Ok(found);
        }
        _ => {}
    }
    if part.role != Role::Function {
        add_inside(&mut found, lexed, part.run)?;
        add_of_name(&mut found, lexed, part.run, is_signed)?;
        add_with_component(&mut found, lexed, part.run)?;
        if is_signed {
            let run = without_brackets(lexed.outline, part.run);
            found.push(inserted(lexed, Insertion::ListBrackets, run))?;
        }
    }
    Ok(found)
}
