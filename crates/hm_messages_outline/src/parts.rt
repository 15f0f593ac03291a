//! The expressions and patterns directly inside a definition or an expression (Haskell 98 Report, chapter 3).

use crate::declarations::declaration_end;
use crate::outline::Outline;
use crate::tokens::Run;
use hm_parse_grammar::Symbol;
use std::alloc::{AllocError, Global};

/// The role of an expression in the one that it is directly inside.
#[derive(Clone, Copy, PartialEq, Eq)]
pub enum Role {
    /// A right side, a guard, or the body or a branch of another form.
    Body,
    Function,
    Argument,
    /// Of a list in square brackets.
    Element,
    /// Of a tuple.
    Component,
    /// Of `:`.
    Operand,
    /// A pattern of a clause, an alternative or a lambda, or a part of one. It isn't a variable.
    Pattern,
}

/// An expression, or a pattern of one: a run of tokens.
#[derive(Clone, Copy)]
pub struct TermPart {
    pub run: Run,
    pub role: Role,
    /// The expression that it is directly inside, or its own run if it is a body. For a pattern, its clause, alternative or lambda.
    pub around: Run,
}

/// Returns whether these tokens aren't a pattern that may be to blame: there are none, or one that fits every type.
fn fits_all(outline: &Outline, run: Run) -> bool {
    if run.start >= run.end {
        return true;
    }
    if run.end.saturating_sub(run.start) > 1 {
        return false;
    }
    match outline.symbol(run.start) {
        Symbol::Var | Symbol::Wild | Symbol::At | Symbol::Tilde => true,
        _ => false,
    }
}

/// The parts that are found.
#[derive(Drop)]
struct Found {
    parts: Vec<TermPart>,
    /// Lists of declarations or of alternatives that a walk still has to go over.
    lists: Vec<Run>,
}

impl Found {
    /// Appends the expression of these tokens, if there are any.
    fn add_in(&mut self, run: Run, role: Role, around: Run) -> Result<(), AllocError> {
        if run.start < run.end {
            self.parts.push(TermPart { run, role, around })?;
        }
        Ok(())
    }

    /// Appends a pattern of a clause, alternative or lambda, if it may be to blame.
    fn add_pattern(&mut self, outline: &Outline, run: Run, around: Run) -> Result<(), AllocError> {
        if fits_all(outline, run) {
            return Ok(());
        }
        self.add_in(run, Role::Pattern, around)
    }

    /// Appends the right side, guard, body or branch of these tokens, if there are any.
    fn add(&mut self, start: usize, end: usize) -> Result<(), AllocError> {
        let run = Run { start, end };
        self.add_in(run, Role::Body, run)
    }

    /// Appends the expression that began here, if one did.
    fn end(&mut self, start: Option<usize>, end: usize) -> Result<(), AllocError> {
        match start {
            Some(start) => self.add(start, end),
            None => Ok(()),
        }
    }

    /// Notes the list of declarations or alternatives between the brace here and the one that closes it.
    fn add_list(&mut self, outline: &Outline, brace: usize) -> Result<(), AllocError> {
        if outline.symbol(brace).is(Symbol::LeftBrace) {
            let start = brace.saturating_add(1);
            let end = outline.closing(brace);
            self.lists.push(Run { start, end })?;
        }
        Ok(())
    }
}

/// The position of a walk over a list of declarations or alternatives.
#[derive(Clone, Copy)]
struct Spot {
    /// The number of the token at which the current expression began.
    expression: Option<usize>,
    is_guard: bool,
    is_signature: bool,
}

/// In the patterns of a declaration or an alternative.
const AT_PATTERNS: Spot = Spot {
    expression: None,
    is_guard: false,
    is_signature: false,
};

/// Returns the position of a walk after a symbol that changes it. `at` is the number of its token.
fn spot_after(spot: Spot, symbol: Symbol, at: usize) -> Option<Spot> {
    let next = Some(at.saturating_add(1));
    let is_signature = spot.is_signature;
    match symbol {
        Symbol::Semicolon | Symbol::Where => Some(AT_PATTERNS),
        Symbol::Bar if !is_signature => Some(Spot {
            expression: next,
            is_guard: true,
            is_signature,
        }),
        Symbol::Equals => Some(Spot {
            expression: next,
            is_guard: false,
            is_signature,
        }),
        Symbol::Arrow if !is_signature && (spot.expression.is_none() || spot.is_guard) => {
            Some(Spot {
                expression: next,
                is_guard: false,
                is_signature,
            })
        }
        Symbol::OfType if spot.expression.is_none() => Some(Spot {
            expression: None,
            is_guard: false,
            is_signature: true,
        }),
        _ => None,
    }
}

/// Returns whether this is an alternative and not a declaration, by the tokens after its patterns.
fn is_alternative(outline: &Outline, after: Run) -> bool {
    let Some(arrow) = outline.find(after.start, after.end, Symbol::Arrow) else {
        return false;
    };
    match outline.find(after.start, after.end, Symbol::Equals) {
        Some(equals) => arrow < equals,
        None => true,
    }
}

/// Adds the patterns of a clause or an alternative, which come before this token. A pattern binding has none.
fn add_head(
    found: &mut Found,
    outline: &Outline,
    whole: Run,
    end: usize,
) -> Result<(), AllocError> {
    let start = whole.start;
    let after = Run {
        start: end,
        end: whole.end,
    };
    if is_alternative(outline, after) {
        return found.add_pattern(outline, Run { start, end }, whole);
    }
    let first = start.saturating_add(1);
    if !outline.symbol(start).is(Symbol::Var)
        || outline.symbol(first).is(Symbol::At)
        || outline.find(start, end, Symbol::Colon).is_some()
    {
        return Ok(());
    }
    add_atoms(found, outline, Run { start: first, end }, whole)
}

/// Adds the patterns that are atoms next to each other.
fn add_atoms(
    found: &mut Found,
    outline: &Outline,
    atoms: Run,
    whole: Run,
) -> Result<(), AllocError> {
    let mut next = atoms.start;
    for at in atoms.start..atoms.end {
        if at == next {
            next = outline.past(at);
            let atom = Run {
                start: at,
                end: next,
            };
            found.add_pattern(outline, atom, whole)?;
        }
    }
    Ok(())
}

/// Adds the patterns, guards and right sides of a list of declarations or alternatives, and notes the lists of their `where`.
fn add_right_sides(found: &mut Found, outline: &Outline, list: Run) -> Result<(), AllocError> {
    let mut spot = AT_PATTERNS;
    let mut start = list.start;
    let mut next = list.start;
    for at in list.start..list.end {
        if at == next {
            next = outline.past(at);
            let symbol = outline.symbol(at);
            if spot.expression.is_none() {
                found.add_list(outline, at)?;
            }
            if let Some(after) = spot_after(spot, symbol, at) {
                if spot.expression.is_none() && after.expression.is_some() {
                    let end = declaration_end(outline, start).min(list.end);
                    add_head(found, outline, Run { start, end }, at)?;
                }
                found.end(spot.expression, at)?;
                spot = after;
            }
            if symbol.is(Symbol::Semicolon) {
                start = next;
            }
        }
    }
    found.end(spot.expression, list.end)
}

/// Adds the parts directly inside a lambda, a `let` or a conditional.
fn add_open_form(found: &mut Found, outline: &Outline, run: Run) -> Result<(), AllocError> {
    let Run { start, end } = run;
    let inner = start.saturating_add(1);
    match outline.symbol(start) {
        Symbol::Backslash => {
            if let Some(arrow) = outline.find(inner, end, Symbol::Arrow) {
                let patterns = Run {
                    start: inner,
                    end: arrow,
                };
                add_atoms(found, outline, patterns, run)?;
                found.add(arrow.saturating_add(1), end)?;
            }
        }
        Symbol::Let => {
            found.add_list(outline, inner)?;
            found.add(outline.past(inner).saturating_add(1), end)?;
        }
        Symbol::If => {
            let Some(then) = outline.find_word(start, end, Symbol::If, Symbol::Then) else {
                return Ok(());
            };
            let Some(last) = outline.find_word(start, end, Symbol::If, Symbol::Else) else {
                return Ok(());
            };
            found.add(inner, then)?;
            found.add(then.saturating_add(1), last)?;
            found.add(last.saturating_add(1), end)?;
        }
        _ => {}
    }
    Ok(())
}

/// Adds the elements of a list or the components of a tuple.
fn add_elements(found: &mut Found, outline: &Outline, whole: Run) -> Result<(), AllocError> {
    let role = if outline.symbol(whole.start).is(Symbol::Open) {
        Role::Component
    } else {
        Role::Element
    };
    let mut start = whole.start.saturating_add(1);
    let mut next = start;
    for at in start..whole.end {
        if at == next {
            next = outline.past(at);
            if outline.symbol(at).is(Symbol::Comma) || next >= whole.end {
                found.add_in(Run { start, end: at }, role, whole)?;
                start = next;
            }
        }
    }
    Ok(())
}

/// Adds a function and its arguments.
fn add_application(found: &mut Found, outline: &Outline, run: Run) -> Result<(), AllocError> {
    let mut role = Role::Function;
    let mut next = run.start;
    for at in run.start..run.end {
        if at == next {
            next = outline.past(at);
            let atom = Run {
                start: at,
                end: next,
            };
            found.add_in(atom, role, run)?;
            role = Role::Argument;
        }
    }
    Ok(())
}

/// Adds the parts directly inside a `case`.
fn add_case(found: &mut Found, outline: &Outline, run: Run) -> Result<(), AllocError> {
    if let Some(of) = outline.find_word(run.start, run.end, Symbol::Case, Symbol::Of) {
        found.add(run.start.saturating_add(1), of)?;
        found.add_list(outline, of.saturating_add(1))?;
    }
    Ok(())
}

/// Returns where the operand that begins here ends: before a `:` or `::`, or at the end of the whole.
fn operand_end(outline: &Outline, start: usize, end: usize) -> usize {
    match outline.symbol(start) {
        Symbol::Backslash | Symbol::Let | Symbol::If => return end,
        _ => {}
    }
    let mut next = start;
    if outline.symbol(start).is(Symbol::Case) {
        if let Some(of) = outline.find_word(start, end, Symbol::Case, Symbol::Of) {
            next = outline.past(of.saturating_add(1));
        }
    }
    for at in start..end {
        if at == next {
            next = outline.past(at);
            match outline.symbol(at) {
                Symbol::Colon | Symbol::OfType => return at,
                _ => {}
            }
        }
    }
    end
}

/// Adds the operands of `:`, and the expression before `::`. If the whole is one operand, it adds the parts inside it.
fn add_operands(found: &mut Found, outline: &Outline, run: Run) -> Result<(), AllocError> {
    let first = operand_end(outline, run.start, run.end);
    if first >= run.end {
        return match outline.symbol(run.start) {
            Symbol::Case => add_case(found, outline, run),
            _ => add_application(found, outline, run),
        };
    }
    let mut start = run.start;
    let mut end = first;
    for _ in run.start..run.end {
        found.add_in(Run { start, end }, Role::Operand, run)?;
        if end >= run.end || outline.symbol(end).is(Symbol::OfType) {
            return Ok(());
        }
        start = end.saturating_add(1);
        end = operand_end(outline, start, run.end);
    }
    Ok(())
}

/// Returns the expression or pattern without brackets around the whole of it. Brackets of a tuple, of `()` and of `(:)` stay.
pub fn without_brackets(outline: &Outline, run: Run) -> Run {
    let mut inner = run;
    for _ in run.start..run.end {
        let Run { start, end } = inner;
        let last = end.saturating_sub(1);
        if start >= last
            || !outline.symbol(start).is(Symbol::Open)
            || outline.closing(start) != last
        {
            return inner;
        }
        inner = Run {
            start: start.saturating_add(1),
            end: last,
        };
        if inner.start == last
            || outline.symbol(inner.start).is(Symbol::Colon)
            || outline.find(inner.start, last, Symbol::Comma).is_some()
        {
            return Run { start, end };
        }
    }
    inner
}

/// Adds the parts directly inside an expression.
fn add_below(found: &mut Found, outline: &Outline, whole: Run) -> Result<(), AllocError> {
    let run = without_brackets(outline, whole);
    let last = run.end.saturating_sub(1);
    if run.start >= last {
        return Ok(());
    }
    let is_bracket = outline.closing(run.start) == last;
    match outline.symbol(run.start) {
        Symbol::Backslash | Symbol::Let | Symbol::If => add_open_form(found, outline, run),
        Symbol::Open | Symbol::OpenSquare if is_bracket => add_elements(found, outline, run),
        _ => add_operands(found, outline, run),
    }
}

/// Goes over the lists that are noted, and returns all parts.
fn finished(found: Found, outline: &Outline) -> Result<Vec<TermPart>, AllocError> {
    let mut found = found;
    for _ in 0..outline.len() {
        let Some(list) = found.lists.pop() else {
            break;
        };
        add_right_sides(&mut found, outline, list)?;
    }
    found.parts.sort_by_key(|part| part.run.start)?;
    Ok(found.parts)
}

/// Returns the patterns, guards and right sides of a definition, with those of its `where`.
pub fn right_sides(
    alloc: Global,
    outline: &Outline,
    binding: Run,
) -> Result<Vec<TermPart>, AllocError> {
    let mut found = Found {
        parts: Vec::new(alloc),
        lists: Vec::new(alloc),
    };
    add_right_sides(&mut found, outline, binding)?;
    finished(found, outline)
}

/// Returns the patterns among the parts of one.
fn patterns_in(
    alloc: Global,
    outline: &Outline,
    inside: Found,
    around: Run,
) -> Result<Vec<TermPart>, AllocError> {
    let mut found = Found {
        parts: Vec::new(alloc),
        lists: Vec::new(alloc),
    };
    for part in &inside.parts {
        if part.role != Role::Function {
            found.add_pattern(outline, part.run, around)?;
        }
    }
    Ok(found.parts)
}

// Why: docs/DECISIONS.md, "Parts of a definition".
/// Returns the expressions directly inside an expression, or the patterns inside a pattern.
pub fn parts_below(
    alloc: Global,
    outline: &Outline,
    part: TermPart,
) -> Result<Vec<TermPart>, AllocError> {
    let mut found = Found {
        parts: Vec::new(alloc),
        lists: Vec::new(alloc),
    };
    add_below(&mut found, outline, part.run)?;
    if part.role == Role::Pattern {
        return patterns_in(alloc, outline, found, part.around);
    }
    finished(found, outline)
}
