//! The search for a change that gives a definition a type.
ghost use Rattle.std.specs.Prelude.{◌≡◌, IfOk, IfSome, None, map};
ghost use Rattle.std.specs.Arc.{arc_value};
ghost use Rattle.hm_messages_trials.specs.Limits.{IsUsedUp};
ghost use Rattle.hm_messages_trials.specs.Mends.{IsExchange, IsMend};

use crate::costs::{Effort, cost_of};
use crate::culprits::{Searched, culprits};
use crate::mends::{
    Mend, types_exchanged, types_if_left_out, types_with_insertion, types_with_pattern,
    types_wrapped,
};
use crate::mentioned::change_elsewhere;
use crate::ranking::likeliest;
use crate::reading::{TypeFault, read};
use crate::trial::types_without;
use hm_lex::Token;
use hm_messages_changes::{
    Cut, Insertion, Rebound, Reported, SourceRange, Span, Wrapper, binding_place, constructor_name,
    cut_of, part_of,
};
use hm_messages_outline::{Lexed, Run, binding_at, names_in, one, right_sides, signature_of};
use hm_messages_types::Question;
use hm_names::Fault;
use hm_parse_grammar::Symbol;
use std::alloc::{AllocError, Global};

/// Returns the number of the token that begins at a byte, or of the first one after it.
pub fn token_at(tokens: &[Token], byte: usize) -> usize {
    tokens
        .iter()
        .take_while(|token| (token.start as usize) < byte)
        .count()
}

/// Returns what is reported of a definition.
fn likeliest_in(
    alloc: Global,
    searched: &Searched<'_, '_>,
    definition: Run,
    effort: &mut Effort,
) -> Result<Option<Reported>, AllocError> {
    let top = right_sides(alloc, searched.lexed.outline, definition)?;
    let found = culprits(alloc, searched, top.as_slice(), effort)?;
    likeliest(alloc, searched, top.as_slice(), &found, effort)
}

/// What is reported of a definition.
#[derive(Clone, Copy)]
struct Choice {
    own: Option<Reported>,
    /// What is reported of another definition, which is likelier.
    other: Option<Reported>,
}

/// Returns what is reported of a definition, by a search in this smaller source.
fn choice_in_cut(
    alloc: Global,
    searched: &Searched<'_, '_>,
    cut: &Cut,
    definition: Run,
    effort: &mut Effort,
) -> Result<Option<Choice>, AllocError> {
    let source = cut.text.as_slice();
    let Some(reading) = read(alloc, source)? else {
        return Ok(None);
    };
    let lexed = reading.lexed(source);
    let smaller = Searched {
        question: searched.question,
        lexed: &lexed,
        definition: searched.definition,
        others: searched.others,
        is_signed: searched.is_signed,
        is_alone: searched.is_alone,
        cost: cost_of(source, lexed.outline),
    };
    let start = token_at(lexed.tokens, cut.definition);
    let size = definition.end.saturating_sub(definition.start);
    let end = start.saturating_add(size);
    let mut choice = Choice {
        own: None,
        other: None,
    };
    if let Some(reported) = likeliest_in(alloc, &smaller, Run { start, end }, effort)? {
        choice.own = Some(reported.moved(start, definition.start));
        if reported.is_change() {
            return Ok(Some(choice));
        }
    }
    if !searched.is_alone {
        choice.other = change_elsewhere(alloc, &smaller, searched.lexed, effort)?;
    }
    Ok(Some(choice))
}

/// Returns an expression, if the definition has a type with the hole in place of it.
fn expression_mend<'q>(
    alloc: Global,
    searched: &Searched<'_, 'q>,
    run: Run,
) -> Result<Option<Mend<'q>>, AllocError>
    ensures { IfOk result (λ found. IfSome found (IsMend searched.now.question.now.source.now searched.now.question.now.name.now
        (map arc_value searched.now.question.now.imports.now) searched.now.definition.now)) }
{
    let question = searched.question;
    let Some(part) = part_of(searched.lexed.tokens, run, question.source) else {
        return Ok(None);
    };
    let bytes = (part.from, part.to);
    if !types_without(alloc, question, bytes, searched.definition, searched.others)? {
        return Ok(None);
    }
    Ok(Some(Mend::Expression(part)))
}

/// Returns the variables of a pattern.
fn variables_in(alloc: Global, lexed: &Lexed<'_>, pattern: Run) -> Result<Vec<Span>, AllocError> {
    let mut found = Vec::new(alloc);
    for at in pattern.start..pattern.end {
        if lexed.outline.symbol(at).is(Symbol::Var) {
            let run = one(at);
            found.push(Span {
                from: lexed.start(at),
                to: lexed.end(run),
            })?;
        }
    }
    Ok(found)
}

// Why: docs/DECISIONS.md, "Patterns".
/// Returns a pattern of a clause, alternative or lambda, if the definition has a type without it.
fn pattern_mend<'q>(
    alloc: Global,
    searched: &Searched<'_, 'q>,
    pattern: Run,
    around: Run,
) -> Result<Option<Mend<'q>>, AllocError>
    ensures { IfOk result (λ found. IfSome found (IsMend searched.now.question.now.source.now searched.now.question.now.name.now
        (map arc_value searched.now.question.now.imports.now) searched.now.definition.now)) }
{
    let lexed = searched.lexed;
    let Some(part) = part_of(lexed.tokens, pattern, searched.question.source) else {
        return Ok(None);
    };
    let Some(spot) = binding_place(lexed, around) else {
        return Ok(None);
    };
    let variables = variables_in(alloc, lexed, pattern)?;
    let rebound = Rebound {
        at: spot.at,
        frame: spot.frame,
        variables: variables.as_slice(),
    };
    if !types_with_pattern(alloc, searched, part, &rebound)? {
        return Ok(None);
    }
    Ok(Some(Mend::Pattern(part)))
}

/// Returns two parts, if the definition has a type with them exchanged.
fn exchanged(
    alloc: Global,
    searched: &Searched<'_, '_>,
    first: Run,
    second: Run,
) -> Result<Option<(SourceRange, SourceRange)>, AllocError>
    ensures { IfOk result (λ found. IfSome found (λ parts. IsExchange searched.now.question.now.source.now searched.now.question.now.name.now
        (map arc_value searched.now.question.now.imports.now) searched.now.definition.now parts.0 parts.1)) }
{
    let source = searched.question.source;
    let Some(first) = part_of(searched.lexed.tokens, first, source) else {
        return Ok(None);
    };
    let Some(second) = part_of(searched.lexed.tokens, second, source) else {
        return Ok(None);
    };
    if !types_exchanged(alloc, searched, first, second)? {
        return Ok(None);
    }
    Ok(Some((first, second)))
}

/// Returns two expressions, if the definition has a type with them exchanged.
fn exchange_mend<'q>(
    alloc: Global,
    searched: &Searched<'_, 'q>,
    first: Run,
    second: Run,
) -> Result<Option<Mend<'q>>, AllocError>
    ensures { IfOk result (λ found. IfSome found (IsMend searched.now.question.now.source.now searched.now.question.now.name.now
        (map arc_value searched.now.question.now.imports.now) searched.now.definition.now)) }
{
    match exchanged(alloc, searched, first, second)? {
        Some((first, second)) => Ok(Some(Mend::Exchange(first, second))),
        None => Ok(None),
    }
}

/// Returns the sides of a `:`, if the definition has a type with them exchanged.
fn sides_mend<'q>(
    alloc: Global,
    searched: &Searched<'_, 'q>,
    first: Run,
    second: Run,
) -> Result<Option<Mend<'q>>, AllocError>
    ensures { IfOk result (λ found. IfSome found (IsMend searched.now.question.now.source.now searched.now.question.now.name.now
        (map arc_value searched.now.question.now.imports.now) searched.now.definition.now)) }
{
    match exchanged(alloc, searched, first, second)? {
        Some((first, second)) => Ok(Some(Mend::Sides(first, second))),
        None => Ok(None),
    }
}

/// Returns two patterns, if the definition has a type with them exchanged.
fn patterns_mend<'q>(
    alloc: Global,
    searched: &Searched<'_, 'q>,
    first: Run,
    second: Run,
) -> Result<Option<Mend<'q>>, AllocError>
    ensures { IfOk result (λ found. IfSome found (IsMend searched.now.question.now.source.now searched.now.question.now.name.now
        (map arc_value searched.now.question.now.imports.now) searched.now.definition.now)) }
{
    match exchanged(alloc, searched, first, second)? {
        Some((first, second)) => Ok(Some(Mend::Patterns(first, second))),
        None => Ok(None),
    }
}

/// Returns an expression, if the definition has a type with a text put in around it. Otherwise returns the expression, if the definition has a type with the
/// hole in place of it.
fn insertion_mend<'q>(
    alloc: Global,
    searched: &Searched<'_, 'q>,
    insertion: Insertion,
    run: Run,
) -> Result<Option<Mend<'q>>, AllocError>
    ensures { IfOk result (λ found. IfSome found (IsMend searched.now.question.now.source.now searched.now.question.now.name.now
        (map arc_value searched.now.question.now.imports.now) searched.now.definition.now)) }
{
    let Some(part) = part_of(searched.lexed.tokens, run, searched.question.source) else {
        return Ok(None);
    };
    if types_with_insertion(alloc, searched, insertion, part)? {
        return Ok(Some(Mend::Insertion(insertion, part)));
    }
    Ok(expression_mend(alloc, searched, run)?)
}

/// Returns an argument, if the definition has a type without it. Otherwise returns an expression around it, if the definition has a type with the hole in
/// place of that.
fn removal_mend<'q>(
    alloc: Global,
    searched: &Searched<'_, 'q>,
    argument: Run,
    around: Run,
) -> Result<Option<Mend<'q>>, AllocError>
    ensures { IfOk result (λ found. IfSome found (IsMend searched.now.question.now.source.now searched.now.question.now.name.now
        (map arc_value searched.now.question.now.imports.now) searched.now.definition.now)) }
{
    let Some(part) = part_of(searched.lexed.tokens, argument, searched.question.source) else {
        return Ok(None);
    };
    if types_if_left_out(alloc, searched, part)? {
        return Ok(Some(Mend::Removal(part)));
    }
    Ok(expression_mend(alloc, searched, around)?)
}

/// Returns an expression, if the definition has a type with a constructor in front of it. Otherwise returns the expression, if the definition has a type with
/// the hole in place of it.
fn wrapped_mend<'q>(
    alloc: Global,
    searched: &Searched<'_, 'q>,
    wrapper: Wrapper,
    run: Run,
) -> Result<Option<Mend<'q>>, AllocError>
    ensures { IfOk result (λ found. IfSome found (IsMend searched.now.question.now.source.now searched.now.question.now.name.now
        (map arc_value searched.now.question.now.imports.now) searched.now.definition.now)) }
{
    let source = searched.question.source;
    let Some(part) = part_of(searched.lexed.tokens, run, source) else {
        return Ok(None);
    };
    let Some(name) = constructor_name(alloc, source, searched.lexed, wrapper, run.start)? else {
        return Ok(None);
    };
    if types_wrapped(alloc, searched, name, part)? {
        return Ok(Some(Mend::Wrapped(name, part)));
    }
    Ok(expression_mend(alloc, searched, run)?)
}

/// Returns what is reported, if it gives the definition a type.
fn confirmed<'q>(
    alloc: Global,
    searched: &Searched<'_, 'q>,
    reported: Reported,
) -> Result<Option<Mend<'q>>, AllocError>
    ensures { IfOk result (λ found. IfSome found (IsMend searched.now.question.now.source.now searched.now.question.now.name.now
        (map arc_value searched.now.question.now.imports.now) searched.now.definition.now)) }
{
    match reported {
        Reported::Expression(run) => Ok(expression_mend(alloc, searched, run)?),
        Reported::Pattern(run, around) => Ok(pattern_mend(alloc, searched, run, around)?),
        Reported::Exchange(first, second) => Ok(exchange_mend(alloc, searched, first, second)?),
        Reported::Removal(argument, around) => Ok(removal_mend(alloc, searched, argument, around)?),
        Reported::Sides(first, second) => Ok(sides_mend(alloc, searched, first, second)?),
        Reported::Patterns(first, second) => Ok(patterns_mend(alloc, searched, first, second)?),
        Reported::Insertion(insertion, run) => Ok(insertion_mend(alloc, searched, insertion, run)?),
        Reported::Wrapped(wrapper, run) => Ok(wrapped_mend(alloc, searched, wrapper, run)?),
    }
}

/// Returns the first of these that gives the definition a type, if it is found: a change of another definition, and else what is reported of its own.
fn confirmed_choice<'q>(
    alloc: Global,
    searched: &Searched<'_, 'q>,
    choice: Choice,
) -> Result<Option<Mend<'q>>, AllocError>
    ensures { IfOk result (λ found. IfSome found (IsMend searched.now.question.now.source.now searched.now.question.now.name.now
        (map arc_value searched.now.question.now.imports.now) searched.now.definition.now)) }
{
    if let Some(reported) = choice.other {
        let mend = confirmed(alloc, searched, reported)?;
        if mend.is_some() {
            return Ok(mend);
        }
    }
    match choice.own {
        Some(reported) => Ok(confirmed(alloc, searched, reported)?),
        None => Ok(None),
    }
}

/// Returns the names of faults.
pub fn names_of<'a>(alloc: Global, faults: &'a [Fault]) -> Result<Vec<&'a str>, AllocError> {
    let mut names = Vec::with_capacity(alloc, faults.len())?;
    for fault in faults {
        names.push(fault.name.as_str())?;
    }
    Ok(names)
}

// Why: docs/DECISIONS.md, "Notes at type faults".
/// Returns the change that gives the definition of a type fault a type: the most likely one that is found. `effort` is less by what the search costs.
///
/// Returns `None` if nothing is found or the effort doesn't pay for a trial, and for a definition that mentions more than 256 names.
///
/// # Errors
///
/// Memory ran out, or a type would have grown past the limits of the question.
pub fn mend_of<'q>(
    alloc: Global,
    question: &Question<'q>,
    found: &TypeFault<'_>,
    effort: &mut Effort,
) -> Result<Option<Mend<'q>>, AllocError>
    ensures mend { IfOk result (λ mend. IfSome mend (IsMend question.now.source.now question.now.name.now (map arc_value question.now.imports.now)
        found.now.fault.now.name)) }
    ensures none { IsUsedUp effort.old → IfOk result (λ mend. mend ≡ None) }
    ensures stays { IsUsedUp effort.old → IsUsedUp effort.new }
{
    effort.begin();
    Ok(mend_in(alloc, question, found, false, effort)?)
}

/// Does what `mend_of` does, with the trials that are left for the fault. So what was searched for it before counts too.
///
/// # Errors
///
/// Memory ran out, or a type would have grown past the limits of the question.
pub fn mend_within<'q>(
    alloc: Global,
    question: &Question<'q>,
    found: &TypeFault<'_>,
    effort: &mut Effort,
) -> Result<Option<Mend<'q>>, AllocError>
    ensures mend { IfOk result (λ mend. IfSome mend (IsMend question.now.source.now question.now.name.now (map arc_value question.now.imports.now)
        found.now.fault.now.name)) }
    ensures none { IsUsedUp effort.old → IfOk result (λ mend. mend ≡ None) }
    ensures stays { IsUsedUp effort.old → IsUsedUp effort.new }
{
    Ok(mend_in(alloc, question, found, true, effort)?)
}

/// Does what `mend_of` does, with the trials that are left for the fault. Other definitions are searched too, except if `is_alone`.
fn mend_in<'q>(
    alloc: Global,
    question: &Question<'q>,
    found: &TypeFault<'_>,
    is_alone: bool,
    effort: &mut Effort,
) -> Result<Option<Mend<'q>>, AllocError>
    ensures mend { IfOk result (λ mend. IfSome mend (IsMend question.now.source.now question.now.name.now (map arc_value question.now.imports.now)
        found.now.fault.now.name)) }
    ensures none { IsUsedUp effort.old → IfOk result (λ mend. mend ≡ None) }
    ensures stays { IsUsedUp effort.old → IsUsedUp effort.new }
{
    if !effort.pays_for_walks(question.source) {
        return Ok(None);
    }
    let fault = found.fault;
    let lexed = found.reading.lexed(question.source);
    let Some(binding) = binding_at(lexed.source, lexed.tokens, lexed.outline, fault.place) else {
        return Ok(None);
    };
    let faulty = names_of(alloc, found.faults)?;
    let Some(others) = names_in(alloc, &lexed, binding, faulty.as_slice())? else {
        return Ok(None);
    };
    let searched = Searched {
        question,
        lexed: &lexed,
        definition: fault.name.as_str(),
        others: others.as_slice(),
        is_signed: signature_of(&lexed, binding.start).is_some(),
        is_alone,
        cost: cost_of(question.source, lexed.outline),
    };
    if !effort.pays(searched.cost) {
        return Ok(None);
    }
    let Some(cut) = cut_of(alloc, &lexed, binding)? else {
        return Ok(None);
    };
    match choice_in_cut(alloc, &searched, &cut, binding, effort)? {
        Some(choice) => Ok(confirmed_choice(alloc, &searched, choice)?),
        None => Ok(None),
    }
}
