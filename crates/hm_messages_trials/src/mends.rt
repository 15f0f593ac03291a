//! What gives a definition a type, and whether it does.
ghost use Rattle.std.specs.Prelude.{◌≡◌, IfOk, map, true};
ghost use Rattle.std.specs.Arc.{arc_value};
ghost use Rattle.hm_messages_changes.specs.Holes.{IsPartOf};
ghost use Rattle.hm_messages_trials.specs.Mends.{HasTypesWithPattern, IsExchange, IsInsertion, IsRemoval, IsWrapped};

use crate::culprits::Searched;
use crate::trial::has_types_in;
use hm_messages_changes::{
    Insertion, Rebound, SourceRange, are_inside, bindings, with_constructor, with_exchanged,
    with_insertion, with_wildcard, without,
};
use std::alloc::{AllocError, Global};

/// A change that gives a definition a type.
#[derive(Clone, Copy)]
pub enum Mend<'a> {
    /// Another expression in place of this one.
    Expression(SourceRange),
    /// Another pattern in place of this one.
    Pattern(SourceRange),
    /// These expressions, exchanged.
    Exchange(SourceRange, SourceRange),
    /// Nothing in place of this expression.
    Removal(SourceRange),
    /// These sides of a `:`, exchanged.
    Sides(SourceRange, SourceRange),
    /// These patterns of a clause or a lambda, exchanged.
    Patterns(SourceRange, SourceRange),
    /// This text around an expression, or before it.
    Insertion(Insertion, SourceRange),
    /// The constructor of this name in front of an expression.
    Wrapped(&'a str, SourceRange),
}

/// Returns whether the definition has a type with `_` in place of a part, and with the part's variables bound to the hole.
pub(crate) fn types_with_pattern(
    alloc: Global,
    searched: &Searched<'_, '_>,
    part: SourceRange,
    rebound: &Rebound<'_>,
) -> Result<bool, AllocError>
    requires { IsPartOf searched.now.question.now.source.now part }
    ensures { IfOk result (λ yes. yes ≡ true → HasTypesWithPattern searched.now.question.now.source.now searched.now.question.now.name.now
        (map arc_value searched.now.question.now.imports.now) searched.now.definition.now part) }
{
    let source = searched.question.source;
    if rebound.at < part.to || rebound.at > source.len() {
        return Ok(false);
    }
    if !are_inside(rebound.variables, part) {
        return Ok(false);
    }
    let text = bindings(alloc, source, rebound)?;
    let changed = with_wildcard(alloc, source, part, rebound.at, text.as_slice())?;
    Ok(has_types_in(
        alloc,
        searched.question,
        changed.as_slice(),
        searched.definition,
        searched.others,
    )?)
}

/// Returns whether the definition has a type with two parts exchanged.
pub(crate) fn types_exchanged(
    alloc: Global,
    searched: &Searched<'_, '_>,
    first: SourceRange,
    second: SourceRange,
) -> Result<bool, AllocError>
    requires first { IsPartOf searched.now.question.now.source.now first }
    requires second { IsPartOf searched.now.question.now.source.now second }
    ensures { IfOk result (λ yes. yes ≡ true → IsExchange searched.now.question.now.source.now searched.now.question.now.name.now
        (map arc_value searched.now.question.now.imports.now) searched.now.definition.now first second) }
{
    if first.to > second.from {
        return Ok(false);
    }
    let changed = with_exchanged(alloc, searched.question.source, first, second)?;
    Ok(has_types_in(
        alloc,
        searched.question,
        changed.as_slice(),
        searched.definition,
        searched.others,
    )?)
}

/// Returns whether the definition has a type if a part is left out.
pub(crate) fn types_if_left_out(
    alloc: Global,
    searched: &Searched<'_, '_>,
    part: SourceRange,
) -> Result<bool, AllocError>
    requires { IsPartOf searched.now.question.now.source.now part }
    ensures { IfOk result (λ yes. yes ≡ true → IsRemoval searched.now.question.now.source.now searched.now.question.now.name.now
        (map arc_value searched.now.question.now.imports.now) searched.now.definition.now part) }
{
    let changed = without(alloc, searched.question.source, part.from, part.to)?;
    Ok(has_types_in(
        alloc,
        searched.question,
        changed.as_slice(),
        searched.definition,
        searched.others,
    )?)
}

/// Returns whether the definition has a type with a text put in around a part.
pub(crate) fn types_with_insertion(
    alloc: Global,
    searched: &Searched<'_, '_>,
    insertion: Insertion,
    part: SourceRange,
) -> Result<bool, AllocError>
    requires { IsPartOf searched.now.question.now.source.now part }
    ensures { IfOk result (λ yes. yes ≡ true → IsInsertion searched.now.question.now.source.now searched.now.question.now.name.now
        (map arc_value searched.now.question.now.imports.now) searched.now.definition.now insertion part) }
{
    let changed = with_insertion(alloc, searched.question.source, insertion, part)?;
    Ok(has_types_in(
        alloc,
        searched.question,
        changed.as_slice(),
        searched.definition,
        searched.others,
    )?)
}

/// Returns whether the definition has a type with a constructor in front of a part.
pub(crate) fn types_wrapped(
    alloc: Global,
    searched: &Searched<'_, '_>,
    name: &str,
    part: SourceRange,
) -> Result<bool, AllocError>
    requires { IsPartOf searched.now.question.now.source.now part }
    ensures { IfOk result (λ yes. yes ≡ true → IsWrapped searched.now.question.now.source.now searched.now.question.now.name.now
        (map arc_value searched.now.question.now.imports.now) searched.now.definition.now name.now part) }
{
    let changed = with_constructor(alloc, searched.question.source, name, part)?;
    Ok(has_types_in(
        alloc,
        searched.question,
        changed.as_slice(),
        searched.definition,
        searched.others,
    )?)
}
