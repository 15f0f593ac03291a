//! Two parts of a definition that together are to blame.
ghost use Rattle.std.specs.Prelude.{◌≡◌, ◌≤◌, IfOk, IfSome, None, map, true};
ghost use Rattle.std.specs.Arc.{arc_value};
ghost use Rattle.hm_messages_joint.specs.Joints.{AreApart, HasTypeWithBoth, NeedsBoth};
ghost use Rattle.hm_messages_trials.specs.Limits.{IsUsedUp};

use crate::beside::{FaultyDefinition, refined, wholes_of};
use crate::judging::{is_typed_with_both, is_untyped_without};
use crate::least::{Sought, least_set, part_moved};
use crate::parts::{FoundJoint, Joint, part_at, range_of};
use hm_lex::Token;
use hm_messages_changes::{Cut, SourceRange, cut_of};
use hm_messages_outline::{Run, binding_at, names_in, signature_of};
use hm_messages_trials::{
    Effort, Question, Searched, TypeFault, cost_of, names_of, read, token_at,
};
use std::alloc::{AllocError, Global};

/// The most that a trial may cost if two parts are searched. A search has some 25 trials, and faults of a large module would use up what is left for the run.
const MOST_COST_OF_SEARCH: usize = 1 << 14;

/// The number of trials of the whole source.
const TRIALS_OF_WHOLE: usize = 3;

/// Returns two parts of a definition by a search in this smaller source, as tokens of the whole one.
fn found_in_cut(
    alloc: Global,
    searched: &Searched<'_, '_>,
    cut: &Cut,
    sought: Sought,
    effort: &mut Effort,
) -> Result<Option<FoundJoint>, AllocError> {
    let source = cut.text.as_slice();
    let Some(reading) = read(alloc, source)? else {
        return Ok(None);
    };
    let lexed = reading.lexed(source);
    let smaller = Searched {
        question: searched.question,
        lexed: &lexed,
        definition: searched.definition,
        others: searched.others,
        is_signed: searched.is_signed,
        is_alone: searched.is_alone,
        cost: cost_of(source, lexed.outline),
    };
    if smaller.cost > MOST_COST_OF_SEARCH {
        return Ok(None);
    }
    let start = token_at(lexed.tokens, cut.definition);
    let whole = sought.definition.start;
    let sought = sought.moved(whole, start);
    let Some(set) = least_set(alloc, &smaller, sought, effort)? else {
        return Ok(None);
    };
    if set.len() != 2 {
        return Ok(None);
    }
    Ok(Some(FoundJoint {
        first: part_moved(set[0], start, whole),
        second: part_moved(set[1], start, whole),
    }))
}

/// Returns whether the definition has no type with something of every type in place of one part alone.
fn needs_both(
    alloc: Global,
    searched: &Searched<'_, '_>,
    joint: Joint,
    found: FoundJoint,
) -> Result<bool, AllocError>
    ensures { IfOk result (λ yes. yes ≡ true → NeedsBoth searched.now.question.now.source.now searched.now.question.now.name.now
        (map arc_value searched.now.question.now.imports.now) searched.now.definition.now joint.first joint.second) }
{
    if !is_untyped_without(alloc, searched, joint.first, found.first)? {
        return Ok(false);
    }
    Ok(is_untyped_without(alloc, searched, joint.second, found.second)?)
}

/// Returns two parts of a source with these tokens, if the second one comes after the first.
fn joint_at(searched: &Searched<'_, '_>, found: FoundJoint) -> Option<Joint>
    ensures { IfSome result (λ joint. AreApart searched.now.question.now.source.now joint.first joint.second) }
{
    let source = searched.question.source;
    let first = part_at(searched.lexed, source, found.first)?;
    let second = part_at(searched.lexed, source, found.second)?;
    if range_of(first).to > range_of(second).from {
        return None;
    }
    Some(Joint { first, second })
}

/// Returns these parts, if trials in the whole source say that they are to blame together.
fn confirmed(
    alloc: Global,
    searched: &Searched<'_, '_>,
    found: FoundJoint,
) -> Result<Option<Joint>, AllocError>
    ensures apart { IfOk result (λ found. IfSome found (λ joint. AreApart searched.now.question.now.source.now joint.first joint.second)) }
    ensures suffices { IfOk result (λ found. IfSome found (λ joint. HasTypeWithBoth searched.now.question.now.source.now
        searched.now.question.now.name.now (map arc_value searched.now.question.now.imports.now) searched.now.definition.now joint.first joint.second)) }
    ensures needed { IfOk result (λ found. IfSome found (λ joint. NeedsBoth searched.now.question.now.source.now
        searched.now.question.now.name.now (map arc_value searched.now.question.now.imports.now) searched.now.definition.now joint.first joint.second)) }
{
    let Some(joint) = joint_at(searched, found) else {
        return Ok(None);
    };
    if !is_typed_with_both(alloc, searched, joint, found)? {
        return Ok(None);
    }
    if !needs_both(alloc, searched, joint, found)? {
        return Ok(None);
    }
    Ok(Some(joint))
}

/// Returns these parts, refined or else as they are, if trials in the whole source say that they are to blame together.
fn first_confirmed(
    alloc: Global,
    searched: &Searched<'_, '_>,
    faulty: FaultyDefinition<'_, '_>,
    found: FoundJoint,
    effort: &mut Effort,
) -> Result<Option<Joint>, AllocError>
    ensures apart { IfOk result (λ found. IfSome found (λ joint. AreApart searched.now.question.now.source.now joint.first joint.second)) }
    ensures suffices { IfOk result (λ found. IfSome found (λ joint. HasTypeWithBoth searched.now.question.now.source.now
        searched.now.question.now.name.now (map arc_value searched.now.question.now.imports.now) searched.now.definition.now joint.first joint.second)) }
    ensures needed { IfOk result (λ found. IfSome found (λ joint. NeedsBoth searched.now.question.now.source.now
        searched.now.question.now.name.now (map arc_value searched.now.question.now.imports.now) searched.now.definition.now joint.first joint.second)) }
{
    let cost = searched.cost.saturating_mul(TRIALS_OF_WHOLE);
    let refined = refined(alloc, searched, faulty, found, effort)?;
    if !effort.pays(cost) {
        return Ok(None);
    }
    match confirmed(alloc, searched, refined)? {
        Some(joint) => return Ok(Some(joint)),
        None => {}
    }
    if !effort.pays(cost) {
        return Ok(None);
    }
    Ok(confirmed(alloc, searched, wholes_of(found))?)
}

/// Returns the tokens of a part.
fn run_of(tokens: &[Token], part: Option<SourceRange>) -> Option<Run> {
    let part = part?;
    Some(Run {
        start: token_at(tokens, part.from),
        end: token_at(tokens, part.to),
    })
}

// Why: docs/DECISIONS.md, "Two slips".
/// Returns two parts of the definition of a type fault, inside a part that is to blame by itself, if there is one. With something of every type in place of both it has a type, and with that in place of one of them it has none.
/// `effort` is less by what the search costs. It has the trials that `mend_of` left for this fault.
///
/// Returns `None` if nothing is found or the effort doesn't pay for a trial, and for a definition that mentions more than 256 names.
///
/// # Errors
///
/// Memory ran out, or a type would have grown past the limits of the question.
pub fn joint_of(
    alloc: Global,
    question: &Question<'_>,
    found: &TypeFault<'_>,
    part: Option<SourceRange>,
    effort: &mut Effort,
) -> Result<Option<Joint>, AllocError>
    ensures apart { IfOk result (λ joint. IfSome joint (λ joint. AreApart question.now.source.now joint.first joint.second)) }
    ensures suffices { IfOk result (λ joint. IfSome joint (λ joint. HasTypeWithBoth question.now.source.now question.now.name.now
        (map arc_value question.now.imports.now) found.now.fault.now.name joint.first joint.second)) }
    ensures needed { IfOk result (λ joint. IfSome joint (λ joint. NeedsBoth question.now.source.now question.now.name.now
        (map arc_value question.now.imports.now) found.now.fault.now.name joint.first joint.second)) }
    ensures none { IsUsedUp effort.old → IfOk result (λ joint. joint ≡ None) }
    ensures stays { IsUsedUp effort.old → IsUsedUp effort.new }
{
    if !effort.pays(question.source.len()) {
        return Ok(None);
    }
    let fault = found.fault;
    let lexed = found.reading.lexed(question.source);
    let Some(binding) = binding_at(lexed.source, lexed.tokens, lexed.outline, fault.place) else {
        return Ok(None);
    };
    let faulty = names_of(alloc, found.faults)?;
    let Some(others) = names_in(alloc, &lexed, binding, faulty.as_slice())? else {
        return Ok(None);
    };
    let searched = Searched {
        question,
        lexed: &lexed,
        definition: fault.name.as_str(),
        others: others.as_slice(),
        is_signed: signature_of(&lexed, binding.start).is_some(),
        is_alone: true,
        cost: cost_of(question.source, lexed.outline),
    };
    let Some(cut) = cut_of(alloc, &lexed, binding)? else {
        return Ok(None);
    };
    let sought = Sought {
        definition: binding,
        part: run_of(lexed.tokens, part),
    };
    let Some(parts) = found_in_cut(alloc, &searched, &cut, sought, effort)? else {
        return Ok(None);
    };
    let faulty = FaultyDefinition {
        fault: found,
        definition: binding,
    };
    first_confirmed(alloc, &searched, faulty, parts, effort)
}
