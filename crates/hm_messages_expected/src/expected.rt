//! The types that are expected of names which aren't in scope.
ghost use Rattle.std.specs.Prelude.{◌≡◌, All, IfOk, IfSome, None, map, slice_range, string_bytes};
ghost use Rattle.std.specs.Arc.{arc_value};
ghost use Rattle.hm_names.specs.declared.faults.Kind.TheVariants.{Unbound};
ghost use Rattle.hm_messages_changes.specs.Holes.{IsPartOf};
ghost use Rattle.hm_messages_here.specs.TypesHere.{HasTypeAt};
ghost use Rattle.hm_messages_trials.specs.Limits.{IsUsedUp};
ghost use Rattle.hm_messages_expected.specs.Expected.{IsDefined, IsExpected, placeholder};

use crate::costs::cost_at;
use crate::opened::{PLACEHOLDER, opened_by};
use crate::texts::{is_type_variable, shown_type, signature_around};
use hm_lex::Place;
use hm_messages_changes::{ScopeChange, SourceRange, part_of, replaced_of};
use hm_messages_here::{TypeHere, WrittenName, type_here, without_faults};
use hm_messages_hidden::{is_plain_variable, unbound_in};
use hm_messages_outline::{Lexed, Run, declarations_of, number_at, one};
use hm_messages_trials::{Effort, Question, Reading};
use hm_names::{Fault, Kind};
use std::alloc::{AllocError, Global};

/// A name that isn't in scope, all faults of its module, and the reading of the module's source.
#[derive(Clone, Copy)]
pub struct UnboundName<'a> {
    pub fault: &'a Fault,
    pub faults: &'a [Fault],
    pub reading: &'a Reading,
}

/// Returns the type that the placeholder has at a place of a changed source, and that of the definition it is in.
fn placeholder_type(
    alloc: Global,
    question: &Question<'_>,
    changed: &[u8],
    place: Place,
) -> Result<Option<TypeHere>, AllocError>
    ensures { IfOk result (λ found. IfSome found (λ t. HasTypeAt changed.now question.now.name.now (map arc_value question.now.imports.now) place placeholder
        (string_bytes t.definition) (string_bytes t.own) (string_bytes t.here))) }
{
    let Some(whole) = without_faults(alloc, changed, question.name, &[])? else {
        return Ok(None);
    };
    let there = Question {
        source: changed,
        name: question.name,
        imports: question.imports,
        prelude: question.prelude,
    };
    let name = WrittenName {
        text: PLACEHOLDER,
        place,
        binds: false,
    };
    Ok(type_here(alloc, &there, &whole, &name)?)
}

/// Returns the token at the place of a fault as a part of the source, if its bytes are the name of the fault.
fn part_at(lexed: &Lexed<'_>, token: usize, fault: &Fault) -> Option<SourceRange>
    ensures part { IfSome result (IsPartOf lexed.now.source.now) }
    ensures start { IfSome result (λ part. part.start ≡ fault.now.place) }
    ensures written { IfSome result (λ part. slice_range lexed.now.source.now part.from part.to ≡ fault.now.name) }
{
    let part = part_of(lexed.tokens, one(token), lexed.source)?;
    if part.start != fault.place {
        return None;
    }
    if &lexed.source[part.from..part.to] != fault.name.as_str().as_bytes() {
        return None;
    }
    Some(part)
}

/// Returns the places of the other faults of names than plain variables.
fn places_beside(alloc: Global, faults: &[Fault], place: Place) -> Result<Vec<Place>, AllocError> {
    let mut places = Vec::new(alloc);
    for fault in faults {
        if fault.place != place && !is_plain_variable(fault.name.as_str().as_bytes()) {
            places.push(fault.place)?;
        }
    }
    Ok(places)
}

/// A name that isn't in scope, its token, and the declarations of its module.
#[derive(Clone, Copy)]
struct NamedToken<'a> {
    fault: &'a Fault,
    faults: &'a [Fault],
    token: usize,
    declarations: Run,
}

/// Returns the type that is expected of a name, with a change by which the other names are in scope.
fn expected_with(
    alloc: Global,
    question: &Question<'_>,
    lexed: &Lexed<'_>,
    named: &NamedToken<'_>,
    change: &ScopeChange<'_>,
) -> Result<Option<String>, AllocError>
    requires source { lexed.now.source.now ≡ question.now.source.now }
    requires unbound { named.now.fault.now.kind ≡ Unbound }
    requires names { All (λ n. IsDefined named.now.faults.now n.now) change.now.names.now }
    ensures { IfOk result (λ found. IfSome found (λ text. IsExpected question.now.source.now question.now.name.now (map arc_value question.now.imports.now)
        named.now.faults.now named.now.fault.now (string_bytes text))) }
{
    let Some(part) = part_at(lexed, named.token, named.fault) else {
        return Ok(None);
    };
    let Some(changed) = opened_by(alloc, lexed.source, named.faults, change, part)? else {
        return Ok(None);
    };
    let place = named.fault.place;
    let Some(typed) = placeholder_type(alloc, question, changed.as_slice(), place)? else {
        return Ok(None);
    };
    if is_type_variable(typed.here.as_str()) {
        return Ok(None);
    }
    let signature = signature_around(lexed, named.declarations, named.token);
    Ok(Some(shown_type(alloc, lexed, signature, typed)?))
}

/// Returns the type that is expected of a name, with definitions of these variables.
fn expected_in(
    alloc: Global,
    question: &Question<'_>,
    lexed: &Lexed<'_>,
    named: &NamedToken<'_>,
    names: &[&str],
) -> Result<Option<String>, AllocError>
    requires source { lexed.now.source.now ≡ question.now.source.now }
    requires unbound { named.now.fault.now.kind ≡ Unbound }
    requires names { All (λ n. IsDefined named.now.faults.now n.now) names.now }
    ensures { IfOk result (λ found. IfSome found (λ text. IsExpected question.now.source.now question.now.name.now (map arc_value question.now.imports.now)
        named.now.faults.now named.now.fault.now (string_bytes text))) }
{
    let places = places_beside(alloc, named.faults, named.fault.place)?;
    let Some(replaced) = replaced_of(alloc, lexed, named.declarations, places.as_slice())? else {
        return Ok(None);
    };
    let change = ScopeChange {
        names,
        replaced: replaced.as_slice(),
        at: lexed.start(named.declarations.end),
    };
    Ok(expected_with(alloc, question, lexed, named, &change)?)
}

/// Returns the variables without a qualifier of these faults, and the placeholder. Returns `None` if one of the faults isn't of a name that isn't in scope.
fn names_with<'a>(alloc: Global, faults: &'a [Fault]) -> Result<Option<Vec<&'a str>>, AllocError>
    ensures { IfOk result (λ found. IfSome found (λ names. All (λ n. IsDefined faults.entry.now n.now) names.items)) }
{
    let Some(mut names) = unbound_in(alloc, faults)? else {
        return Ok(None);
    };
    names.push(PLACEHOLDER)?;
    Ok(Some(names))
}

// Why: docs/DECISIONS.md, "Expected types".
/// Returns the text of the type that is expected of a name which isn't in scope: the one that a variable of every type has in its place. `effort` is less by
/// what that costs.
///
/// The other names that aren't in scope have every type too. The letters are those of the signature of the name's definition, if its type can be shown as it
/// is written there.
///
/// None if one of the faults isn't of a name that isn't in scope, if the name isn't in an expression, if the module isn't good with these changes, if the type is
/// a variable, or if the effort doesn't pay for a trial.
///
/// # Errors
///
/// Memory ran out, or a type would have grown past the limits of the question.
pub fn expected_of(
    alloc: Global,
    question: &Question<'_>,
    found: &UnboundName<'_>,
    effort: &mut Effort,
) -> Result<Option<String>, AllocError>
    ensures expected { IfOk result (λ found_type. IfSome found_type (λ text. IsExpected question.now.source.now question.now.name.now
        (map arc_value question.now.imports.now) found.now.faults.now found.now.fault.now (string_bytes text))) }
    ensures none { IsUsedUp effort.old → IfOk result (λ found_type. found_type ≡ None) }
    ensures stays { IsUsedUp effort.old → IsUsedUp effort.new }
{
    if found.fault.kind != Kind::Unbound {
        return Ok(None);
    }
    let Some(names) = names_with(alloc, found.faults)? else {
        return Ok(None);
    };
    let lexed = found.reading.lexed(question.source);
    let Some(declarations) = declarations_of(&lexed, question.name) else {
        return Ok(None);
    };
    let token = number_at(lexed.tokens, found.fault.place);
    let Some(cost) = cost_at(&lexed, token, names.len()) else {
        return Ok(None);
    };
    if !effort.pays(cost) {
        return Ok(None);
    }
    let named = NamedToken {
        fault: found.fault,
        faults: found.faults,
        token,
        declarations,
    };
    Ok(expected_in(alloc, question, &lexed, &named, names.as_slice())?)
}
