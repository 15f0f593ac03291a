//! The faults that the report leaves out because names of the module aren't in scope.
ghost use Rattle.std.specs.Prelude.{◌≡◌, IfOk, IfSome, None, All, false, map, true};
ghost use Rattle.std.specs.Arc.{arc_value};
ghost use Rattle.hm_lex.specs.Places.{IsBefore};
ghost use Rattle.hm_names.specs.declared.faults.Kind.TheVariants.{Unbound};
ghost use Rattle.hm_verdicts.specs.Outcomes.{verdict_of};
ghost use Rattle.hm_messages_hidden.specs.Hidden.{AreLater, BeginWith, HaveUnbound, IsLater, IsLaterKind, IsOutOfScope, IsReplaced, IsVerdictBeyond};
ghost use Rattle.hm_messages_trials.specs.Limits.{IsUsedUp};

use hm_lex::Place;
use hm_messages_changes::{Other, ScopeChange, changed_by, place_of_byte, replaced_of};
use hm_messages_outline::declarations_of;
use hm_messages_trials::{Effort, Question, Reading, cost_of, judged, reading_of};
use hm_names::{Fault, Kind};
use hm_verdicts::{Outcome, Verdict};
use std::alloc::{AllocError, Global};
use std::collections::HashSet;

/// The length of a source from which on it has no such faults.
const TOO_LONG: usize = 1 << 20;

/// The cost of a definition, beside that of a trial.
const COST_OF_DEFINITION: usize = 1 << 6;

/// The number of bytes of the source that make one of the cost of a replaced definition.
const BYTES_OF_REPLACED: usize = 1 << 4;

/// Returns whether a text is that of a variable without a qualifier.
pub fn is_plain_variable(text: &[u8]) -> bool {
    match text.first() {
        Some(first) => {
            (first.is_ascii_lowercase() || *first == b'_') && text.iter().all(|byte| *byte != b'.')
        }
        None => false,
    }
}

/// Returns whether a fault is a name that isn't in scope.
fn is_unbound(fault: &Fault) -> bool
    ensures { result ≡ true → fault.now.kind ≡ Unbound }
{
    fault.kind == Kind::Unbound
}

/// Returns whether a name is a variable without a qualifier that isn't among those seen before, and adds it to them.
fn is_first_variable<'a>(seen: &mut HashSet<&'a str>, name: &'a str) -> Result<bool, AllocError> {
    if !is_plain_variable(name.as_bytes()) {
        return Ok(false);
    }
    Ok(seen.insert(name)?)
}

/// Returns the variables without a qualifier of these faults, each once. Returns `None` if one of the faults isn't of a name that isn't in scope.
///
/// # Errors
///
/// Memory ran out.
pub fn unbound_in<'a>(
    alloc: Global,
    faults: &'a [Fault],
) -> Result<Option<Vec<&'a str>>, AllocError>
    ensures { IfOk result (λ found. IfSome found (λ names. All (λ n. IsOutOfScope faults.entry.now n.now) names.items)) }
{
    let mut names = Vec::new(alloc);
    let mut seen = HashSet::new(alloc);
    for fault in faults {
        let name = fault.name.as_str();
        if !is_unbound(fault) {
            return Ok(None);
        }
        if !is_first_variable(&mut seen, name)? {
            continue;
        }
        names.push(name)?;
    }
    Ok(Some(names))
}

/// Returns whether faults of this kind are of a phase after that of names.
fn is_later_kind(kind: Kind) -> bool
    ensures { result ≡ true → IsLaterKind kind }
{
    match kind {
        Kind::Arity => true,
        Kind::ClauseLength => true,
        Kind::Untyped => true,
        Kind::Recursive => true,
        Kind::NotExported => false,
        Kind::Duplicate => false,
        Kind::NoBinding => false,
        Kind::Unbound => false,
        Kind::Ambiguous => false,
        Kind::ExportClash => false,
        Kind::NotImported => false,
        Kind::NonLinear => false,
    }
}

/// Returns whether a fault is of a phase after that of names, and in front of a place.
fn is_later(fault: &Fault, end: Place) -> bool
    ensures { result ≡ true → IsLater end fault.now }
{
    if !is_later_kind(fault.kind) {
        return false;
    }
    fault.place.is_before(end)
}

/// Returns whether all faults are so.
fn are_all_later(faults: &[Fault], end: Place) -> bool
    ensures { result ≡ true → All (IsLater end) faults.now }
{
    faults.iter().all(|fault| is_later(fault, end))
}

/// Returns whether a verdict is good, or has only faults of phases after that of names, which are in front of a place.
fn are_later(verdict: &Verdict, end: Place) -> bool
    ensures { result ≡ true → AreLater end (verdict_of verdict.now) }
{
    match verdict {
        Verdict::Good(_) => true,
        Verdict::Faulty(found) => are_all_later(found.as_slice(), end),
    }
}

/// Returns whether a fault is a name that isn't in scope, from one place up to another.
fn is_between(fault: &Fault, start: Place, end: Place) -> bool
    ensures unbound { result ≡ true → fault.now.kind ≡ Unbound }
    ensures after { result ≡ true → ¬ (IsBefore fault.now.place start) }
    ensures ahead { result ≡ true → IsBefore fault.now.place end }
{
    if !is_unbound(fault) {
        return false;
    }
    if fault.place.is_before(start) {
        return false;
    }
    fault.place.is_before(end)
}

/// Returns whether one of the faults is a name that isn't in scope, from one place up to another.
fn have_unbound(faults: &[Fault], start: Place, end: Place) -> bool
    ensures { result ≡ true → HaveUnbound faults.now start end }
{
    for fault in faults {
        if is_between(fault, start, end) {
            return true;
        }
    }
    false
}

/// Returns whether bytes begin with a name, and go on after it.
fn begin_with(bytes: &[u8], name: &[u8]) -> bool
    ensures { result ≡ true → BeginWith bytes.now name.now }
{
    let Some(rest) = bytes.strip_prefix(name) else {
        return false;
    };
    !rest.is_empty()
}

/// Returns whether a definition begins with its name, and has a name that isn't in scope.
fn is_replaced(source: &[u8], definition: &Other<'_>, faults: &[Fault]) -> bool
    ensures { result ≡ true → IsReplaced source.now faults.now definition.now }
{
    if definition.from > definition.to || definition.to > source.len() {
        return false;
    }
    if definition.to >= TOO_LONG {
        return false;
    }
    let bytes = &source[definition.from..definition.to];
    if !begin_with(bytes, definition.name.as_bytes()) {
        return false;
    }
    let start = place_of_byte(source, definition.from);
    let end = place_of_byte(source, definition.to);
    have_unbound(faults, start, end)
}

/// Returns whether each of these definitions begins with its name, and has a name that isn't in scope.
pub fn are_replaced(source: &[u8], definitions: &[Other<'_>], faults: &[Fault]) -> bool
    ensures { result ≡ true → All (IsReplaced source.now faults.now) definitions.now }
{
    definitions
        .iter()
        .all(|definition| is_replaced(source, definition, faults))
}

/// Returns the outcome of the module in its source with a change, if all of its faults are of later phases and in front of the definitions that are put
/// in.
fn outcome_with(
    alloc: Global,
    question: &Question<'_>,
    faults: &[Fault],
    change: &ScopeChange<'_>,
) -> Result<Option<Outcome>, AllocError>
    requires { All (λ n. IsOutOfScope faults.now n.now) change.now.names.now }
    ensures { IfOk result (λ found. IfSome found (λ o. IsVerdictBeyond question.now.source.now question.now.name.now (map arc_value question.now.imports.now)
        faults.now o.verdict)) }
{
    let source = question.source;
    let at = change.at;
    if at > source.len() || at >= TOO_LONG {
        return Ok(None);
    }
    if !are_replaced(source, change.replaced, faults) {
        return Ok(None);
    }
    let end = place_of_byte(source, at);
    let Some(changed) = changed_by(alloc, source, change)? else {
        return Ok(None);
    };
    let Some(outcome) = judged(alloc, question, changed.as_slice())? else {
        return Ok(None);
    };
    if !are_later(outcome.verdict(), end) {
        return Ok(None);
    }
    Ok(Some(outcome))
}

/// Returns the cost of definitions of names and of replaced definitions, beside that of a trial.
fn cost_beside(source: &[u8], names: usize, replaced: usize) -> usize {
    let of_replaced = (source.len() / BYTES_OF_REPLACED).saturating_add(COST_OF_DEFINITION);
    names
        .saturating_mul(COST_OF_DEFINITION)
        .saturating_add(replaced.saturating_mul(of_replaced))
}

/// Faults, and variables that they say aren't in scope.
#[derive(Clone, Copy)]
struct OutOfScope<'a> {
    faults: &'a [Fault],
    names: &'a [&'a str],
}

/// Returns the outcome of a module with definitions in place of what isn't in scope. `effort` is less by what that costs.
fn hidden_by(
    alloc: Global,
    question: &Question<'_>,
    unbound: &OutOfScope<'_>,
    reading: &Reading,
    effort: &mut Effort,
) -> Result<Option<Outcome>, AllocError>
    requires { All (λ n. IsOutOfScope unbound.now.faults.now n.now) unbound.now.names.now }
    ensures beyond { IfOk result (λ found. IfSome found (λ o. IsVerdictBeyond question.now.source.now question.now.name.now (map arc_value question.now.imports.now)
        unbound.now.faults.now o.verdict)) }
    ensures stays { IsUsedUp effort.old → IsUsedUp effort.new }
{
    let faults = unbound.faults;
    let lexed = reading.lexed(question.source);
    let Some(declarations) = declarations_of(&lexed, question.name) else {
        return Ok(None);
    };
    let places = places_of(alloc, faults)?;
    let Some(replaced) = replaced_of(alloc, &lexed, declarations, places.as_slice())? else {
        return Ok(None);
    };
    let beside = cost_beside(question.source, unbound.names.len(), replaced.len());
    if !effort.pays(cost_of(question.source, lexed.outline).saturating_add(beside)) {
        return Ok(None);
    }
    let change = ScopeChange {
        names: unbound.names,
        replaced: replaced.as_slice(),
        at: lexed.start(declarations.end),
    };
    Ok(outcome_with(alloc, question, faults, &change)?)
}

// Why: docs/DECISIONS.md, "Hidden faults".
/// Returns the outcome of a module in which names aren't in scope, with a definition as an expression of every type of each such variable, and in place of
/// each definition that has another such name. Its faults are those that the report leaves out, and have the same places in the source. `effort` is less by
/// what that costs.
///
/// None if one of the faults isn't of a name that isn't in scope, if such definitions aren't enough to read or to resolve the names, or if the effort
/// doesn't pay for a trial.
///
/// # Errors
///
/// Memory ran out, or a type would have grown past the limits of the question.
pub fn hidden_of(
    alloc: Global,
    question: &Question<'_>,
    faults: &[Fault],
    effort: &mut Effort,
) -> Result<Option<Outcome>, AllocError>
    ensures beyond { IfOk result (λ found. IfSome found (λ o. IsVerdictBeyond question.now.source.now question.now.name.now (map arc_value question.now.imports.now)
        faults.now o.verdict)) }
    ensures none { IsUsedUp effort.old → IfOk result (λ found. found ≡ None) }
    ensures stays { IsUsedUp effort.old → IsUsedUp effort.new }
{
    let Some(names) = unbound_in(alloc, faults)? else {
        return Ok(None);
    };
    let Some(reading) = reading_of(alloc, question.source, effort)? else {
        return Ok(None);
    };
    let unbound = OutOfScope {
        faults,
        names: names.as_slice(),
    };
    Ok(hidden_by(alloc, question, &unbound, &reading, effort)?)
}

/// Returns the places of the faults of other names than plain variables.
fn places_of(alloc: Global, faults: &[Fault]) -> Result<Vec<Place>, AllocError> {
    let mut places = Vec::new(alloc);
    for fault in faults {
        if !is_plain_variable(fault.name.as_str().as_bytes()) {
            places.push(fault.place)?;
        }
    }
    Ok(places)
}
