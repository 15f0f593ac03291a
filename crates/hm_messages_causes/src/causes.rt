//! The signature of another faulty definition without which both definitions have types.
ghost use Rattle.std.specs.Prelude.{◌≡◌, IfOk, IfSome, None, map};
ghost use Rattle.std.specs.Arc.{arc_value};
ghost use Rattle.hm_messages_changes.specs.Holes.{IsPartOf};
ghost use Rattle.hm_messages_causes.specs.Causes.{IsCause};
ghost use Rattle.hm_messages_trials.specs.Limits.{IsUsedUp};

use hm_messages_changes::{SourceRange, part_of, without};
use hm_messages_outline::{Lexed, Run, binding_at, signature_of};
use hm_messages_trials::{Effort, Question, TypeFault, cost_of, has_types_in};
use hm_names::{Fault, Kind};
use hm_parse_grammar::Symbol;
use std::alloc::{AllocError, Global};

/// The most definitions whose signatures are tried for a fault.
const MOST_TRIED: usize = 4;

/// A definition whose signature is to blame for the type fault of another one.
#[derive(Clone, Copy)]
pub struct Cause<'a> {
    pub name: &'a str,
    pub signature: SourceRange,
}

/// Returns whether a definition mentions a variable.
fn mentions(lexed: &Lexed<'_>, definition: Run, name: &str) -> bool {
    (definition.start..definition.end).any(|at| lexed.outline.symbol(at).is(Symbol::Var)
        && lexed.text(at) == name.as_bytes())
}

/// Returns whether another fault of the module may be the cause of this one: it is a type fault of a definition that this one mentions.
fn is_candidate(lexed: &Lexed<'_>, definition: Run, fault: &Fault, other: &Fault) -> bool {
    other.kind == Kind::Untyped
        && other.name.as_str() != fault.name.as_str()
        && mentions(lexed, definition, other.name.as_str())
}

/// Returns the signature of the definition of a fault, if it has one.
fn signature_at(lexed: &Lexed<'_>, fault: &Fault) -> Option<SourceRange>
    ensures { IfSome result (IsPartOf lexed.now.source.now) }
{
    let binding = binding_at(lexed.source, lexed.tokens, lexed.outline, fault.place)?;
    let run = signature_of(lexed, binding.start)?;
    part_of(lexed.tokens, run, lexed.source)
}

/// Returns the cause of a fault, if it is the signature of the definition of another one.
fn cause_at<'f>(
    alloc: Global,
    question: &Question<'_>,
    found: &TypeFault<'f>,
    other: &'f Fault,
    effort: &mut Effort,
) -> Result<Option<Cause<'f>>, AllocError>
    ensures cause { IfOk result (λ cause. IfSome cause (λ c. IsCause question.now.source.now question.now.name.now (map arc_value question.now.imports.now)
        found.now.fault.now.name c.name.now c.signature)) }
    ensures stays { IsUsedUp effort.old → IsUsedUp effort.new }
{
    let lexed = found.reading.lexed(question.source);
    let Some(signature) = signature_at(&lexed, other) else {
        return Ok(None);
    };
    if !effort.pays(cost_of(question.source, lexed.outline)) {
        return Ok(None);
    }
    let changed = without(alloc, question.source, signature.from, signature.to)?;
    let name = other.name.as_str();
    let definition = found.fault.name.as_str();
    if !has_types_in(alloc, question, changed.as_slice(), definition, &[name])? {
        return Ok(None);
    }
    Ok(Some(Cause { name, signature }))
}

// Why: docs/DECISIONS.md, "Faults that follow".
/// Returns the definition with the signature from which a type fault follows: it is a type fault too, and without that signature both definitions have types.
/// `effort` is less by what that costs.
///
/// None if no other definition that the fault's mentions is such a one, or if the effort doesn't pay for a trial.
///
/// # Errors
///
/// Memory ran out, or a type would have grown past the limits of the question.
pub fn cause_of<'f>(
    alloc: Global,
    question: &Question<'_>,
    found: &TypeFault<'f>,
    effort: &mut Effort,
) -> Result<Option<Cause<'f>>, AllocError>
    ensures cause { IfOk result (λ cause. IfSome cause (λ c. IsCause question.now.source.now question.now.name.now (map arc_value question.now.imports.now)
        found.now.fault.now.name c.name.now c.signature)) }
    ensures none { IsUsedUp effort.old → IfOk result (λ cause. cause ≡ None) }
    ensures stays { IsUsedUp effort.old → IsUsedUp effort.new }
{
    if found.faults.len() < 2 || !effort.pays(question.source.len()) {
        return Ok(None);
    }
    let lexed = found.reading.lexed(question.source);
    let Some(binding) = binding_at(lexed.source, lexed.tokens, lexed.outline, found.fault.place)
    else {
        return Ok(None);
    };
    let mut tried = 0;
    for other in found.faults {
        if tried < MOST_TRIED && is_candidate(&lexed, binding, found.fault, other) {
            tried += 1;
            let cause = cause_at(alloc, question, found, other, effort)?;
            if cause.is_some() {
                return Ok(cause);
            }
        }
    }
    Ok(None)
}
