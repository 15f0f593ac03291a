//! Whether a definition is a type fault of a changed source, and whether it has a type in one.
ghost use Rattle.std.specs.Prelude.{◌≡◌, IfOk, map, true};
ghost use Rattle.std.specs.Arc.{arc_value};
ghost use Rattle.hm_verdicts.specs.Outcomes.{verdict_of};
ghost use Rattle.hm_messages_joint.specs.Joints.{HasFaultIn, HasFaultOf, HasTypeWithBoth, IsFaultOf, IsUntypedIn, IsUntypedWithout};

use crate::parts::{FoundJoint, Joint, JointPart, opened_at};
use hm_messages_outline::TermPart;
use hm_messages_trials::{Question, Searched, has_types_in, judged, read};
use hm_names::{Fault, Kind};
use hm_verdicts::Verdict;
use std::alloc::{AllocError, Global};

/// Returns whether a fault is a type fault of a definition.
fn is_fault_of(fault: &Fault, definition: &str) -> bool
    ensures { result ≡ true → IsFaultOf definition.now fault.now }
{
    if fault.kind != Kind::Untyped {
        return false;
    }
    fault.name.as_str() == definition
}

/// Returns whether a definition is among type faults.
fn has_fault_in(faults: &[Fault], definition: &str) -> bool
    ensures { result ≡ true → HasFaultIn definition.now faults.now }
{
    for fault in faults {
        if is_fault_of(fault, definition) {
            return true;
        }
    }
    false
}

/// Returns whether a definition is a type fault of a verdict.
fn has_fault_of(verdict: &Verdict, definition: &str) -> bool
    ensures { result ≡ true → HasFaultOf definition.now (verdict_of verdict.now) }
{
    match verdict {
        Verdict::Good(_) => false,
        Verdict::Faulty(found) => has_fault_in(found.as_slice(), definition),
    }
}

/// Returns whether a definition is a type fault of the module of a question in a changed source.
fn is_untyped_in(
    alloc: Global,
    question: &Question<'_>,
    changed: &[u8],
    definition: &str,
) -> Result<bool, AllocError>
    ensures { IfOk result (λ yes. yes ≡ true → IsUntypedIn changed.now question.now.name.now (map arc_value question.now.imports.now) definition.now) }
{
    match judged(alloc, question, changed)? {
        Some(outcome) => Ok(has_fault_of(outcome.verdict(), definition)),
        None => Ok(false),
    }
}

/// Returns whether the definition is a type fault with something of every type in place of a part, which has these tokens.
pub(crate) fn is_untyped_without(
    alloc: Global,
    searched: &Searched<'_, '_>,
    part: JointPart,
    found: TermPart,
) -> Result<bool, AllocError>
    ensures { IfOk result (λ yes. yes ≡ true → IsUntypedWithout searched.now.question.now.source.now searched.now.question.now.name.now
        (map arc_value searched.now.question.now.imports.now) searched.now.definition.now part) }
{
    let question = searched.question;
    let Some(changed) = opened_at(alloc, question.source, searched.lexed, part, found)? else {
        return Ok(false);
    };
    Ok(is_untyped_in(alloc, question, changed.as_slice(), searched.definition)?)
}

/// Returns whether the definition has a type with something of every type in place of both parts, which have these tokens.
pub(crate) fn is_typed_with_both(
    alloc: Global,
    searched: &Searched<'_, '_>,
    joint: Joint,
    found: FoundJoint,
) -> Result<bool, AllocError>
    ensures { IfOk result (λ yes. yes ≡ true → HasTypeWithBoth searched.now.question.now.source.now searched.now.question.now.name.now
        (map arc_value searched.now.question.now.imports.now) searched.now.definition.now joint.first joint.second) }
{
    let question = searched.question;
    let source = question.source;
    let Some(changed) = opened_at(alloc, source, searched.lexed, joint.second, found.second)? else {
        return Ok(false);
    };
    let Some(reading) = read(alloc, changed.as_slice())? else {
        return Ok(false);
    };
    let lexed = reading.lexed(changed.as_slice());
    let Some(both) = opened_at(alloc, changed.as_slice(), &lexed, joint.first, found.first)? else {
        return Ok(false);
    };
    Ok(has_types_in(
        alloc,
        question,
        both.as_slice(),
        searched.definition,
        searched.others,
    )?)
}
