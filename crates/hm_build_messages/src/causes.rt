//! The notes of type faults that follow from the signature of another definition.
ghost use Rattle.std.specs.Prelude.{◌≡◌, IfOk, IfSome, map};
ghost use Rattle.std.specs.Arc.{arc_value};
ghost use Rattle.hm_names.specs.declared.faults.Kind.TheVariants.{Untyped};
ghost use Rattle.hm_messages_causes.specs.Causes.{IsCause};
ghost use Rattle.hm_build_messages.specs.Explanations.{IsCauseNote};

use crate::parts::{NotedPart, part_message};
use crate::view::FaultyModule;
use hm_messages::{Topic, reader_place};
use hm_messages_causes::{Cause, cause_of};
use hm_messages_trials::{Effort, TypeFault};
use hm_names::Kind;
use std::alloc::{AllocError, Global};

/// Returns the signature from which a type fault follows, if it is found. Returns `None` if memory or the effort doesn't suffice for the search.
fn cause_for<'f>(
    alloc: Global,
    module: &FaultyModule<'_, '_>,
    found: &TypeFault<'f>,
    effort: &mut Effort,
) -> Option<Cause<'f>>
    ensures { IfSome result (λ cause. (found.now.fault.now.kind ≡ Untyped) × IsCause «module».now.question.now.source.now «module».now.question.now.name.now
        (map arc_value «module».now.question.now.imports.now) found.now.fault.now.name cause.name.now cause.signature) }
{
    if found.fault.kind != Kind::Untyped {
        return None;
    }
    match cause_of(alloc, module.question, found, effort) {
        Ok(cause) => cause,
        Err(AllocError) => None,
    }
}

/// Returns the note of the signature from which a type fault follows, if it follows from one.
pub(crate) fn cause_note(
    alloc: Global,
    module: &FaultyModule<'_, '_>,
    found: &TypeFault<'_>,
    effort: &mut Effort,
) -> Result<Option<Vec<u8>>, AllocError>
    requires { «module».now.question.now.source.now ≡ «module».now.page.now.lines }
    ensures { IfOk result (λ note. IfSome note (λ text. IsCauseNote «module».now.format «module».now.page.now.file.now «module».now.page.now.lines
        «module».now.question.now.name.now (map arc_value «module».now.question.now.imports.now) found.now.fault.now text.items)) }
{
    let Some(cause) = cause_for(alloc, module, found, effort) else {
        return Ok(None);
    };
    let Some(end) = reader_place(module.page, cause.signature.end) else {
        return Ok(None);
    };
    let noted = NotedPart {
        part: cause.signature,
        second: None,
        topic: Topic::Follows(found.fault.name.as_str(), cause.name, end),
        changes: &[],
    };
    Ok(Some(part_message(alloc, module, &noted)?))
}
