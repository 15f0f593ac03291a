//! The notes of two parts of a definition that together are to blame for a type fault.
ghost use Rattle.std.specs.Prelude.{◌≡◌, ◌⊎◌, IfOk, IfSome, [], map};
ghost use Rattle.std.specs.Arc.{arc_value};
ghost use Rattle.hm_names.specs.declared.faults.Kind.TheVariants.{Untyped};
ghost use Rattle.hm_messages_joint.specs.Joints.{HasTypeWithBoth, NeedsBoth};
ghost use Rattle.hm_build_messages.specs.Jointly.{AreJointNotes, IsJointNote, beside_expression, beside_pattern, pair_of};

use crate::parts::{NotedPart, part_message};
use crate::view::FaultyModule;
use hm_messages::{Pair, Topic, Way, reader_place};
use hm_messages_changes::SourceRange;
use hm_messages_joint::{Joint, JointPart, joint_of, range_of};
use hm_messages_trials::{Effort, TypeFault};
use hm_names::Kind;
use std::alloc::{AllocError, Global};

/// Returns two parts that together are to blame for a type fault, if they are found. Returns `None` if memory or the effort doesn't suffice for the search.
fn joint_for(
    alloc: Global,
    module: &FaultyModule<'_, '_>,
    found: &TypeFault<'_>,
    part: Option<SourceRange>,
    effort: &mut Effort,
) -> Option<Joint>
    ensures untyped { IfSome result (λ joint. found.now.fault.now.kind ≡ Untyped) }
    ensures suffices { IfSome result (λ joint. HasTypeWithBoth «module».now.question.now.source.now «module».now.question.now.name.now
        (map arc_value «module».now.question.now.imports.now) found.now.fault.now.name joint.first joint.second) }
    ensures needed { IfSome result (λ joint. NeedsBoth «module».now.question.now.source.now «module».now.question.now.name.now
        (map arc_value «module».now.question.now.imports.now) found.now.fault.now.name joint.first joint.second) }
{
    if found.fault.kind != Kind::Untyped {
        return None;
    }
    match joint_of(alloc, module.question, found, part, effort) {
        Ok(joint) => joint,
        Err(AllocError) => None,
    }
}

/// Returns what a part and an expression are.
fn beside_expression(part: JointPart) -> Pair
    ensures { result ≡ beside_expression part }
{
    match part {
        JointPart::Expression(_) => Pair::Expressions,
        JointPart::Pattern(_) => Pair::PatternBesideExpression,
    }
}

/// Returns what a part and a pattern are.
fn beside_pattern(part: JointPart) -> Pair
    ensures { result ≡ beside_pattern part }
{
    match part {
        JointPart::Expression(_) => Pair::ExpressionBesidePattern,
        JointPart::Pattern(_) => Pair::Patterns,
    }
}

/// Returns what a part and another one are.
fn pair_of(part: JointPart, other: JointPart) -> Pair
    ensures { result ≡ pair_of part other }
{
    match other {
        JointPart::Expression(_) => beside_expression(part),
        JointPart::Pattern(_) => beside_pattern(part),
    }
}

/// Returns the note of one part, which names the place of the other one, or no text.
fn part_note(
    alloc: Global,
    module: &FaultyModule<'_, '_>,
    definition: &str,
    part: JointPart,
    other: JointPart,
) -> Result<Vec<u8>, AllocError>
    ensures { IfOk result (λ text. (text.items ≡ []) ⊎ IsJointNote «module».now.format «module».now.page.now.file.now «module».now.page.now.lines
        definition.now part other text.items) }
{
    let pair = pair_of(part, other);
    let here = range_of(part);
    let there = range_of(other);
    let Some(end) = reader_place(module.page, here.end) else {
        return Ok(Vec::new(alloc));
    };
    let Some(start) = reader_place(module.page, there.start) else {
        return Ok(Vec::new(alloc));
    };
    let noted = NotedPart {
        part: here,
        second: Some(there),
        topic: Topic::Replaceable(definition, Way::Both(pair, end, start)),
        changes: &[],
    };
    Ok(part_message(alloc, module, &noted)?)
}

// Why: docs/DECISIONS.md, "Two slips".
/// Returns the notes of two parts that together are to blame for a type fault, or no text.
pub(crate) fn joint_notes(
    alloc: Global,
    module: &FaultyModule<'_, '_>,
    found: &TypeFault<'_>,
    part: Option<SourceRange>,
    effort: &mut Effort,
) -> Result<Vec<u8>, AllocError>
    requires { «module».now.question.now.source.now ≡ «module».now.page.now.lines }
    ensures { IfOk result (λ text. (text.items ≡ []) ⊎ AreJointNotes «module».now.format «module».now.page.now.file.now «module».now.page.now.lines
        «module».now.question.now.name.now (map arc_value «module».now.question.now.imports.now) found.now.fault.now text.items) }
{
    let Some(joint) = joint_for(alloc, module, found, part, effort) else {
        return Ok(Vec::new(alloc));
    };
    let definition = found.fault.name.as_str();
    let mut text = part_note(alloc, module, definition, joint.first, joint.second)?;
    let second = part_note(alloc, module, definition, joint.second, joint.first)?;
    text.extend_from_slice(second.as_slice())?;
    Ok(text)
}
