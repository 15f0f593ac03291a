//! The changes of the source that a message says.
ghost use Rattle.std.specs.Prelude.{IfOk, map, option_map};
ghost use Rattle.hm_messages_json.specs.Edits.{changed_of};
ghost use Rattle.hm_messages_rewrites.specs.Rewrites.{IsRewrittenBy};
ghost use Rattle.hm_messages.specs.Changes.{AreSaid};
ghost use Rattle.hm_messages.specs.Subjects.{subject_of};

use crate::topic::{PlacedAdvice, Topic};
use hm_lex::Place;
use hm_messages_details::Detail;
use hm_messages_excerpts::SourceLines;
use hm_messages_json::Change;
use hm_messages_rewrites::{PlacedToken, name_changes, token_changes};
use std::alloc::{AllocError, Global};

/// Returns the change that writes a near name in place of the name at this place, if there is one.
fn near_changes(
    alloc: Global,
    lines: &SourceLines<'_>,
    place: Place,
    name: &str,
    near: Option<&str>,
) -> Result<Vec<Change>, AllocError>
    ensures { IfOk result (λ changes. IsRewrittenBy lines.now place name.now (option_map (λ y. y.now) near.entry) (map changed_of changes.items)) }
{
    match near {
        Some(near) => {
            let detail = Detail::NearBinding(near);
            Ok(name_changes(alloc, lines, place, name, &detail)?)
        }
        None => Ok(Vec::new(alloc)),
    }
}

// Why: docs/DECISIONS.md, "Edits that aren't checked".
/// Returns the changes of the source that a topic says at a place.
pub(crate) fn said_changes(
    alloc: Global,
    lines: &SourceLines<'_>,
    place: Place,
    topic: &Topic<'_>,
) -> Result<Vec<Change>, AllocError>
    ensures { IfOk result (λ changes. AreSaid lines.now place (subject_of topic.now) (map changed_of changes.items)) }
{
    match topic {
        Topic::Fault(_, named) => {
            let detail = named.detail;
            Ok(name_changes(alloc, lines, place, named.name, &detail)?)
        }
        Topic::Missing(name, near) => Ok(near_changes(alloc, lines, place, name, *near)?),
        Topic::Syntax(advice) => {
            let PlacedAdvice { hint, text, other } = *advice;
            let token = PlacedToken { place, text, other };
            Ok(token_changes(alloc, lines, hint, &token)?)
        }
        Topic::Replaceable(_, _) => Ok(Vec::new(alloc)),
        Topic::Wrapped(_, _, _) => Ok(Vec::new(alloc)),
        Topic::TooManyArguments(_, _) => Ok(Vec::new(alloc)),
        Topic::TooFewArguments(_, _) => Ok(Vec::new(alloc)),
        Topic::Mistyped(_, _) => Ok(Vec::new(alloc)),
        Topic::Unsigned(_, _, _) => Ok(Vec::new(alloc)),
        Topic::Follows(_, _, _) => Ok(Vec::new(alloc)),
        Topic::Faulty(_) => Ok(Vec::new(alloc)),
        Topic::Skipped(_) => Ok(Vec::new(alloc)),
        Topic::TooLong => Ok(Vec::new(alloc)),
        Topic::Lexeme(_, _) => Ok(Vec::new(alloc)),
        Topic::OpenComment => Ok(Vec::new(alloc)),
        Topic::TooDeep => Ok(Vec::new(alloc)),
        Topic::TooMany => Ok(Vec::new(alloc)),
        Topic::Twice(_) => Ok(Vec::new(alloc)),
        Topic::Twin(_) => Ok(Vec::new(alloc)),
        Topic::Cycle(_) => Ok(Vec::new(alloc)),
        Topic::Exhausted(_) => Ok(Vec::new(alloc)),
        Topic::Limit => Ok(Vec::new(alloc)),
        Topic::Step(_, _) => Ok(Vec::new(alloc)),
        Topic::Hidden(_, _) => Ok(Vec::new(alloc)),
        Topic::TypeVariable(_, _) => Ok(Vec::new(alloc)),
        Topic::LeftOut(_, _) => Ok(Vec::new(alloc)),
        Topic::Private(_, _) => Ok(Vec::new(alloc)),
        Topic::Importable(_, _) => Ok(Vec::new(alloc)),
        Topic::UnboundType(_, _) => Ok(Vec::new(alloc)),
    }
}
