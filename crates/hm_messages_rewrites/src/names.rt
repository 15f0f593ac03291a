//! The change of a message about a name.
ghost use Rattle.std.specs.Prelude.{◌≡◌, ◌++◌, IfOk, None, codes, map, option_map, string_bytes};
ghost use Rattle.hm_messages_json.specs.Edits.{changed_of};
ghost use Rattle.hm_messages_details.specs.Details.{known_of};
ghost use Rattle.hm_names.specs.Faults.Phases.{written_in};
ghost use Rattle.hm_messages_rewrites.specs.Names.{new_name};
ghost use Rattle.hm_messages_rewrites.specs.Rewrites.{IsRewrittenBy};

use crate::writing::rewritten;
use hm_lex::Place;
use hm_messages_details::Detail;
use hm_messages_excerpts::SourceLines;
use hm_messages_json::Change;
use std::alloc::{AllocError, Global};

/// Returns a name with this qualifier.
fn with_qualifier(alloc: Global, qualifier: &str, name: &str) -> Result<String, AllocError>
    ensures { IfOk result (λ text. string_bytes text ≡ qualifier.now ++ codes "." ++ name.now) }
{
    let mut text = String::from_str(alloc, qualifier)?;
    text.push_str(".")?;
    text.push_str(name)?;
    Ok(text)
}

/// Returns a name with its qualifier.
fn qualified(alloc: Global, qualifier: Option<&str>, name: &str) -> Result<String, AllocError>
    ensures { IfOk result (λ text. string_bytes text ≡ written_in (option_map (λ q. q.now) qualifier.entry) name.now) }
{
    match qualifier {
        Some(qualifier) => Ok(with_qualifier(alloc, qualifier, name)?),
        None => String::from_str(alloc, name),
    }
}

/// Returns a copy of a name, if there is one.
fn copied(alloc: Global, name: Option<&str>) -> Result<Option<String>, AllocError>
    ensures { IfOk result (λ copy. option_map string_bytes copy ≡ option_map (λ n. n.now) name.entry) }
{
    match name {
        Some(name) => Ok(Some(String::from_str(alloc, name)?)),
        None => Ok(None),
    }
}

/// Returns the name that a detail says in place of the fault's, if it says one.
fn new_name(alloc: Global, detail: &Detail<'_>) -> Result<Option<String>, AllocError>
    ensures { IfOk result (λ name. option_map string_bytes name ≡ new_name (known_of detail.now)) }
{
    match detail {
        Detail::Near(qualifier, name) => Ok(Some(qualified(alloc, *qualifier, name)?)),
        Detail::NearLocal(name) => Ok(Some(String::from_str(alloc, name)?)),
        Detail::NearBinding(name) => Ok(Some(String::from_str(alloc, name)?)),
        Detail::Nothing => Ok(None),
        Detail::LeftOut => Ok(None),
        Detail::Either(_, _) => Ok(None),
        Detail::First(_) => Ok(None),
        Detail::Arguments(_, _) => Ok(None),
        Detail::Patterns(_, _) => Ok(None),
        Detail::NotFrom(_, _, near) => copied(alloc, *near),
        Detail::Elsewhere(_) => Ok(None),
        Detail::ByPattern => Ok(None),
    }
}

/// Returns the change that writes the near name of a detail in place of the name at this place. There is none if the detail says no name, or if
/// the name isn't at the place.
pub fn name_changes(
    alloc: Global,
    lines: &SourceLines<'_>,
    place: Place,
    name: &str,
    detail: &Detail<'_>,
) -> Result<Vec<Change>, AllocError>
    ensures { IfOk result (λ changes. IsRewrittenBy lines.now place name.now (new_name (known_of detail.now)) (map changed_of changes.items)) }
{
    match new_name(alloc, detail)? {
        Some(new) => Ok(rewritten(alloc, lines, place, name, new.as_str())?),
        None => Ok(Vec::new(alloc)),
    }
}
