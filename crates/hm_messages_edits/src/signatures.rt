//! The edit that writes a type in a signature.
ghost use Rattle.std.specs.Prelude.{◌≡◌, ◌<◌, List, ℕ, [], ◌∷◌, IfOk, length, map, string_bytes};
ghost use Rattle.hm_messages_json.specs.Edits.{changed_of};
ghost use Rattle.hm_messages_changes.specs.Holes.{IsPartOf};
ghost use Rattle.hm_messages_edits.specs.Signatures.{IsRetyped, front, retyped};

use crate::changes::TOO_LONG;
use hm_messages_changes::{SourceRange, place_of_byte};
use hm_messages_json::Change;
use hm_messages_rewrites::after_text;
use std::alloc::{AllocError, Global};

/// Returns the beginning of a signature of this variable alone.
fn front(alloc: Global, name: &str) -> Result<String, AllocError>
    ensures { IfOk result (λ text. string_bytes text ≡ front name.now) }
{
    let mut text = String::from_str(alloc, name)?;
    text.push_str(" ::")?;
    Ok(text)
}

/// Returns a signature as the only change, with this beginning and this type.
fn written(
    alloc: Global,
    source: &[u8],
    signature: SourceRange,
    begins: &str,
    own: &str,
) -> Result<Vec<Change>, AllocError>
    requires part { IsPartOf source.now signature }
    requires short { length source.now < 4294967295 }
    ensures { IfOk result (λ changes. (name : List ℕ) → begins.now ≡ front name → map changed_of changes.items ≡ retyped source.now name signature own.now ∷ []) }
{
    let mut text = String::from_str(alloc, begins)?;
    text.push_str(" ")?;
    text.push_str(own)?;
    let mut changes = Vec::new(alloc);
    changes.push(Change {
        start: place_of_byte(source, signature.from),
        end: place_of_byte(source, signature.to),
        text,
        is_checked: false,
    })?;
    Ok(changes)
}

/// Returns the change that writes a type in a signature of a variable. There is none if the signature is of other variables too.
pub fn signature_changes(
    alloc: Global,
    source: &[u8],
    name: &str,
    signature: SourceRange,
    own: &str,
) -> Result<Vec<Change>, AllocError>
    requires { IsPartOf source.now signature }
    ensures { IfOk result (λ changes. IsRetyped source.now name.now signature own.now (map changed_of changes.items)) }
{
    if source.len() >= TOO_LONG {
        return Ok(Vec::new(alloc));
    }
    let begins = front(alloc, name)?;
    let there = &source[signature.from..signature.to];
    let Some(_) = after_text(there, begins.as_bytes()) else {
        return Ok(Vec::new(alloc));
    };
    Ok(written(alloc, source, signature, begins.as_str(), own)?)
}
