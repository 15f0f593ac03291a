//! Texts within texts.
ghost use Rattle.std.specs.Prelude.{◌≡◌, ◌++◌, IfOk, IfSome, string_bytes};

use std::alloc::{AllocError, Global};

/// Returns the text between a beginning and an end of a text.
pub fn between(
    alloc: Global,
    text: &[u8],
    front: &[u8],
    back: &[u8],
) -> Result<Option<String>, AllocError>
    ensures { IfOk result (λ found. IfSome found (λ inner. text.now ≡ front.now ++ (string_bytes inner ++ back.now))) }
{
    let Some(rest) = text.strip_prefix(front) else {
        return Ok(None);
    };
    let Some(inner) = rest.strip_suffix(back) else {
        return Ok(None);
    };
    match std::str::from_utf8(inner) {
        Ok(inner) => Ok(Some(String::from_str(alloc, inner)?)),
        Err(_) => Ok(None),
    }
}
