//! The two texts of a place, and of a refusal.
ghost use Rattle.std.specs.Prelude.{◌≡◌, IfOk, string_bytes};
ghost use Rattle.hm_build_place_texts.specs.Facts.{facts_of};
ghost use Rattle.hm_build_place_texts.specs.Formats.{refusal_in, text_in};

use crate::found::PlaceFound;
use crate::objects::{place_line, refused_line};
use crate::prose::prose;
use std::alloc::{AllocError, Global};

/// How the result of a run for a place is written.
#[derive(Clone, Copy, Debug, PartialEq, Eq)]
pub enum PlaceFormat {
    /// As text for readers.
    Prose,
    /// As a JSON object on its own line.
    Object,
}

// Why: docs/DECISIONS.md, "Places as objects".
/// Returns what is at a place as text for readers, or as a JSON object that has this text.
///
/// # Errors
///
/// If memory runs out.
pub fn place_text(
    alloc: Global,
    format: PlaceFormat,
    found: &PlaceFound,
) -> Result<String, AllocError>
    ensures { IfOk result (λ text. string_bytes text ≡ text_in format (facts_of found.now)) }
{
    match format {
        PlaceFormat::Prose => Ok(prose(alloc, found)?),
        PlaceFormat::Object => Ok(place_line(alloc, found)?),
    }
}

/// Returns the text of a refusal as it is, or a JSON object that has this text.
///
/// # Errors
///
/// If memory runs out.
pub fn refused_text(alloc: Global, format: PlaceFormat, text: String) -> Result<String, AllocError>
    ensures { IfOk result (λ written. string_bytes written ≡ refusal_in format (string_bytes text)) }
{
    match format {
        PlaceFormat::Prose => Ok(text),
        PlaceFormat::Object => Ok(refused_line(alloc, text.as_str())?),
    }
}
