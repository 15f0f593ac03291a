//! Cuts long texts to their first and their last bytes.
ghost use Rattle.std.specs.Prelude.{◌≡◌, ◌≤◌, ◌<◌, IfOk, length};
ghost use Rattle.hm_messages.specs.Cuts.{cut_text as cut_bytes, shortened as shortened_bytes, whole_at as whole_place};

use hm_messages_excerpts::continues;
use std::alloc::{AllocError, Global};

/// The number of bytes that are shown at the front of a longer text, and at its end.
const MOST_SHOWN: usize = 500;

/// The number of bytes of the longest text that is shown whole.
const LONGEST: usize = 1000;

/// Returns this place, or one at most three bytes before it, at which no character is cut.
fn whole_at(text: &[u8], place: usize) -> usize
    requires high { 3 ≤ place }
    requires within { place < length text.now }
    ensures at { result ≡ whole_place text.now place }
    ensures near { result ≤ place }
{
    if !continues(text[place]) {
        return place;
    }
    if !continues(text[place - 1]) {
        return place - 1;
    }
    if !continues(text[place - 2]) {
        return place - 2;
    }
    place - 3
}

/// Returns the first and the last bytes of a long text, with dots between.
fn cut_text(alloc: Global, text: &[u8]) -> Result<Vec<u8>, AllocError>
    requires { 1000 < length text.now }
    ensures { IfOk result (λ short. short.items ≡ cut_bytes text.now) }
{
    let front = whole_at(text, MOST_SHOWN);
    let back = whole_at(text, text.len() - MOST_SHOWN);
    let mut short = Vec::from_slice(alloc, &text[..front])?;
    short.extend_from_slice(b"...")?;
    short.extend_from_slice(&text[back..])?;
    Ok(short)
}

// Why: docs/DECISIONS.md, "Long names".
/// Returns a text as a reader sees it. A long one is cut.
#[tactic(auto, unfolding(crate::specs::Cuts::shortened))]
pub(crate) fn shortened(alloc: Global, text: &[u8]) -> Result<Vec<u8>, AllocError>
    ensures { IfOk result (λ short. short.items ≡ shortened_bytes text.now) }
{
    if text.len() > LONGEST {
        return Ok(cut_text(alloc, text)?);
    }
    Ok(Vec::from_slice(alloc, text)?)
}
