//! The last good text of each source.
ghost use Rattle.std.specs.Prelude.{◌≡◌, IfOk, map, None, option_map, slice_index_or};
ghost use Rattle.hm_service_stand_ins.specs.Findings.{findings_of};
ghost use Rattle.hm_service_stand_ins.specs.GoodTexts.{AreGoodAfter, IsGoodAfter};

use crate::findings::is_good;
use crate::said::Said;
use hm_service_sources::HeldSource;
use std::alloc::{AllocError, Global};

/// Returns the last good text of the source with this number, if it had one.
pub(crate) fn good_at(good: &[Option<Vec<u8>>], number: usize) -> Option<&[u8]>
    ensures { option_map (λ t. t.now) result ≡ slice_index_or (map (option_map (λ t. t.items)) good.now) number None }
{
    let Some(text) = good.get(number) else {
        return None;
    };
    match text {
        Some(text) => Some(text.as_slice()),
        None => None,
    }
}

/// Returns a copy of a text, if there is one.
fn copy_of(alloc: Global, text: Option<&[u8]>) -> Result<Option<Vec<u8>>, AllocError>
    ensures { IfOk result (λ copy. option_map (λ t. t.items) copy ≡ option_map (λ t. t.now) text.entry) }
{
    match text {
        Some(text) => Ok(Some(Vec::from_slice(alloc, text)?)),
        None => Ok(None),
    }
}

/// Returns the last good text of a source after a check. `before` is that of before.
fn good_text(
    alloc: Global,
    said: &Said<'_>,
    source: &HeldSource,
    number: usize,
    before: Option<&[u8]>,
) -> Result<Option<Vec<u8>>, AllocError>
    ensures { IfOk result (λ after. IsGoodAfter (findings_of said.now) number source.now (option_map (λ t. t.now) before.entry) (option_map (λ t. t.items) after)) }
{
    if is_good(said, source, number) {
        let text = Vec::from_slice(alloc, source.text.as_slice())?;
        return Ok(Some(text));
    }
    Ok(copy_of(alloc, before)?)
}

/// Returns the last good text of each source after a check, if it had one. `before` has those of before.
///
/// # Errors
///
/// If memory runs out.
pub fn good_texts(
    alloc: Global,
    said: &Said<'_>,
    held: &[HeldSource],
    before: &[Option<Vec<u8>>],
) -> Result<Vec<Option<Vec<u8>>>, AllocError>
    ensures { IfOk result (λ after. AreGoodAfter (findings_of said.now) held.now (map (option_map (λ t. t.items)) before.now) (map (option_map (λ t. t.items)) after.items)) }
{
    let mut after = Vec::new(alloc);
    'sources: for number in 0..held.len() {
        let text = good_text(alloc, said, &held[number], number, good_at(before, number))?;
        after.push(text)?;
    }
    Ok(after)
}
