//! What a check says of the modules of a held set.
ghost use Rattle.std.specs.Prelude.{◌≡◌, IfOk, IsTrue, [], false, map, slice_index_or};
ghost use Rattle.hm_service_offers.specs.Judged.{AreSources, IsCheckedAs, IsShown};
ghost use Rattle.hm_service_sources.specs.HeldSets.{texts_of};

use hm_run_sources::origins_of;
use hm_service_fixes::{Judged, SourceChange, is_fix};
use hm_service_places::{Checked, CheckedSet, index_of};
use hm_service_sources::HeldSource;
use std::alloc::{AllocError, Global};

/// Returns the number at an index, or 0 if there is none.
fn number_at(part: &[usize], index: usize) -> usize
    ensures { result ≡ slice_index_or part.now index 0 }
{
    match part.get(index) {
        Some(number) => *number,
        None => 0,
    }
}

/// Returns the number of the source of each module.
fn sources_of(alloc: Global, checked: &Checked) -> Result<Vec<usize>, AllocError>
    ensures { IfOk result (λ sources. AreSources checked.now sources.items) }
{
    let origins = origins_of(alloc, checked.build.counts.as_slice())?;
    let part = checked.part.as_slice();
    let mut sources = Vec::new(alloc);
    'modules: for origin in origins.as_slice() {
        sources.push(number_at(part, *origin))?;
    }
    Ok(sources)
}

/// Returns the text with a number, or an empty one if there is none.
fn text_at(texts: &[Vec<u8>], number: usize) -> &[u8]
    ensures { result.now ≡ slice_index_or (map (λ s. s.items) texts.now) number [] }
{
    match texts.get(number) {
        Some(text) => text.as_slice(),
        None => &[],
    }
}

/// Returns the text of the source with a number, or an empty one if there is none.
pub(crate) fn held_text(held: &[HeldSource], number: usize) -> &[u8]
    ensures { result.now ≡ slice_index_or (texts_of held.now) number [] }
{
    match held.get(number) {
        Some(source) => source.text.as_slice(),
        None => &[],
    }
}

/// Returns whether two texts are the same.
fn is_same(text: &[u8], other: &[u8]) -> bool
    ensures yes { IsTrue result → text.now ≡ other.now }
    ensures no { result ≡ false → ¬ (text.now ≡ other.now) }
{
    text == other
}

/// Returns whether the source with a number is checked as it is now.
fn is_checked(held: &[HeldSource], checked: &Checked, number: usize) -> bool
    ensures { IsCheckedAs held.now checked.now number result }
{
    match index_of(checked.part.as_slice(), number) {
        Some(index) => is_same(
            text_at(checked.texts.as_slice(), index),
            held_text(held, number),
        ),
        None => false,
    }
}

/// Returns whether a change is a fix, by the check of a set before it and by one after it.
pub(crate) fn is_shown(
    alloc: Global,
    set: &CheckedSet<'_>,
    held: &[HeldSource],
    checked: &Checked,
    change: &SourceChange<'_>,
) -> Result<bool, AllocError>
    ensures { IfOk result (IsShown set.now held.now checked.now change.now) }
{
    let sources = sources_of(alloc, set.checked)?;
    let later = sources_of(alloc, checked)?;
    let before = Judged {
        store: &set.checked.build.store,
        sources: sources.as_slice(),
        is_checked: is_checked(set.held, set.checked, change.source),
    };
    let after = Judged {
        store: &checked.build.store,
        sources: later.as_slice(),
        is_checked: is_checked(held, checked, change.source),
    };
    Ok(is_fix(&before, &after, change))
}
