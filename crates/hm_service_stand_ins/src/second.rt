//! The held set of a second check.
ghost use Rattle.std.specs.Prelude.{◌≡◌, ◌<◌, IfOk, IsTrue, OnErr, ℕ, false, length, map, option_map, true};
ghost use Rattle.std.specs.List.{Any};
ghost use Rattle.hm_service_stand_ins.specs.Findings.{findings_of};
ghost use Rattle.hm_service_stand_ins.specs.StandIns.{AreStandIns, IsSameAt, IsSecondSet, IsSkip, IsStandIn, MissesSome, StandsIn};

use crate::findings::has_error;
use crate::good::good_at;
use crate::said::Said;
use hm_service_messages::Diagnostic;
use hm_service_sources::HeldSource;
use std::alloc::{AllocError, Global};

/// Returns the text that stands for a source in a second check. `good` is its last good text, if it had one.
fn stand_in<'a>(
    said: &Said<'_>,
    source: &'a HeldSource,
    number: usize,
    good: Option<&'a [u8]>,
) -> &'a [u8]
    ensures { StandsIn (findings_of said.now) number source.entry.now (option_map (λ t. t.now) good.entry) result.now }
{
    let Some(text) = good else {
        return source.standing.as_slice();
    };
    if has_error(said, source, number) {
        return text;
    }
    source.standing.as_slice()
}

/// Returns a source that is held with the text that stands for it in a second check.
fn stand_in_source(
    alloc: Global,
    said: &Said<'_>,
    source: &HeldSource,
    number: usize,
    good: Option<&[u8]>,
) -> Result<HeldSource, AllocError>
    ensures { IfOk result (λ s. IsStandIn (findings_of said.now) number source.now (option_map (λ t. t.now) good.entry) s) }
{
    let text = stand_in(said, source, number, good);
    Ok(HeldSource {
        text: Vec::from_slice(alloc, text)?,
        standing: Vec::from_slice(alloc, text)?,
        is_read: true,
    })
}

/// Returns all sources with the texts that stand for them in a second check.
fn stand_ins(
    alloc: Global,
    said: &Said<'_>,
    held: &[HeldSource],
    good: &[Option<Vec<u8>>],
) -> Result<Vec<HeldSource>, AllocError>
    ensures { IfOk result (λ set. AreStandIns (findings_of said.now) held.now (map (option_map (λ t. t.items)) good.now) set.items) }
{
    let mut set = Vec::new(alloc);
    'sources: for number in 0..held.len() {
        let source = stand_in_source(alloc, said, &held[number], number, good_at(good, number))?;
        set.push(source)?;
    }
    Ok(set)
}

/// Returns whether a diagnostic is the note at an import because of which a module is skipped.
pub(crate) fn is_skip(diagnostic: &Diagnostic) -> bool
    ensures yes { IsTrue result → IsSkip diagnostic.now }
    ensures no { result ≡ false → ¬ (IsSkip diagnostic.now) }
{
    diagnostic.kind.as_str() == "skipped"
}

/// Returns whether a module is skipped.
fn has_skip(diagnostics: &[Diagnostic]) -> bool
    ensures yes { IsTrue result → Any IsSkip diagnostics.now }
    ensures no { result ≡ false → ¬ (Any IsSkip diagnostics.now) }
{
    'diagnostics: for diagnostic in diagnostics {
        if is_skip(diagnostic) {
            return true;
        }
    }
    false
}

/// Returns whether a check has skipped a module or left out a source.
fn misses_some(said: &Said<'_>, held: &[HeldSource]) -> bool
    ensures yes { IsTrue result → MissesSome (findings_of said.now) held.now }
    ensures no { result ≡ false → ¬ (MissesSome (findings_of said.now) held.now) }
{
    if said.part.len() != held.len() {
        return true;
    }
    has_skip(said.told)
}

/// Returns whether two texts are the same.
pub(crate) fn is_same(text: &[u8], other: &[u8]) -> bool
    ensures yes { IsTrue result → text.now ≡ other.now }
    ensures no { result ≡ false → ¬ (text.now ≡ other.now) }
{
    text == other
}

/// Returns whether another text stands for one of the sources.
fn has_other_text(held: &[HeldSource], set: &[HeldSource]) -> bool
    requires { length set.now ≡ length held.now }
    ensures yes { IsTrue result → (n : ℕ) × ((n < length held.now) × ¬ (IsSameAt held.now set.now n)) }
    ensures no { result ≡ false → (n : ℕ) → n < length held.now → IsSameAt held.now set.now n }
{
    'sources: for number in 0..held.len() {
        if !is_same(
            set[number].standing.as_slice(),
            held[number].standing.as_slice(),
        ) {
            return true;
        }
    }
    false
}

// Why: docs/DECISIONS.md, "A second check".
/// Returns the held set of a second check, if one is made: if the first check has skipped a module or left out a source, and an older text stands for a
/// source. `good` has the last good text of each source.
///
/// # Errors
///
/// If memory runs out.
pub fn second_set(
    alloc: Global,
    said: &Said<'_>,
    held: &[HeldSource],
    good: &[Option<Vec<u8>>],
) -> Result<Option<Vec<HeldSource>>, AllocError>
    ensures err { OnErr result (MissesSome (findings_of said.now) held.now) }
    ensures set { IfOk result (λ set. IsSecondSet (findings_of said.now) held.now (map (option_map (λ t. t.items)) good.now) (option_map (λ s. s.items) set)) }
{
    if !misses_some(said, held) {
        return Ok(None);
    }
    let set = stand_ins(alloc, said, held, good)?;
    if has_other_text(held, set.as_slice()) {
        return Ok(Some(set));
    }
    Ok(None)
}
