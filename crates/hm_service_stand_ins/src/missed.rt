//! The diagnostics of a second check that are shown.
ghost use Rattle.std.specs.Prelude.{◌≡◌, ◌∷◌, ◌++◌, [], IfOk, IsTrue, OnOk, false, map, option_map, string_bytes};
ghost use Rattle.hm_service_messages.specs.Choices.{AreChosen};
ghost use Rattle.hm_service_stand_ins.specs.Findings.{findings_of};
ghost use Rattle.hm_service_stand_ins.specs.Missed.{AreMissedAt, HasTextOfNow, IsMissed, IsOfSkipped, IsSkipOf, text_at};

use crate::findings::{is_among, is_at};
use crate::said::Said;
use crate::second::{is_same, is_skip};
use hm_service_messages::Diagnostic;
use hm_service_sources::HeldSource;
use std::alloc::{AllocError, Global};

/// A second check: its held set, and what it says of the sources that are checked.
#[derive(Clone, Copy)]
pub struct Second<'a> {
    pub set: &'a [HeldSource],
    pub told: &'a [Diagnostic],
}

/// Returns whether two names, which may be missing, are the same.
fn is_same_name(name: &Option<String>, other: &Option<String>) -> bool
    ensures yes { IsTrue result → option_map string_bytes name.now ≡ option_map string_bytes other.now }
    ensures no { result ≡ false → ¬ (option_map string_bytes name.now ≡ option_map string_bytes other.now) }
{
    match name {
        None => other.is_none(),
        Some(name) => match other {
            None => false,
            Some(other) => name.as_str() == other.as_str(),
        },
    }
}

/// Returns whether a note says that the module of a diagnostic is skipped.
fn is_skip_of(note: &Diagnostic, diagnostic: &Diagnostic, number: usize) -> bool
    ensures yes { IsTrue result → IsSkipOf number diagnostic.now note.now }
    ensures no { result ≡ false → ¬ (IsSkipOf number diagnostic.now note.now) }
{
    if !is_at(note, number) {
        return false;
    }
    if !is_skip(note) {
        return false;
    }
    is_same_name(&note.module, &diagnostic.module)
}

/// Returns whether a note says that the module of a diagnostic is skipped.
fn is_of_skipped(said: &Said<'_>, number: usize, diagnostic: &Diagnostic) -> bool
    ensures yes { IsTrue result → IsOfSkipped (findings_of said.now) number diagnostic.now }
    ensures no { result ≡ false → ¬ (IsOfSkipped (findings_of said.now) number diagnostic.now) }
{
    'notes: for note in said.told {
        if is_skip_of(note, diagnostic, number) {
            return true;
        }
    }
    false
}

/// Returns whether a diagnostic of a second check is about a module of a source that the first check has missed.
fn is_missed(said: &Said<'_>, number: usize, diagnostic: &Diagnostic) -> bool
    ensures yes { IsTrue result → IsMissed (findings_of said.now) number diagnostic.now }
    ensures no { result ≡ false → ¬ (IsMissed (findings_of said.now) number diagnostic.now) }
{
    if !is_at(diagnostic, number) {
        return false;
    }
    if is_skip(diagnostic) {
        return false;
    }
    if !is_among(said.part, number) {
        return true;
    }
    is_of_skipped(said, number, diagnostic)
}

/// Appends a diagnostic if `chosen` holds.
fn add<'a>(
    found: &mut Vec<&'a Diagnostic>,
    diagnostic: &'a Diagnostic,
    chosen: bool,
) -> Result<(), AllocError>
    ensures yes { OnOk result (IsTrue chosen → map (λ d. d.now) found.new.items ≡ map (λ d. d.now) found.old.items ++ diagnostic.entry.now ∷ []) }
    ensures none { OnOk result (chosen ≡ false → found.new.items ≡ found.old.items) }
{
    if chosen {
        found.push(diagnostic)?;
    }
    Ok(())
}

/// Returns the diagnostics of a second check about missed modules of a source, in order.
fn missed_in<'a>(
    alloc: Global,
    said: &Said<'_>,
    told: &'a [Diagnostic],
    number: usize,
) -> Result<Vec<&'a Diagnostic>, AllocError>
    ensures { IfOk result (λ found. AreChosen (IsMissed (findings_of said.now) number) told.entry.now (map (λ d. d.now) found.items)) }
{
    let mut found = Vec::new(alloc);
    'diagnostics: for diagnostic in told {
        add(&mut found, diagnostic, is_missed(said, number, diagnostic))?;
    }
    Ok(found)
}

/// Returns the text of a source as it is now, if there is such a source.
fn text_at(held: &[HeldSource], number: usize) -> Option<&[u8]>
    ensures { option_map (λ t. t.now) result ≡ text_at held.now number }
{
    match held.get(number) {
        Some(source) => Some(source.text.as_slice()),
        None => None,
    }
}

/// Returns whether a source has its text of now in another set.
fn has_text_of_now(held: &[HeldSource], set: &[HeldSource], number: usize) -> bool
    ensures yes { IsTrue result → HasTextOfNow held.now set.now number }
    ensures no { result ≡ false → ¬ (HasTextOfNow held.now set.now number) }
{
    let Some(own) = text_at(held, number) else {
        return false;
    };
    let Some(other) = text_at(set, number) else {
        return false;
    };
    is_same(own, other)
}

/// Returns the diagnostics of a second check that are shown at a source, in order: those about modules that the first check has skipped or left out.
/// `said` is what the first check says. There are none if the second check was of an older text of the source.
///
/// # Errors
///
/// If memory runs out.
pub fn missed_at<'a>(
    alloc: Global,
    said: &Said<'_>,
    held: &[HeldSource],
    second: &Second<'a>,
    number: usize,
) -> Result<Vec<&'a Diagnostic>, AllocError>
    ensures { IfOk result (λ found. AreMissedAt (findings_of said.now) held.now second.entry.now.set.now second.entry.now.told.now number (map (λ d. d.now) found.items)) }
{
    if !has_text_of_now(held, second.set, number) {
        return Ok(Vec::new(alloc));
    }
    Ok(missed_in(alloc, said, second.told, number)?)
}
