//! The diagnostics of a source, and those that overlap a range.
ghost use Rattle.std.specs.Prelude.{◌≡◌, ◌↔◌, IfOk, IsTrue, OnOk, [], ◌∷◌, ◌++◌, false, map};
ghost use Rattle.hm_service_messages.specs.Choices.{AreChosen, IsBefore, Overlaps};

use crate::diagnostic::Diagnostic;
use hm_messages_json::Position;
use std::alloc::{AllocError, Global};

/// Appends a diagnostic if `chosen` holds.
fn add<'a>(
    found: &mut Vec<&'a Diagnostic>,
    diagnostic: &'a Diagnostic,
    chosen: bool,
) -> Result<(), AllocError>
    ensures yes { OnOk result (IsTrue chosen → map (λ d. d.now) found.new.items ≡ map (λ d. d.now) found.old.items ++ diagnostic.entry.now ∷ []) }
    ensures none { OnOk result (chosen ≡ false → found.new.items ≡ found.old.items) }
{
    if chosen {
        found.push(diagnostic)?;
    }
    Ok(())
}

/// Returns the diagnostics of the source with this number, in order.
pub fn diagnostics_in<'a>(
    alloc: Global,
    diagnostics: &'a [Diagnostic],
    source: usize,
) -> Result<Vec<&'a Diagnostic>, AllocError>
    ensures { IfOk result (λ found. AreChosen (λ d. d.source ≡ source) diagnostics.entry.now (map (λ d. d.now) found.items)) }
{
    let mut found = Vec::new(alloc);
    'diagnostics: for diagnostic in diagnostics {
        add(&mut found, diagnostic, diagnostic.source == source)?;
    }
    Ok(found)
}

/// Returns whether a position comes before another one.
fn is_before(one: Position, other: Position) -> bool
    ensures { IsTrue result ↔ IsBefore one other }
{
    if one.line < other.line {
        return true;
    }
    one.line == other.line && one.columns.bytes < other.columns.bytes
}

/// Returns whether a diagnostic has a place in common with a range.
pub fn overlaps(diagnostic: &Diagnostic, start: Position, end: Position) -> bool
    ensures { IsTrue result ↔ Overlaps start end diagnostic.now }
{
    if is_before(diagnostic.end, start) {
        return false;
    }
    !is_before(end, diagnostic.start)
}
