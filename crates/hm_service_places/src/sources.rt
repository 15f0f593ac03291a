//! The diagnostics of a source of a held set.
ghost use Rattle.std.specs.Prelude.{◌≡◌, ◌++◌, IfOk, OnOk, map, slice_get};
ghost use Rattle.hm_service_places.specs.Diagnostics.{AreDiagnosticsAt, AreFoundIn, in_run};

use crate::checked::Checked;
use hm_service_messages::{Diagnostic, Told, diagnostics_in};
use hm_service_sources::HeldSource;
use std::alloc::{AllocError, Global};

/// Returns the diagnostics of a run, if there was one.
pub fn in_run<'a>(run: &'a Option<Told>) -> &'a [Diagnostic]
    ensures { result.now ≡ in_run run.entry.now }
{
    match run {
        Some(told) => told.diagnostics.as_slice(),
        None => &[],
    }
}

/// Appends diagnostics, in order.
fn add_all<'a>(found: &mut Vec<&'a Diagnostic>, more: &[&'a Diagnostic]) -> Result<(), AllocError>
    ensures { OnOk result (found.new.items ≡ found.old.items ++ more.now) }
{
    'more: for diagnostic in more {
        found.push(*diagnostic)?;
    }
    Ok(())
}

/// Returns the diagnostics of a source that can be read: why it is left out, and then those of its check.
fn found_in<'a>(
    alloc: Global,
    checked: &'a Checked,
    source: usize,
) -> Result<Vec<&'a Diagnostic>, AllocError>
    ensures { IfOk result (λ found. AreFoundIn checked.entry.now source (map (λ d. d.now) found.items)) }
{
    let mut found = diagnostics_in(alloc, in_run(&checked.refused), source)?;
    let more = diagnostics_in(alloc, checked.told.diagnostics.as_slice(), source)?;
    add_all(&mut found, more.as_slice())?;
    Ok(found)
}

/// Returns the diagnostics of a source, in order. For one that can't be read this is its first fault. For another one it is why it is left out, and
/// what its check found.
pub fn diagnostics_of<'a>(
    alloc: Global,
    held: &[HeldSource],
    checked: &'a Checked,
    source: usize,
) -> Result<Vec<&'a Diagnostic>, AllocError>
    ensures { IfOk result (λ found. AreDiagnosticsAt (slice_get held.now source) checked.entry.now source (map (λ d. d.now) found.items)) }
{
    let Some(own) = held.get(source) else {
        return Ok(Vec::new(alloc));
    };
    if !own.is_read {
        return Ok(diagnostics_in(alloc, in_run(&checked.unread), source)?);
    }
    Ok(found_in(alloc, checked, source)?)
}
