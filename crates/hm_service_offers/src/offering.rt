//! The fixes for a range of a source.
ghost use Rattle.std.specs.Prelude.{◌≡◌, ◌<◌, ◌++◌, IfOk, OnOk, length, map, slice_get};
ghost use Rattle.hm_service_candidates.specs.Ranges.{tried_of};
ghost use Rattle.hm_service_offers.specs.Offers.{AreFixesAt, AreFixesIn};

use crate::trying::fixes_among;
use hm_service_candidates::{Candidate, SourceRange, candidates_in};
use hm_service_messages::Diagnostic;
use hm_service_places::{CheckedSet, ServiceFault, in_run};
use std::alloc::{AllocError, Global};
use std::sync::Wait;
use std::thread::Threads;

/// Returns the fixes for a range that the messages of a run say.
fn fixes_in<'a, T: Threads + Wait + Sync>(
    rt: &T,
    alloc: Global,
    set: &CheckedSet<'_>,
    told: &'a [Diagnostic],
    range: &SourceRange,
) -> Result<Vec<Candidate<'a>>, ServiceFault>
    requires { range.now.source < length set.now.held.now }
    ensures { IfOk result (λ found. AreFixesIn set.now range.now told.entry.now (map tried_of found.items)) }
{
    let candidates = candidates_in(alloc, told, range)?;
    fixes_among(rt, alloc, set, range.source, candidates.as_slice())
}

/// Appends fixes, in order.
fn add_all<'a>(found: &mut Vec<Candidate<'a>>, more: &[Candidate<'a>]) -> Result<(), AllocError>
    ensures { OnOk result (map tried_of found.new.items ≡ map tried_of found.old.items ++ map tried_of more.now) }
{
    'more: for candidate in more {
        found.push(*candidate)?;
    }
    Ok(())
}

// Why: docs/DECISIONS.md, "Fixes of a held set".
/// Returns the fixes for a range of a source, in order. A change that the messages of an error say is tried if one of these messages has a place in
/// common with the range. It is a fix if the check of the set that it makes shows so. Of the messages of each run, the first 8 changes are tried.
///
/// # Errors
///
/// - `Workers` if the number of workers is 0 or above 16, and a change is tried.
/// - `Memory` if memory ran out, and `NoWorker` if no thread could start.
/// - `Mixed` if the workers contradict the store, or two results each other.
pub fn fixes_of<'a, T: Threads + Wait + Sync>(
    rt: &T,
    alloc: Global,
    set: &CheckedSet<'a>,
    range: &SourceRange,
) -> Result<Vec<Candidate<'a>>, ServiceFault>
    ensures { IfOk result (λ found. AreFixesAt (slice_get set.now.held.now range.now.source) set.now range.now (map tried_of found.items)) }
{
    let Some(own) = set.held.get(range.source) else {
        return Ok(Vec::new(alloc));
    };
    let checked = set.checked;
    if !own.is_read {
        return fixes_in(rt, alloc, set, in_run(&checked.unread), range);
    }
    let mut found = fixes_in(rt, alloc, set, in_run(&checked.refused), range)?;
    let told = checked.told.diagnostics.as_slice();
    let more = fixes_in(rt, alloc, set, told, range)?;
    add_all(&mut found, more.as_slice())?;
    Ok(found)
}
