//! Trials of changes.
ghost use Rattle.std.specs.Prelude.{◌≡◌, ◌<◌, ◌∷◌, ◌++◌, [], IfNone, IfOk, IfSome, IsTrue, OnOk, false, length, map};
ghost use Rattle.hm_service_candidates.specs.Edited.{place_of as place_at};
ghost use Rattle.hm_service_candidates.specs.Ranges.{tried_of};
ghost use Rattle.hm_service_offers.specs.Offers.{AreFixes, IsChangeFor, IsLong, IsTriedAs};

use crate::changed::changed_set;
use crate::judging::{held_text, is_shown};
use hm_lex::Place;
use hm_service::check;
use hm_service_candidates::{Candidate, EditedText, edited_text};
use hm_service_fixes::{Replacement, SourceChange};
use hm_service_messages::Diagnostic;
use hm_service_places::{CheckedSet, ServiceFault};
use std::alloc::{AllocError, Global};
use std::sync::Wait;
use std::thread::Threads;

/// The largest number of 32 bits.
const MOST: usize = 4_294_967_295;

/// Returns the place of an error, or `None` if a number of its position has more than 32 bits.
fn place_of(fault: &Diagnostic) -> Option<Place>
    ensures some { IfSome result (λ place. place ≡ place_at fault.now.start) }
    ensures none { IfNone result (IsLong fault.now) }
{
    let position = fault.start;
    if position.line > MOST {
        return None;
    }
    if position.columns.bytes > MOST {
        return None;
    }
    Some(Place {
        line: position.line as u32,
        column: position.columns.bytes as u32,
    })
}

/// Returns the change that a text with edits is, for the error that a message at a place reports.
fn change_for<'a>(
    source: usize,
    fault: &'a Diagnostic,
    place: Place,
    made: &EditedText,
) -> SourceChange<'a>
    requires { place ≡ place_at fault.now.start }
    ensures { IsChangeFor source fault.entry.now made.now result }
{
    SourceChange {
        source,
        kind: fault.kind.as_str(),
        place,
        replaced: Replacement {
            start: made.start,
            end: made.end,
            new_end: made.new_end,
        },
    }
}

/// Returns whether a check of the set that a change makes shows that it is a fix.
fn is_fix<T: Threads + Wait + Sync>(
    rt: &T,
    alloc: Global,
    set: &CheckedSet<'_>,
    source: usize,
    candidate: &Candidate<'_>,
) -> Result<bool, ServiceFault>
    requires { source < length set.now.held.now }
    ensures { IfOk result (IsTriedAs set.now source (tried_of candidate.now)) }
{
    let text = held_text(set.held, source);
    let Some(made) = edited_text(alloc, text, candidate.change.edits.as_slice())? else {
        return Ok(false);
    };
    let Some(place) = place_of(candidate.fault) else {
        return Ok(false);
    };
    let held = changed_set(rt, alloc, set.held, source, made.text.as_slice())?;
    let checked = check(rt, alloc, held.as_slice(), &[set.checked], set.workers)?;
    let change = change_for(source, candidate.fault, place, &made);
    Ok(is_shown(alloc, set, held.as_slice(), &checked, &change)?)
}

/// Appends a change if it is a fix.
fn add<'a>(
    found: &mut Vec<Candidate<'a>>,
    candidate: Candidate<'a>,
    is_fix: bool,
) -> Result<(), AllocError>
    ensures yes { OnOk result (IsTrue is_fix → map tried_of found.new.items ≡ map tried_of found.old.items ++ tried_of candidate.entry ∷ []) }
    ensures none { OnOk result (is_fix ≡ false → found.new.items ≡ found.old.items) }
{
    if is_fix {
        found.push(candidate)?;
    }
    Ok(())
}

/// Returns those of some changes that are fixes, in order.
pub(crate) fn fixes_among<'a, T: Threads + Wait + Sync>(
    rt: &T,
    alloc: Global,
    set: &CheckedSet<'_>,
    source: usize,
    candidates: &[Candidate<'a>],
) -> Result<Vec<Candidate<'a>>, ServiceFault>
    requires { source < length set.now.held.now }
    ensures { IfOk result (λ found. AreFixes set.now source (map tried_of candidates.now) (map tried_of found.items)) }
{
    let mut found = Vec::new(alloc);
    'candidates: for candidate in candidates {
        let is_fix = is_fix(rt, alloc, set, source, candidate)?;
        add(&mut found, *candidate, is_fix)?;
    }
    Ok(found)
}
