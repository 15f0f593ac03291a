//! Whether a build finished.
ghost use Rattle.std.specs.Prelude.{◌≡◌, ◌↔◌, All, IfOk, IsTrue, true, false};
ghost use Rattle.hm_store.specs.Agreement.{Agree};
ghost use Rattle.hm_store.specs.Builds.{IsAllSettled, state_of};
ghost use Rattle.hm_build_reports.specs.FinishedBuilds.{AreNumbered, HasEnded};
ghost use Rattle.hm_build_reports.specs.Rounds.{IsInRounds};

use crate::rounds::are_in_rounds;
use hm_store::{Record, Store};
use std::alloc::{AllocError, Global};

/// Returns whether each module is settled.
fn is_all_settled(store: &Store) -> bool
    ensures { IsTrue result ↔ IsAllSettled store.now }
{
    for number in 0..store.modules().len() {
        if !store.status(number).is_settled() {
            return false;
        }
    }
    true
}

/// Returns whether there is a record for each worker, in the order of their numbers.
fn are_numbered(records: &[Record], workers: usize) -> bool
    ensures { IsTrue result ↔ AreNumbered workers records.now }
{
    for (number, record) in records.iter().enumerate() {
        if record.worker != number {
            return false;
        }
    }
    records.len() == workers
}

// Why: docs/DECISIONS.md, "has_ended", "The audit".
/// Returns whether a build with this many workers finished: its store wasn't stopped, each module is settled, and the workers' records are
/// numbered, agree with the journal and are in rounds.
pub fn has_ended(
    alloc: Global,
    store: &Store,
    records: &[Record],
    workers: usize,
) -> Result<bool, AllocError>
    ensures running { IfOk result (λ is. is ≡ true → (state_of store.now).stopped ≡ false) }
    ensures settled { IfOk result (λ is. is ≡ true → IsAllSettled store.now) }
    ensures numbered { IfOk result (λ is. is ≡ true → AreNumbered workers records.now) }
    ensures rounds { IfOk result (λ is. is ≡ true → All (IsInRounds store.now.given.imports) records.now) }
    ensures agree { IfOk result (λ is. is ≡ true → Agree store.now records.now) }
    // It is false only if one of these isn't so.
    ensures only { IfOk result (λ is. HasEnded workers store.now records.now → is ≡ true) }
{
    if store.is_stopped() {
        return Ok(false);
    }
    if !is_all_settled(store) {
        return Ok(false);
    }
    if !are_numbered(records, workers) {
        return Ok(false);
    }
    if !are_in_rounds(store.plan(), records) {
        return Ok(false);
    }
    if !store.audit(alloc, records)? {
        return Ok(false);
    }
    Ok(true)
}
