//! Computes from the statuses which module is ready, and the reply to a claim.
ghost use Rattle.std.specs.Prelude.{◌≡◌, ◌<◌, [], ◌∷◌, cond, false, length, slice_index_or};
ghost use Rattle.std.specs.List.{list_all, list_any};
ghost use Rattle.hm_store.specs.Reaching.{below, dependents_in};
ghost use Rattle.hm_store.specs.Objects.{is_claimed, is_published, is_ready, least_below, reply_of, skip_all as all_skipped, status_at};

use crate::object::{Claimed, Status};
use hm_graph::{Dependents, Plan};

/// Returns the status of a module, or `Skipped` for a number that no module has.
pub(super) fn status_at(statuses: &[Status], number: usize) -> Status
    ensures { result ≡ status_at statuses.now number }
{
    statuses.get(number).copied().unwrap_or(Status::Skipped)
}

/// Returns whether all modules with these numbers are published.
fn are_all_published(statuses: &[Status], numbers: &[usize]) -> bool
    ensures { result ≡ list_all (λ k. is_published (status_at statuses.now k)) numbers.now }
{
    numbers
        .iter()
        .all(|number| status_at(statuses, *number).is_published())
}

/// Returns whether a module waits and all its imports are published.
fn is_ready_at(plan: &Plan, statuses: &[Status], number: usize) -> bool
    requires { number < length plan.now }
    ensures { result ≡ is_ready (record { imports = plan.now; dependents = [] }) statuses.now number }
{
    status_at(statuses, number).is_waiting() && are_all_published(statuses, plan.imports(number))
}

/// Returns whether any module is claimed.
fn is_any_claimed(statuses: &[Status]) -> bool
    ensures { result ≡ list_any is_claimed statuses.now }
{
    statuses.iter().any(|status| status.is_claimed())
}

/// Returns the least module that is ready.
#[tactic(auto, using(crate::proofs::Replies::least_is, crate::proofs::Replies::none_more))]
fn first_ready(plan: &Plan, statuses: &[Status]) -> Option<usize>
    requires { length statuses.now ≡ length plan.now }
    ensures { result ≡ least_below (is_ready (record { imports = plan.now; dependents = [] }) statuses.now) (length statuses.now) }
{
    for number in 0..statuses.len() {
        if is_ready_at(plan, statuses, number) {
            return Some(number);
        }
    }
    None
}

/// Returns the reply to a claim. It doesn't depend on the dependents of modules.
pub(super) fn reply_at(plan: &Plan, statuses: &[Status], stopped: bool) -> Claimed
    requires { length statuses.now ≡ length plan.now }
    ensures { result ≡ reply_of (record { imports = plan.now; dependents = [] }) (record { statuses = statuses.now; stopped = stopped }) }
{
    if stopped {
        return Claimed::Done;
    }
    match first_ready(plan, statuses) {
        Some(number) => Claimed::Job(number),
        None if is_any_claimed(statuses) => Claimed::Later,
        None => Claimed::Done,
    }
}

/// Skips the waiting modules that import a module, directly or not. Skips none for a number that no module has.
pub(super) fn skip_dependents(
    plan: &Plan,
    search: &mut Dependents,
    statuses: &mut [Status],
    number: usize,
)
    requires { length search.old ≡ length plan.now }
    ensures len { length search.new ≡ length search.old }
    ensures skipped { statuses.new ≡ all_skipped statuses.old (slice_index_or (dependents_in plan.now) number []) }
{
    if number < plan.len() {
        search.find(plan, number);
        skip_marked(statuses, search.marks());
    }
}

/// Skips the marked modules that wait.
fn skip_marked(statuses: &mut [Status], marks: &[bool])
    ensures { statuses.new ≡ all_skipped statuses.old (below (λ k. slice_index_or marks.now k false) (length marks.now)) }
{
    for number in 0..marks.len() {
        skip_if(statuses, number, marks[number]);
    }
}

/// Skips a module if it is marked and waits.
fn skip_if(statuses: &mut [Status], number: usize, marked: bool)
    ensures { statuses.new ≡ all_skipped statuses.old (cond marked (number ∷ []) []) }
{
    if marked && status_at(statuses, number).is_waiting() {
        statuses[number] = Status::Skipped;
    }
}
