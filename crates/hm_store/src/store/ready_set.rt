//! The number of unpublished imports of each module, and the set of ready modules, the least first.
ghost use Rattle.std.specs.Prelude.{◌≡◌, ◌==◌, ◌&&◌, ◌+◌, ◌-◌, ◌<◌, ◌≤◌, ℕ, All, IfNone, IfOk, IfSome, [], cond, count_by, length, map, nat_lt, slice_index_or, slice_set};
ghost use Rattle.std.specs.BinaryHeap.{HeapUnchanged, IsHeap, KeepsHeap, heap_capacity, heap_items, heap_len};
ghost use Rattle.std.specs.List.Sorted.{IsPermutation};
ghost use Rattle.std.specs.Ordering.{nat_cmp};
ghost use Rattle.hm_store.specs.declared.object.Claimed.TheVariants.{Done, Later};
ghost use Rattle.hm_store.specs.Readiness.{HasRoom, IsHeapOf, count_at, is_free, times};

use super::readiness::status_at;
use crate::object::{Claimed, Status};
use hm_graph::Plan;
use std::alloc::{AllocError, Global};
use std::cmp::Reverse;
use std::collections::BinaryHeap;

/// Returns the number of imports of each module.
pub(super) fn import_counts(alloc: Global, plan: &Plan) -> Result<Vec<usize>, AllocError>
    ensures { IfOk result (λ counts. counts.items ≡ map length plan.now) }
{
    let mut counts = Vec::new(alloc);
    for number in 0..plan.len() {
        counts.push(plan.imports(number).len())?;
    }
    Ok(counts)
}

/// Adds a number. The heap must have room.
fn put(ready: &mut BinaryHeap<Reverse<usize>>, number: usize)
    requires { heap_len ready.old < heap_capacity ready.old }
    ensures len { heap_len ready.new ≡ heap_len ready.old + 1 }
    ensures capacity { heap_capacity ready.old ≤ heap_capacity ready.new }
    ensures order { IsHeap (λ x y. nat_cmp y.0 x.0) (heap_items ready.old) → IsHeap (λ x y. nat_cmp y.0 x.0) (heap_items ready.new) }
    ensures each { (k : ℕ) → times (heap_items ready.new) k ≡ times (heap_items ready.old) k + cond (number == k) 1 0 }
{
    match ready.push(Reverse(number)) {
        Ok(()) => {}
        Err(_) => unreachable!(),
    }
}

/// Removes the least number.
pub(super) fn take_least(ready: &mut BinaryHeap<Reverse<usize>>) -> Option<usize>
    requires { IsHeap (λ x y. nat_cmp y.0 x.0) (heap_items ready.old) }
    ensures none { IfNone result ((heap_items ready.old ≡ []) × HeapUnchanged ready.old ready.new) }
    ensures order { IsHeap (λ x y. nat_cmp y.0 x.0) (heap_items ready.new) }
    ensures len { IfSome result (λ m. heap_len ready.new + 1 ≡ heap_len ready.old) }
    ensures capacity { heap_capacity ready.new ≡ heap_capacity ready.old }
    ensures least { IfSome result (λ m. All (λ r. m ≤ r.0) (heap_items ready.old)) }
    ensures each { IfSome result (λ m. (k : ℕ) → times (heap_items ready.old) k ≡ times (heap_items ready.new) k + cond (m == k) 1 0) }
{
    match ready.pop() {
        Some(Reverse(number)) => Some(number),
        None => None,
    }
}

/// Returns the reply to a claim if no module is ready.
pub(super) fn reply_without_job(claimed: usize) -> Claimed
    ensures { result ≡ cond (nat_lt 0 claimed) Later Done }
{
    if claimed > 0 {
        Claimed::Later
    } else {
        Claimed::Done
    }
}

/// Counts one import of a module as published. The module becomes ready if it waits and this was its last one.
fn close_import(
    counts: &mut [usize],
    statuses: &[Status],
    ready: &mut BinaryHeap<Reverse<usize>>,
    number: usize,
)
    requires count { 0 < count_at counts.old number }
    requires heap { IsHeapOf (is_free statuses.now counts.old) ready.old }
    requires room { HasRoom counts.old ready.old }
    ensures counts { counts.new ≡ slice_set counts.old number (count_at counts.old number - 1) }
    ensures heap { IsHeapOf (is_free statuses.now counts.new) ready.new }
    ensures room { HasRoom counts.new ready.new }
{
    counts[number] -= 1;
    if counts[number] > 0 {
        return;
    }
    if status_at(statuses, number).is_waiting() {
        put(ready, number);
    }
}

/// Counts one import of each of these modules as published.
pub(super) fn close_imports(
    counts: &mut [usize],
    statuses: &[Status],
    ready: &mut BinaryHeap<Reverse<usize>>,
    importers: &[usize],
)
    requires counts { (k : ℕ) → count_by (λ j. j == k) importers.now ≤ count_at counts.old k }
    requires heap { IsHeapOf (is_free statuses.now counts.old) ready.old }
    requires room { HasRoom counts.old ready.old }
    ensures len { length counts.new ≡ length counts.old }
    ensures counts { (k : ℕ) → count_at counts.new k + count_by (λ j. j == k) importers.now ≡ count_at counts.old k }
    ensures heap { IsHeapOf (is_free statuses.now counts.new) ready.new }
    ensures room { HasRoom counts.new ready.new }
{
    for importer in importers {
        close_import(counts, statuses, ready, *importer);
    }
}

/// Returns the modules without imports, in a heap with room for all modules.
pub(super) fn without_imports(
    alloc: Global,
    counts: &[usize],
) -> Result<BinaryHeap<Reverse<usize>>, AllocError>
    ensures heap { IfOk result (IsHeapOf (λ k. slice_index_or counts.now k 1 == 0)) }
    ensures room { IfOk result (HasRoom counts.now) }
{
    let mut ready = BinaryHeap::with_capacity(alloc, counts.len())?;
    for number in 0..counts.len() {
        put_if_none(&mut ready, number, counts[number]);
    }
    Ok(ready)
}

/// Adds a number if its count is 0.
fn put_if_none(ready: &mut BinaryHeap<Reverse<usize>>, number: usize, count: usize)
    requires { heap_len ready.old < heap_capacity ready.old }
    ensures len { heap_len ready.new ≡ heap_len ready.old + cond (count == 0) 1 0 }
    ensures capacity { heap_capacity ready.old ≤ heap_capacity ready.new }
    ensures order { IsHeap (λ x y. nat_cmp y.0 x.0) (heap_items ready.old) → IsHeap (λ x y. nat_cmp y.0 x.0) (heap_items ready.new) }
    ensures each { (k : ℕ) → times (heap_items ready.new) k ≡ times (heap_items ready.old) k + cond ((count == 0) && (number == k)) 1 0 }
{
    if count == 0 {
        put(ready, number);
    }
}
