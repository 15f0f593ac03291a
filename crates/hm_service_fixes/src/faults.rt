//! Whether the faults of a source after a change are no new ones.
ghost use Rattle.std.specs.Prelude.{◌≡◌, ◌<◌, ◌≤◌, Contains, IsTrue, false, length};
ghost use Rattle.hm_names.specs.declared.faults.Fault.{Fault as FaultOf};
ghost use Rattle.hm_service_fixes.specs.Fixes.{IsKnown, IsSameFault, IsStill};
ghost use Rattle.hm_service_fixes.specs.Steps.{AreAllFine, HasBetween, IsExplainedAt, IsExplainedBy, IsExplainedIn, IsFine, IsFineAt, IsKnownFrom};
ghost use Rattle.hm_service_fixes.specs.Views.{judged_of};

use crate::changes::SourceChange;
use crate::judged::{Judged, Settled, count_of, is_in, is_named, name_of, settled_at};
use crate::moves::{Replacement, is_moved};
use crate::phases::is_earlier;
use hm_names::Fault;
use hm_verdicts::kind_word;

/// A fault of a module with this name, and its index among the faults of the module.
#[derive(Clone, Copy)]
struct Later<'a> {
    name: &'a str,
    fault: &'a Fault,
    index: usize,
}

/// Returns whether a fault is another one after the change.
fn is_same_fault(replaced: Replacement, fault: &Fault, later: &Fault) -> bool
    ensures yes { IsTrue result → IsSameFault replaced fault.now later.now }
    ensures no { result ≡ false → ¬ (IsSameFault replaced fault.now later.now) }
{
    if later.kind != fault.kind {
        return false;
    }
    if later.name.as_str() != fault.name.as_str() {
        return false;
    }
    is_moved(replaced, fault.place, later.place)
}

/// Returns whether a fault is the one that is to go.
fn is_still(change: &SourceChange<'_>, later: &Fault) -> bool
    ensures yes { IsTrue result → IsStill change.now later.now }
    ensures no { result ≡ false → ¬ (IsStill change.now later.now) }
{
    if kind_word(later.kind) != change.kind {
        return false;
    }
    is_moved(change.replaced, change.place, later.place)
}

/// Returns whether a fault is another one after the change, or that one is of a later phase.
fn is_explained(replaced: Replacement, fault: &Fault, later: &Fault) -> bool
    ensures yes { IsTrue result → IsExplainedBy replaced later.now fault.now }
    ensures no { result ≡ false → ¬ (IsExplainedBy replaced later.now fault.now) }
{
    if is_same_fault(replaced, fault, later) {
        return true;
    }
    is_earlier(fault.kind, later.kind)
}

/// Returns whether one of the faults from an index up to another explains a fault.
fn is_explained_between(
    found: &[Fault],
    replaced: Replacement,
    later: &Fault,
    from: usize,
    to: usize,
) -> bool
    requires { to ≤ length found.now }
    ensures yes { IsTrue result → HasBetween (IsExplainedAt replaced later.now found.now) from to }
    ensures no { result ≡ false → ¬ (HasBetween (IsExplainedAt replaced later.now found.now) from to) }
{
    'faults: for index in from..to {
        if is_explained(replaced, &found[index], later) {
            return true;
        }
    }
    false
}

/// Returns whether one of these faults explains a fault. The search begins at its index: mostly a fault is near that in both lists.
fn is_explained_in(found: &[Fault], replaced: Replacement, later: &Later<'_>) -> bool
    ensures yes { IsTrue result → IsExplainedIn replaced later.now.fault.now found.now }
    ensures no { result ≡ false → ¬ (IsExplainedIn replaced later.now.fault.now found.now) }
{
    let count = found.len();
    if is_explained_between(found, replaced, later.fault, later.index, count) {
        return true;
    }
    is_explained_between(found, replaced, later.fault, 0, count)
}

/// Returns whether the verdict of a module before the change explains a fault.
fn is_known_by(
    before: &Judged<'_>,
    change: &SourceChange<'_>,
    later: &Later<'_>,
    number: usize,
) -> bool
    requires { number < length (judged_of before.now).set.modules }
    ensures yes { IsTrue result → IsKnownFrom (judged_of before.now) change.now later.now.name.now later.now.fault.now number }
    ensures no { result ≡ false → ¬ (IsKnownFrom (judged_of before.now) change.now later.now.name.now later.now.fault.now number) }
{
    if !is_named(before, number, later.name) {
        return false;
    }
    match settled_at(before, number) {
        Settled::Published(_) => false,
        Settled::Failed(found) => is_explained_in(found.as_slice(), change.replaced, later),
        Settled::Skipped => true,
    }
}

/// Returns whether one of the modules from a number up to another explains a fault.
fn is_known_between(
    before: &Judged<'_>,
    change: &SourceChange<'_>,
    later: &Later<'_>,
    from: usize,
    to: usize,
) -> bool
    requires { to ≤ length (judged_of before.now).set.modules }
    ensures yes { IsTrue result → HasBetween (IsKnownFrom (judged_of before.now) change.now later.now.name.now later.now.fault.now) from to }
    ensures no { result ≡ false → ¬ (HasBetween (IsKnownFrom (judged_of before.now) change.now later.now.name.now later.now.fault.now) from to) }
{
    'modules: for number in from..to {
        if is_known_by(before, change, later, number) {
            return true;
        }
    }
    false
}

/// Returns whether a fault is no new one. `near` is the number of its module after the change.
fn is_known(before: &Judged<'_>, change: &SourceChange<'_>, later: &Later<'_>, near: usize) -> bool
    ensures yes { IsTrue result → IsKnown (judged_of before.now) change.now later.now.name.now later.now.fault.now }
    ensures no { result ≡ false → ¬ (IsKnown (judged_of before.now) change.now later.now.name.now later.now.fault.now) }
{
    if !before.is_checked {
        return true;
    }
    let count = count_of(before);
    if is_known_between(before, change, later, near, count) {
        return true;
    }
    is_known_between(before, change, later, 0, count)
}

/// Returns whether a fault isn't the one that is to go, and is no new one.
fn is_fine(before: &Judged<'_>, change: &SourceChange<'_>, later: &Later<'_>, near: usize) -> bool
    ensures yes { IsTrue result → IsFine (judged_of before.now) change.now later.now.name.now later.now.fault.now }
    ensures no { result ≡ false → ¬ (IsFine (judged_of before.now) change.now later.now.name.now later.now.fault.now) }
{
    if is_still(change, later.fault) {
        return false;
    }
    is_known(before, change, later, near)
}

/// Returns whether all of these faults of a module are fine.
fn are_fine(
    before: &Judged<'_>,
    change: &SourceChange<'_>,
    name: &str,
    found: &[Fault],
    near: usize,
) -> bool
    ensures yes { IsTrue result → (g : FaultOf) → Contains found.now g → IsFine (judged_of before.now) change.now name.now g }
    ensures no { result ≡ false → ¬ ((g : FaultOf) → Contains found.now g → IsFine (judged_of before.now) change.now name.now g) }
{
    'faults: for index in 0..found.len() {
        let later = Later {
            name,
            fault: &found[index],
            index,
        };
        if !is_fine(before, change, &later, near) {
            return false;
        }
    }
    true
}

/// Returns whether all faults of a module are fine, if it is in the source that is changed.
fn is_fine_at(
    before: &Judged<'_>,
    after: &Judged<'_>,
    change: &SourceChange<'_>,
    number: usize,
) -> bool
    requires { number < length (judged_of after.now).set.modules }
    ensures yes { IsTrue result → IsFineAt (judged_of before.now) (judged_of after.now) change.now number }
    ensures no { result ≡ false → ¬ (IsFineAt (judged_of before.now) (judged_of after.now) change.now number) }
{
    if !is_in(after, number, change.source) {
        return true;
    }
    match settled_at(after, number) {
        Settled::Published(_) => true,
        Settled::Failed(found) => {
            let name = name_of(after, number);
            are_fine(before, change, name, found.as_slice(), number)
        }
        Settled::Skipped => true,
    }
}

/// Returns whether all faults of the source are fine after the change.
pub(crate) fn are_all_fine(
    before: &Judged<'_>,
    after: &Judged<'_>,
    change: &SourceChange<'_>,
) -> bool
    ensures yes { IsTrue result → AreAllFine (judged_of before.now) (judged_of after.now) change.now }
    ensures no { result ≡ false → ¬ (AreAllFine (judged_of before.now) (judged_of after.now) change.now) }
{
    'modules: for number in 0..count_of(after) {
        if !is_fine_at(before, after, change, number) {
            return false;
        }
    }
    true
}
