//! Whether modules that were accepted are still so.
ghost use Rattle.std.specs.Prelude.{◌≡◌, ◌<◌, ◌≤◌, IsTrue, List, ℕ, false, length};
ghost use Rattle.hm_service_fixes.specs.Judged.{HasAccepted};
ghost use Rattle.hm_service_fixes.specs.Steps.{AreKept, HasBetween, IsAcceptedAs, IsKeptAt};
ghost use Rattle.hm_service_fixes.specs.Views.{judged_of};

use crate::judged::{Judged, count_of, is_accepted, is_accepted_as, name_of};

/// Returns whether one of the modules from a number up to another has a name and is accepted.
fn is_accepted_between(judged: &Judged<'_>, name: &str, from: usize, to: usize) -> bool
    requires { to ≤ length (judged_of judged.now).set.modules }
    ensures yes { IsTrue result → HasBetween (IsAcceptedAs (judged_of judged.now) name.now) from to }
    ensures no { result ≡ false → ¬ (HasBetween (IsAcceptedAs (judged_of judged.now) name.now) from to) }
{
    'modules: for number in from..to {
        if is_accepted_as(judged, number, name) {
            return true;
        }
    }
    false
}

/// Returns whether a module with a name is accepted. The search begins with a number: mostly a module has the same number in both sets.
fn has_accepted(judged: &Judged<'_>, name: &str, from: usize) -> bool
    ensures yes { IsTrue result → HasAccepted (judged_of judged.now) name.now }
    ensures no { result ≡ false → ¬ (HasAccepted (judged_of judged.now) name.now) }
{
    let count = count_of(judged);
    if is_accepted_between(judged, name, from, count) {
        return true;
    }
    is_accepted_between(judged, name, 0, from.min(count))
}

/// Returns whether a module isn't accepted, or one with its name is accepted after the change.
fn is_kept(before: &Judged<'_>, after: &Judged<'_>, number: usize) -> bool
    requires { number < length (judged_of before.now).set.modules }
    ensures yes { IsTrue result → IsKeptAt (judged_of before.now) (judged_of after.now) number }
    ensures no { result ≡ false → ¬ (IsKeptAt (judged_of before.now) (judged_of after.now) number) }
{
    if !is_accepted(before, number) {
        return true;
    }
    has_accepted(after, name_of(before, number), number)
}

/// Returns whether all modules that were accepted are accepted after the change, if the source was checked before.
pub(crate) fn are_kept(before: &Judged<'_>, after: &Judged<'_>) -> bool
    ensures yes { IsTrue result → AreKept (judged_of before.now) (judged_of after.now) }
    ensures no { result ≡ false → ¬ (AreKept (judged_of before.now) (judged_of after.now)) }
{
    if !before.is_checked {
        return true;
    }
    'modules: for number in 0..count_of(before) {
        if !is_kept(before, after, number) {
            return false;
        }
    }
    true
}
