//! Whether modules that are skipped after a change were so before.
ghost use Rattle.std.specs.Prelude.{◌≡◌, ◌<◌, ◌≤◌, IsTrue, List, ℕ, false, length};
ghost use Rattle.hm_service_fixes.specs.Fixes.{IsSkipKnown};
ghost use Rattle.hm_service_fixes.specs.Judged.{IsSkippedAs};
ghost use Rattle.hm_service_fixes.specs.Steps.{AreSkipsKnown, HasBetween, IsSkipFineAt};
ghost use Rattle.hm_service_fixes.specs.Views.{judged_of};
ghost use Rattle.hm_verdicts.specs.Verdicts.{Skipped};

use crate::judged::{Judged, Settled, count_of, is_in, is_named, name_of, settled_at};

/// Returns whether a module is skipped.
fn is_skipped(judged: &Judged<'_>, number: usize) -> bool
    requires { number < length (judged_of judged.now).set.modules }
    ensures yes { IsTrue result → (judged_of judged.now).status number ≡ Skipped }
    ensures no { result ≡ false → ¬ ((judged_of judged.now).status number ≡ Skipped) }
{
    match settled_at(judged, number) {
        Settled::Published(_) => false,
        Settled::Failed(_) => false,
        Settled::Skipped => true,
    }
}

/// Returns whether a module has a name and is skipped.
fn is_skipped_as(judged: &Judged<'_>, number: usize, name: &str) -> bool
    requires { number < length (judged_of judged.now).set.modules }
    ensures yes { IsTrue result → IsSkippedAs (judged_of judged.now) name.now number }
    ensures no { result ≡ false → ¬ (IsSkippedAs (judged_of judged.now) name.now number) }
{
    if !is_named(judged, number, name) {
        return false;
    }
    is_skipped(judged, number)
}

/// Returns whether one of the modules from a number up to another has a name and is skipped.
fn is_skipped_between(judged: &Judged<'_>, name: &str, from: usize, to: usize) -> bool
    requires { to ≤ length (judged_of judged.now).set.modules }
    ensures yes { IsTrue result → HasBetween (IsSkippedAs (judged_of judged.now) name.now) from to }
    ensures no { result ≡ false → ¬ (HasBetween (IsSkippedAs (judged_of judged.now) name.now) from to) }
{
    'modules: for number in from..to {
        if is_skipped_as(judged, number, name) {
            return true;
        }
    }
    false
}

/// Returns whether a module with a name was skipped before, or its source wasn't checked then. The search begins with a number: mostly a module has the
/// same number in both sets.
fn is_skip_known(before: &Judged<'_>, name: &str, near: usize) -> bool
    ensures yes { IsTrue result → IsSkipKnown (judged_of before.now) name.now }
    ensures no { result ≡ false → ¬ (IsSkipKnown (judged_of before.now) name.now) }
{
    if !before.is_checked {
        return true;
    }
    let count = count_of(before);
    if is_skipped_between(before, name, near, count) {
        return true;
    }
    is_skipped_between(before, name, 0, count)
}

/// Returns whether a module isn't skipped, or is in another source, or was skipped before.
fn is_fine_skip(before: &Judged<'_>, after: &Judged<'_>, source: usize, number: usize) -> bool
    requires { number < length (judged_of after.now).set.modules }
    ensures yes { IsTrue result → IsSkipFineAt (judged_of before.now) (judged_of after.now) source number }
    ensures no { result ≡ false → ¬ (IsSkipFineAt (judged_of before.now) (judged_of after.now) source number) }
{
    if !is_in(after, number, source) {
        return true;
    }
    if !is_skipped(after, number) {
        return true;
    }
    is_skip_known(before, name_of(after, number), number)
}

/// Returns whether all modules of a source that are skipped after a change were so before.
pub(crate) fn are_skips_known(before: &Judged<'_>, after: &Judged<'_>, source: usize) -> bool
    ensures yes { IsTrue result → AreSkipsKnown (judged_of before.now) (judged_of after.now) source }
    ensures no { result ≡ false → ¬ (AreSkipsKnown (judged_of before.now) (judged_of after.now) source) }
{
    'modules: for number in 0..count_of(after) {
        if !is_fine_skip(before, after, source, number) {
            return false;
        }
    }
    true
}
