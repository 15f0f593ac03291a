//! Whether a change of a source is a fix of a fault.
ghost use Rattle.std.specs.Prelude.{◌↔◌, IsTrue};
ghost use Rattle.hm_service_fixes.specs.Fixes.{IsFix};
ghost use Rattle.hm_service_fixes.specs.Views.{judged_of};

use crate::changes::SourceChange;
use crate::faults::are_all_fine;
use crate::judged::Judged;
use crate::modules::are_kept;
use crate::skips::are_skips_known;

// Why: docs/DECISIONS.md, "Fixes of a held set".
/// Returns whether a change of a source is a fix of a fault, by the verdicts of the held set before the change and after it: the source is checked, the
/// fault is gone, and the modules of the source have no new fault and aren't skipped, unless they were so before. Faults of later phases than those that
/// a module had are no new ones. If the source was checked before, all modules that were accepted are accepted.
pub fn is_fix(before: &Judged<'_>, after: &Judged<'_>, change: &SourceChange<'_>) -> bool
    ensures { IsTrue result ↔ IsFix (judged_of before.now) (judged_of after.now) change.now }
{
    if !after.is_checked {
        return false;
    }
    if !are_kept(before, after) {
        return false;
    }
    if !are_skips_known(before, after, change.source) {
        return false;
    }
    are_all_fine(before, after, change)
}
