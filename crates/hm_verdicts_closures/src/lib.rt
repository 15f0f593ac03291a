//! Laws of the verdicts of modules with one import closure: what a set has besides doesn't matter.
#![tactic(auto)]

ghost use Rattle.hm_verdicts_closures.specs.Closures.{HasStatusOfClosure};
ghost use Rattle.hm_verdicts_closures.specs.Worked.{ClosuresRow};

use hm_verdicts::one_verdict;

// Why: docs/DECISIONS.md, "Modules of other files".
/// A module has the same status in all settled sets in which it has the same import closure.
pub fn closures_decide()
    ensures { HasStatusOfClosure }
{
    one_verdict();
}

/// Modules with the same import closure in two sets, and modules with others.
#[tactic(auto, using(crate::proofs::WorkedClosures::worked_closures))]
pub fn worked_closures()
    ensures { ClosuresRow }
{}
