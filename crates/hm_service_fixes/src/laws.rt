//! Worked examples. Each is a function with an empty body, whose contract is the example.
ghost use Rattle.hm_service_fixes.specs.Worked.{FixRow, MovesRow, PhasesRow};

/// Where places are after a change.
#[tactic(auto, using(crate::proofs::WorkedFixes::worked_moves))]
pub fn worked_moves()
    ensures { MovesRow }
{}

/// Which faults are of earlier phases.
#[tactic(auto, using(crate::proofs::WorkedFixes::worked_phases))]
pub fn worked_phases()
    ensures { PhasesRow }
{}

/// Changes that are fixes, and changes that aren't.
#[tactic(auto, using(crate::proofs::WorkedFixes::worked_fixes))]
pub fn worked_fixes()
    ensures { FixRow }
{}
