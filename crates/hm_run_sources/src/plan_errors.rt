//! Why a set of sources has no plan.
ghost use Rattle.std.specs.Prelude.{ℕ, List};
ghost use Rattle.hm_run_sources.specs.Errors.{HaveHeaders, IsPlanError, IsSetError};

use crate::{Located, SetError, SetFault};
use std::alloc::Global;
use std::fmt;

// Why: docs/DECISIONS.md, "The source of a module".
/// A refused set of sources.
pub struct RefusedSet {
    pub fault: SetFault,
    /// The headers of all modules if the plan has the fault. There are none if a source has it.
    pub located: Vec<Located>,
}

impl Drop for RefusedSet {
    // Why: docs/DECISIONS.md, "Drops".
    fn drop(self) {
        let RefusedSet {
            fault: _fault,
            located: _located,
        } = self;
    }
}

impl fmt::Debug for RefusedSet {
    /// Writes the fault without the headers.
    fn fmt<W: fmt::Write>(&self, f: &mut fmt::Formatter<W>) -> fmt::Result {
        fmt::Debug::fmt(&self.fault, f)
    }
}

/// Why a set of sources has no plan.
#[derive(Debug, Drop)]
pub enum PlanError {
    Refused(RefusedSet),
    Memory,
}

/// Returns why a set has no plan if its sources can't be read for this reason.
#[tactic(auto, using(crate::proofs::Reading::refused_by_source, crate::proofs::Reading::no_headers))]
pub fn source_error(alloc: Global, error: SetError) -> PlanError
    ensures err { (sources : List (List ℕ)) → IsSetError sources error → IsPlanError sources result }
    ensures headers { (sources : List (List ℕ)) → IsSetError sources error → HaveHeaders sources result }
{
    match error {
        SetError::Refused(fault) => PlanError::Refused(RefusedSet {
            fault,
            located: Vec::new(alloc),
        }),
        SetError::Memory => PlanError::Memory,
    }
}
