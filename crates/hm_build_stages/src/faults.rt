//! Why a build fails.
use hm_run_sources::{RefusedSet, SourceModule};
use hm_store_shared::SharedFault;
use std::alloc::AllocError;
use thiserror::Error;

// Why: docs/DECISIONS.md, "The module without memory".
/// Why a build fails.
#[derive(Debug, Drop, Error)]
pub enum BuildFault {
    /// The sources spell no lawful set of modules.
    #[error("the sources are refused")]
    Refused(RefusedSet),
    #[error("workers not 1 to 16")]
    Workers,
    /// No thread could start, or a worker got no reader of the published interfaces.
    #[error("no worker")]
    NoWorker,
    #[error("no memory")]
    Memory,
    /// Memory ran out in the check of this module.
    #[error("no memory for a module")]
    Exhausted(SourceModule),
    /// The workers contradict the store or each other.
    #[error("mixed")]
    Mixed,
}

impl From<AllocError> for BuildFault {
    ghost use Rattle.std.specs.Prelude.{◌≡◌};
    ghost use Rattle.hm_build_stages.specs.declared.faults.BuildFault.TheVariants.{Memory};

    ghost from_gives = { λ _ fault. fault ≡ Memory };

    fn from(_error: AllocError) -> BuildFault {
        BuildFault::Memory
    }
}

impl From<SharedFault> for BuildFault {
    ghost use Rattle.std.specs.Prelude.{◌≡◌};
    ghost use Rattle.hm_build_stages.specs.Errors.{build_fault_of};

    ghost from_gives = { λ given fault. fault ≡ build_fault_of given };

    fn from(fault: SharedFault) -> BuildFault {
        match fault {
            SharedFault::Memory => BuildFault::Memory,
            SharedFault::NoReader => BuildFault::NoWorker,
        }
    }
}
