//! The faults of a run.
use std::alloc::{AllocError, AllocFailed};
use thiserror::Error;

/// Why a run has no status. A run of the plan returns only the first three.
#[derive(Clone, Copy, Debug, PartialEq, Eq, Drop, Error)]
pub enum RunFault {
    /// A read failed other than by an interrupt, or a reader hadn't ended after 2,097,152 reads. Nothing was written.
    #[error("read fault")]
    Read,
    /// A write failed or took no byte, or was interrupted 2,097,152 times, or a flush failed. A part of the text may be written.
    #[error("write fault")]
    Write,
    /// Memory ran out. Nothing was written.
    #[error("no memory")]
    Memory,
    /// No thread could start. Nothing was written.
    #[error("no worker")]
    NoWorker,
    /// The workers contradict the store or each other. Nothing was written.
    #[error("mixed")]
    Mixed,
    /// The number of workers isn't 1 to 16. Nothing was read.
    #[error("workers not 1 to 16")]
    Workers,
}

impl From<AllocError> for RunFault {
    ghost use Rattle.std.specs.Prelude.{◌≡◌};
    ghost use Rattle.hm_run_io.specs.declared.faults.RunFault.TheVariants.{Memory};

    ghost from_gives = { λ _ fault. fault ≡ Memory };

    fn from(_error: AllocError) -> RunFault {
        RunFault::Memory
    }
}

impl<T: Drop> From<AllocFailed<T>> for RunFault {
    ghost use Rattle.std.specs.Prelude.{◌≡◌};
    ghost use Rattle.hm_run_io.specs.declared.faults.RunFault.TheVariants.{Memory};

    ghost from_gives = { λ _ fault. fault ≡ Memory };

    fn from(_error: AllocFailed<T>) -> RunFault {
        RunFault::Memory
    }
}
