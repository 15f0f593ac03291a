//! Why there is no answer.
use hm_service_messages::ReadingFault;
use std::alloc::AllocError;
use thiserror::Error;

/// Why there is no answer about a held set.
#[derive(Debug, Drop, Error)]
pub enum ServiceFault {
    #[error("workers not 1 to 16")]
    Workers,
    /// No thread could start.
    #[error("no worker")]
    NoWorker,
    #[error("no memory")]
    Memory,
    /// Two results contradict each other.
    #[error("mixed")]
    Mixed,
}

impl From<AllocError> for ServiceFault {
    ghost use Rattle.std.specs.Prelude.{◌≡◌};
    ghost use Rattle.hm_service_places.specs.declared.faults.ServiceFault.TheVariants.{Memory};

    ghost from_gives = { λ _ fault. fault ≡ Memory };

    fn from(_error: AllocError) -> ServiceFault {
        ServiceFault::Memory
    }
}

impl From<ReadingFault> for ServiceFault {
    fn from(fault: ReadingFault) -> ServiceFault {
        match fault {
            ReadingFault::Foreign => ServiceFault::Mixed,
            ReadingFault::Memory => ServiceFault::Memory,
        }
    }
}
