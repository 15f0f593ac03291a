//! Why a list has no groups.

use std::alloc::{AllocError, AllocFailed};

/// Why a list has no binding groups.
#[derive(Debug, Drop)]
pub enum GroupFault {
    /// The list binds a name twice, so it has no typing.
    Repeated,
    /// Memory ran out.
    Memory,
}

impl From<AllocError> for GroupFault {
    ghost use Rattle.std.specs.Prelude.{◌≡◌};
    ghost use Rattle.hm_infer_dependencies.specs.declared.faults.GroupFault.TheVariants.{Memory};

    ghost from_gives = { λ _ e. e ≡ Memory };

    fn from(_e: AllocError) -> GroupFault {
        GroupFault::Memory
    }
}

impl<T: Drop> From<AllocFailed<T>> for GroupFault {
    ghost use Rattle.std.specs.Prelude.{◌≡◌};
    ghost use Rattle.hm_infer_dependencies.specs.declared.faults.GroupFault.TheVariants.{Memory};

    ghost from_gives = { λ _ e. e ≡ Memory };

    fn from(_e: AllocFailed<T>) -> GroupFault {
        GroupFault::Memory
    }
}
