//! Why a request about the texts has no result.

use hm_service::ServiceFault;
use hm_service_rename::RenameRefusal;
use std::alloc::AllocError;

/// Memory ran out, no thread could start, or two results contradict each other.
#[derive(Clone, Copy, Debug, PartialEq, Eq)]
pub(crate) struct ServerFault;

impl From<AllocError> for ServerFault {
    fn from(_error: AllocError) -> ServerFault {
        ServerFault
    }
}

impl From<ServiceFault> for ServerFault {
    fn from(_fault: ServiceFault) -> ServerFault {
        ServerFault
    }
}

/// Why a request has no result.
#[derive(Clone, Copy, Debug, PartialEq, Eq)]
pub(crate) enum RequestFault {
    /// Memory ran out, no thread could start, or two results contradict each other.
    Server,
    /// The checker refuses a rename.
    Refused(RenameRefusal),
}

impl From<AllocError> for RequestFault {
    ghost use Rattle.std.specs.Prelude.{◌≡◌};
    ghost use Rattle.hm_lsp_results.specs.declared.faults.RequestFault.TheVariants.{Server};

    ghost from_gives = { λ _ fault. fault ≡ Server };

    fn from(_error: AllocError) -> RequestFault {
        RequestFault::Server
    }
}

impl From<ServerFault> for RequestFault {
    ghost use Rattle.std.specs.Prelude.{◌≡◌};
    ghost use Rattle.hm_lsp_results.specs.declared.faults.RequestFault.TheVariants.{Server};

    ghost from_gives = { λ _ fault. fault ≡ Server };

    fn from(_fault: ServerFault) -> RequestFault {
        RequestFault::Server
    }
}
