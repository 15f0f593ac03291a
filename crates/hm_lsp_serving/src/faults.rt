//! Why a client isn't served any more.
use hm_lsp_output::SendFault;

/// Why a client isn't served any more, although it hasn't ended the server.
#[derive(Debug, Clone, Copy, PartialEq, Eq)]
pub enum ServeFault {
    /// Memory ran out, or no thread could start.
    Memory,
    /// The client can't be written to.
    Write,
    /// The client can't be read from.
    Read,
}

impl From<SendFault> for ServeFault {
    ghost use Rattle.std.specs.Prelude.{◌≡◌};
    ghost use Rattle.hm_lsp_serving.specs.Faults.{fault_of};

    ghost from_gives = { λ sent fault. fault ≡ fault_of sent };

    fn from(sent: SendFault) -> ServeFault {
        match sent {
            SendFault::Memory => ServeFault::Memory,
            SendFault::Write => ServeFault::Write,
        }
    }
}
