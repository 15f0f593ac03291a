//! Reads the messages of a run.
ghost use Rattle.std.specs.Prelude.{◌≡◌, IfOk};
ghost use Rattle.hm_service_messages.specs.Lines.{AreTold};

use crate::diagnostic::Told;
use crate::parsing::parsed;
use crate::writing::written;
use std::alloc::{AllocError, Global};
use thiserror::Error;

/// Why messages can't be read.
#[derive(Debug, Drop, Error)]
pub enum ReadingFault {
    /// The text isn't the lines of a run whose sources are named by their numbers.
    #[error("not the messages of a run")]
    Foreign,
    #[error("no memory")]
    Memory,
}

impl From<AllocError> for ReadingFault {
    ghost use Rattle.std.specs.Prelude.{◌≡◌};
    ghost use Rattle.hm_service_messages.specs.declared.reading.ReadingFault.TheVariants.{Memory};

    ghost from_gives = { λ _ fault. fault ≡ Memory };

    fn from(_error: AllocError) -> ReadingFault {
        ReadingFault::Memory
    }
}

// Why: docs/DECISIONS.md, "Messages read back".
/// Returns the diagnostics of a run's messages as JSON objects. The names of its sources are their numbers.
///
/// # Errors
///
/// `Foreign` if the text isn't the lines of such a run, and `Memory` if memory ran out.
pub fn told_in(alloc: Global, messages: &[u8]) -> Result<Told, ReadingFault>
    // Written again, the diagnostics and the counts are the messages.
    ensures ok { IfOk result (λ told. AreTold told messages.now) }
{
    let told = parsed(alloc, messages)?;
    let text = written(alloc, &told)?;
    if text.as_bytes() != messages {
        return Err(ReadingFault::Foreign);
    }
    Ok(told)
}
