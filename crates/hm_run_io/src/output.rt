//! Writes a text.
ghost use Rattle.std.specs.Prelude.{◌≡◌, IfErr, OnErr, OnOk};
ghost use Rattle.std.specs.Io.KnownBytes.{Appends};
ghost use Rattle.hm_run_io.specs.Sources.{WritesPrefix};
ghost use Rattle.hm_run_io.specs.Watching.{device_of, HasWriteFault, IsFlushedBehind, IsFresh, IsWritten, IsWrittenOnce};

use crate::{RunFault, Watched};
use std::io::{ErrorKind, Write};

/// The number of interrupted writes at which writing fails.
const MOST_INTERRUPTS: u64 = 2_097_152;

// Why: docs/DECISIONS.md, "Empty writes", "Fresh devices".
/// Writes the whole text, and flushes the writer.
///
/// # Errors
///
/// `Write` if a write fails or takes no byte, if too many writes are interrupted, or if the flush fails.
pub fn write_text<W: Write>(writer: &mut Watched<W>, text: &[u8]) -> Result<(), RunFault>
    requires { IsFresh writer.old }
    ensures bytes { OnOk result (Appends (W.contents (device_of writer.old)) (W.contents (device_of writer.new)) text.now) }
    ensures written { OnOk result (IsWritten writer.new) }
    ensures flushed { OnOk result (IsFlushedBehind writer.new) }
    ensures once { IsWrittenOnce writer.new }
    ensures prefix { OnErr result (WritesPrefix (W.contents (device_of writer.old)) (W.contents (device_of writer.new)) text.now) }
    ensures cause { OnErr result (HasWriteFault writer.new) }
    ensures others { IfErr result (λ e. e ≡ RunFault.Write) }
{
    let mut rest = text;
    while !rest.is_empty() {
        match writer.write(rest) {
            Ok(0) => return Err(RunFault::Write),
            Ok(count) => rest = &rest[count..],
            Err(error) => {
                if error.kind() != ErrorKind::Interrupted {
                    return Err(RunFault::Write);
                }
                if writer.interrupts() >= MOST_INTERRUPTS {
                    return Err(RunFault::Write);
                }
            }
        }
    }
    match writer.flush() {
        Ok(()) => Ok(()),
        Err(_) => Err(RunFault::Write),
    }
}
