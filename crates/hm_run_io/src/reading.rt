//! Reads sources.
ghost use Rattle.std.specs.Prelude.{All, map, true, ◌≡◌, ℕ, List, ◌⊎◌, ◌+◌, ◌++◌, ◌<◌, ◌≤◌, Some, Ok, IfErr, IfOk, IfSome, IsErrOf, OnErr, OnOk, vec_len};
ghost use Rattle.std.specs.Io.KnownBytes.{Consumes, IsAtEnd};
ghost use Rattle.hm_run_io.specs.Counting.{one_more};
ghost use Rattle.hm_run_io.specs.Reads.{ReadsAll};
ghost use Rattle.hm_run_io.specs.Sources.{held_of, IsReadUp, Stops, Tell};
ghost use Rattle.hm_run_io.specs.Watching.{device_of, reads_of, bytes_of, given_of, failures_of, has_ended_of, HasReadFault, IsFresh, IsReadWhole, IsReadWithin};

use crate::{RunFault, Watched};
use std::alloc::Global;
use std::io::{ErrorKind, Read};

/// A source with more bytes than this is too long, and isn't read further.
const MAX_SOURCE_LEN: usize = 1_048_576;

/// The largest number of reads of one reader.
const MOST_READS: u64 = 2_097_152;

/// The number of bytes that one read requests.
const CHUNK: usize = 4096;

/// Reads once, and appends the bytes. Returns their number, or `None` if the read was interrupted.
fn read_once<R: Read>(
    reader: &mut Watched<R>,
    held: &mut Vec<u8>,
) -> Result<Option<usize>, RunFault>
    requires room { vec_len held.old < 1048577 }
    requires held { bytes_of reader.old ≡ vec_len held.old }
    requires given { given_of reader.old ≡ held.old.items }
    ensures given { OnOk result (given_of reader.new ≡ held.new.items) }
    ensures ended { result ≡ Ok (Some 0) → has_ended_of reader.new ≡ true }
    ensures bytes { OnOk result ((came : List ℕ) × (held.new.items ≡ held.old.items ++ came)
        × Consumes (R.remaining (device_of reader.old)) (R.remaining (device_of reader.new)) came) }
    ensures end { result ≡ Ok (Some 0) → IsAtEnd (R.remaining (device_of reader.new)) }
    ensures most { vec_len held.new ≤ 1048577 }
    ensures held { OnOk result (bytes_of reader.new ≡ vec_len held.new) }
    ensures count { bytes_of reader.new ≤ 1048577 }
    ensures reads { reads_of reader.new ≡ one_more (reads_of reader.old) }
    ensures ok { OnOk result (failures_of reader.new ≡ failures_of reader.old) }
    ensures read { IsErrOf result RunFault.Read → failures_of reader.new ≡ one_more (failures_of reader.old) }
    ensures memory { IsErrOf result RunFault.Memory → failures_of reader.new ≡ failures_of reader.old }
    ensures others { IfErr result (λ e. (e ≡ RunFault.Read) ⊎ (e ≡ RunFault.Memory)) }
{
    let mut chunk = [0u8; CHUNK];
    let room = (MAX_SOURCE_LEN + 1 - held.len()).min(CHUNK);
    let part = &mut chunk[..room];
    match reader.read(part) {
        Ok(count) => {
            held.extend_from_slice(&part[..count])
                .map_err(|_| RunFault::Memory)?;
            reader.note_given(held);
            Ok(Some(count))
        }
        Err(error) => {
            if error.kind() == ErrorKind::Interrupted {
                Ok(None)
            } else {
                Err(RunFault::Read)
            }
        }
    }
}

// Why: docs/DECISIONS.md, "Many reads".
/// Reads one source, to a read of no bytes or until it is too long.
pub(crate) fn read_source<R: Read>(
    alloc: Global,
    reader: &mut Watched<R>,
) -> Result<Vec<u8>, RunFault>
    requires { IsFresh reader.old }
    ensures bytes { IfOk result (λ source. IfSome (R.remaining (device_of reader.old)) (λ all. source.items ≡ held_of all)) }
    ensures len { IfOk result (λ source. vec_len source ≤ 1048577) }
    ensures given { IfOk result (λ source. source.items ≡ given_of reader.new) }
    ensures whole { OnOk result (IsReadWhole reader.new) }
    ensures read_up { OnOk result (IsReadUp (R.remaining (device_of reader.old)) (R.remaining (device_of reader.new))) }
    ensures within { IsReadWithin reader.new }
    ensures ok { OnOk result (failures_of reader.new ≡ 0) }
    ensures read { IsErrOf result RunFault.Read → HasReadFault reader.new }
    ensures memory { IsErrOf result RunFault.Memory → failures_of reader.new ≡ 0 }
    ensures others { IfErr result (λ e. (e ≡ RunFault.Read) ⊎ (e ≡ RunFault.Memory)) }
{
    let mut held = Vec::new(alloc);
    while reader.reads() < MOST_READS {
        if let Some(0) = read_once(reader, &mut held)? {
            return Ok(held);
        }
        if held.len() > MAX_SOURCE_LEN {
            return Ok(held);
        }
    }
    Err(RunFault::Read)
}

/// Reads all sources, in order.
///
/// # Errors
///
/// `Read` at the first reader that fails or doesn't end in time, and `Memory` if memory ran out. Later readers aren't read.
pub fn read_all<R: Read>(
    alloc: Global,
    readers: &mut [Watched<R>],
) -> Result<Vec<Vec<u8>>, RunFault>
    requires { All IsFresh readers.old }
    ensures len { IfOk result (λ sources. All (λ s. vec_len s ≤ 1048577) sources.items) }
    ensures bytes { IfOk result (λ sources. (told : List (List ℕ)) → Tell (λ r. R.remaining (device_of r)) readers.old told
        → map (λ s. s.items) sources.items ≡ map held_of told) }
    ensures given { IfOk result (λ sources. map (λ s. s.items) sources.items ≡ map given_of readers.new) }
    ensures reads { ReadsAll R.remaining readers.old readers.new result }
    ensures stops { OnErr result (Stops (λ r. R.remaining (device_of r)) readers.old readers.new) }
    ensures others { IfErr result (λ e. (e ≡ RunFault.Read) ⊎ (e ≡ RunFault.Memory)) }
{
    let mut sources = Vec::new(alloc);
    for index in 0..readers.len() {
        let source = read_source(alloc, &mut readers[index])?;
        sources.push(source)?;
    }
    Ok(sources)
}
