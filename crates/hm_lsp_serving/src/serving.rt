//! The loop of the server.
ghost use Rattle.std.specs.Prelude.{ℕ, List, IfNone, IfOk};
ghost use Rattle.std.specs.Io.KnownBytes.{Consumes, IsAtEnd};
ghost use Rattle.serde_json.specs.Data.{Data};
ghost use Rattle.hm_lsp_server.specs.Servers.{IsOrderly};
ghost use Rattle.hm_lsp_serving.specs.Turns.{AreWritten, IsSession};

use crate::disk::Disk;
use crate::faults::ServeFault;
use crate::taking::Serving;
use crate::turns::take_turn;
use hm_lsp_frames::Frames;
use std::io::{Read, Write};
use std::sync::Wait;
use std::thread::Threads;

/// A client. Its messages are read from `reader`, and the messages for it are written to `writer`.
#[derive(Drop)]
pub struct Client<R, W> {
    pub reader: R,
    pub writer: W,
}

// Why: docs/DECISIONS.md, "One loop".
/// Serves a client until it ends the server, or until its input ends. Returns the exit status, or `None` if the input has ended.
///
/// Each piece that is read is one turn. Its whole frames are taken in order, and what follows from each is done at once. Then the diagnostics are sent,
/// if no byte of a frame is left.
///
/// # Errors
///
/// `Memory` if memory runs out or no thread can start, `Write` if the client can't be written to, and `Read` if it can't be read from.
pub fn serve<T: Threads + Wait + Sync, D: Disk + Drop, R: Read, W: Write>(
    rt: &T,
    serving: Serving<D>,
    client: &mut Client<R, W>,
) -> Result<Option<u8>, ServeFault>
    requires { IsOrderly serving.server }
    ensures session { IfOk result (λ status. (read : List ℕ) × ((sent : List Data) × (IsSession serving.server read sent status
        × (Consumes (R.remaining client.old.reader) (R.remaining client.new.reader) read × AreWritten (W.contents client.old.writer) (W.contents client.new.writer) sent)))) }
    // Without a status, a reader that reports its bytes has no more of them.
    ensures end { IfOk result (λ status. IfNone status (IsAtEnd (R.remaining client.new.reader))) }
{
    let mut serving = serving;
    let mut frames = Frames::new(serving.alloc);
    let mut buffer = [0u8; 65536];
    'reads: for _ in rt.forever() {
        let Ok(count) = client.reader.read(&mut buffer) else {
            return Err(ServeFault::Read);
        };
        if count == 0 {
            return Ok(None);
        }
        let piece = &buffer[..count];
        match take_turn(rt, &mut serving, &mut client.writer, &mut frames, piece)? {
            Some(status) => return Ok(Some(status)),
            None => {}
        }
    }
    unreachable!()
}
