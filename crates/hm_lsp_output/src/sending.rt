//! Messages that are written to a client.
ghost use Rattle.std.specs.Prelude.{List, OnOk, IfOk, map, ℕ};
ghost use Rattle.std.specs.Io.KnownBytes.{Appends};
ghost use Rattle.serde_json.specs.View.{view};
ghost use Rattle.hm_lsp_output.specs.Frames.{AreFramesOf, IsFrameOf};

use hm_lsp_frames::framed;
use serde_json::Value;
use std::alloc::{AllocError, Global};
use std::io::Write;

/// Why messages weren't sent.
#[derive(Debug, Clone, Copy, PartialEq, Eq)]
pub enum SendFault {
    /// Memory ran out.
    Memory,
    /// The client can't be written to.
    Write,
}

impl From<AllocError> for SendFault {
    ghost use Rattle.std.specs.Prelude.{◌≡◌};
    ghost use Rattle.hm_lsp_output.specs.declared.sending.SendFault.TheVariants.{Memory};

    ghost from_gives = { λ _ fault. fault ≡ Memory };

    fn from(_error: AllocError) -> SendFault {
        SendFault::Memory
    }
}

/// Returns a message as a frame.
fn frame_of(alloc: Global, message: &Value) -> Result<Vec<u8>, AllocError>
    ensures { IfOk result (λ frame. IsFrameOf (view message.now) frame.items) }
{
    let text = message.to_string(alloc)?;
    framed(alloc, text.as_bytes())
}

/// Writes messages as frames, in order, and flushes the writer.
///
/// # Errors
///
/// `Memory` if memory runs out for a frame, and `Write` if the writer fails. Frames before that may have been written, and a part of this one.
pub fn send<W: Write>(alloc: Global, writer: &mut W, messages: &[Value]) -> Result<(), SendFault>
    ensures { OnOk result ((bytes : List ℕ) × (AreFramesOf (map view messages.now) bytes × Appends (W.contents writer.old) (W.contents writer.new) bytes)) }
{
    'messages: for message in messages {
        let frame = frame_of(alloc, message)?;
        match writer.write_all(&frame) {
            Ok(()) => {}
            Err(_) => return Err(SendFault::Write),
        }
    }
    match writer.flush() {
        Ok(()) => Ok(()),
        Err(_) => Err(SendFault::Write),
    }
}
