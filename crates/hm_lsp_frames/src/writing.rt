//! Writes frames.
ghost use Rattle.std.specs.Prelude.{◌≡◌, IfOk};
ghost use Rattle.hm_lsp_frames.specs.Frames.{framed};

use std::alloc::{AllocError, Global};

/// Returns a body as a frame: a header with its length, an empty line, and the body.
///
/// # Errors
///
/// If memory runs out.
pub fn framed(alloc: Global, body: &[u8]) -> Result<Vec<u8>, AllocError>
    ensures { IfOk result (λ frame. frame.items ≡ framed body.now) }
{
    let length = body.len();
    let mut frame = format!(in alloc; "Content-Length: {length}\r\n\r\n")?.into_bytes();
    frame.extend_from_slice(body)?;
    Ok(frame)
}
