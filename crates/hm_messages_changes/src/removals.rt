//! A source without a range of its bytes.
ghost use Rattle.std.specs.Prelude.{◌≡◌, ◌≤◌, IfOk, length};
ghost use Rattle.hm_messages_changes.specs.Holes.{without as without_text};

use std::alloc::{AllocError, Global};

/// Returns a source without a range of its bytes.
pub fn without(alloc: Global, source: &[u8], from: usize, to: usize) -> Result<Vec<u8>, AllocError>
    requires ordered { from ≤ to }
    requires within { to ≤ length source.now }
    ensures { IfOk result (λ made. made.items ≡ without_text source.now from to) }
{
    let mut made = Vec::from_slice(alloc, &source[..from])?;
    made.extend_from_slice(&source[to..])?;
    Ok(made)
}
