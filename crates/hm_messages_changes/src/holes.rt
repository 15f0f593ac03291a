//! A source with the hole in place of a range of its bytes.
ghost use Rattle.std.specs.Prelude.{◌≡◌, ◌≤◌, IfOk, length};
ghost use Rattle.hm_messages_changes.specs.Holes.{with_hole};

use crate::data::HOLE;
use std::alloc::{AllocError, Global};

/// Returns the source with the hole in place of a range of its bytes.
pub fn with_hole(
    alloc: Global,
    source: &[u8],
    from: usize,
    to: usize,
) -> Result<Vec<u8>, AllocError>
    requires ordered { from ≤ to }
    requires within { to ≤ length source.now }
    ensures { IfOk result (λ made. made.items ≡ with_hole source.now from to) }
{
    let mut made = Vec::from_slice(alloc, &source[..from])?;
    made.extend_from_slice(HOLE.as_bytes())?;
    made.extend_from_slice(&source[to..])?;
    Ok(made)
}
