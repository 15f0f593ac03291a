//! A source in which a name that isn't in scope is a variable of every type.
ghost use Rattle.std.specs.Prelude.{◌≡◌, ◌≤◌, All, IfOk, IfSome, length};
ghost use Rattle.hm_messages_expected.specs.Expected.{IsDefined, IsOpened, with_placeholder as placeholder_text};

use hm_messages_changes::{ScopeChange, SourceRange, changed_by};
use hm_messages_hidden::are_replaced;
use hm_names::Fault;
use std::alloc::{AllocError, Global};

/// The variable that is written in place of a name.
pub(crate) const PLACEHOLDER: &str = "part'hole";

/// Returns the source with the placeholder in place of a part.
fn with_placeholder(alloc: Global, source: &[u8], part: SourceRange) -> Result<Vec<u8>, AllocError>
    requires ordered { part.from ≤ part.to }
    requires within { part.to ≤ length source.now }
    ensures { IfOk result (λ made. made.items ≡ placeholder_text source.now part) }
{
    let mut made = Vec::from_slice(alloc, &source[..part.from])?;
    made.extend_from_slice(PLACEHOLDER.as_bytes())?;
    made.extend_from_slice(&source[part.to..])?;
    Ok(made)
}

/// Returns the source with a change, and with the placeholder in place of a part. Returns `None` if the change can't be made, or isn't after the part.
pub(crate) fn opened_by(
    alloc: Global,
    source: &[u8],
    faults: &[Fault],
    change: &ScopeChange<'_>,
    part: SourceRange,
) -> Result<Option<Vec<u8>>, AllocError>
    requires { All (λ n. IsDefined faults.now n.now) change.now.names.now }
    ensures { IfOk result (λ found. IfSome found (λ made. IsOpened source.now faults.now part made.items)) }
{
    if part.to > change.at || change.at > source.len() {
        return Ok(None);
    }
    if !are_replaced(source, change.replaced, faults) {
        return Ok(None);
    }
    let Some(whole) = changed_by(alloc, source, change)? else {
        return Ok(None);
    };
    let text = whole.as_slice();
    if part.from > part.to || part.to > text.len() {
        return Ok(None);
    }
    Ok(Some(with_placeholder(alloc, text, part)?))
}
