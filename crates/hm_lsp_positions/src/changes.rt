//! Changes of a text (Language Server Protocol 3.17, `TextDocumentContentChangeEvent`).
ghost use Rattle.std.specs.Prelude.{◌≡◌, ◌≤◌, ◌++◌, IfErr, IfOk, IsErrOf, drop, length, take};
ghost use Rattle.hm_lsp_positions.specs.Changes.{AreApplied, HasReversed, IsApplied, IsReversed};
ghost use Rattle.hm_lsp_positions.specs.Starts.{AreStarts};

use crate::known_starts::{first_start, keep_before, offset_in};
use crate::positions::Position;
use crate::units::Encoding;
use std::alloc::{AllocError, Global};
use thiserror::Error;

/// A range of a text, without the place at its end.
#[derive(Clone, Copy, Debug, PartialEq, Eq)]
pub struct Range {
    pub start: Position,
    pub end: Position,
}

/// A change of a text: the new text of a range, or of all if there is no range.
#[derive(Drop)]
pub struct Change {
    pub range: Option<Range>,
    pub text: Vec<u8>,
}

/// Why a change isn't applied.
#[derive(Clone, Copy, Debug, PartialEq, Eq, Drop, Error)]
pub enum ChangeFault {
    /// A range ends before it starts.
    #[error("a range ends before it starts")]
    Reversed,
    /// Memory ran out.
    #[error("no memory")]
    Memory,
}

impl From<AllocError> for ChangeFault {
    ghost use Rattle.std.specs.Prelude.{◌≡◌};
    ghost use Rattle.hm_lsp_positions.specs.declared.changes.ChangeFault.TheVariants.{Memory};

    ghost from_gives = { λ _ fault. fault ≡ Memory };

    fn from(_error: AllocError) -> ChangeFault {
        ChangeFault::Memory
    }
}

/// Returns a text with other bytes in place of some.
fn replaced(
    alloc: Global,
    text: &[u8],
    from: usize,
    to: usize,
    filling: &[u8],
) -> Result<Vec<u8>, ChangeFault>
    requires ordered { from ≤ to }
    requires within { to ≤ length text.now }
    ensures made { IfOk result (λ made. made.items ≡ take from text.now ++ (filling.now ++ drop to text.now)) }
    ensures err { IfErr result (λ e. e ≡ ChangeFault.Memory) }
{
    let mut made = Vec::from_slice(alloc, &text[..from])?;
    made.extend_from_slice(filling)?;
    made.extend_from_slice(&text[to..])?;
    Ok(made)
}

/// Returns a text after a change. The starts of its lines are those that are known of the text before, which it keeps.
///
/// # Errors
///
/// `Reversed` if the range ends before it starts, and `Memory` if memory runs out.
fn changed(
    alloc: Global,
    encoding: Encoding,
    text: &[u8],
    starts: &mut Vec<usize>,
    change: &Change,
) -> Result<Vec<u8>, ChangeFault>
    requires { AreStarts text.now starts.old.items }
    ensures made { IfOk result (λ made. IsApplied encoding text.now change.now made.items) }
    ensures starts { IfOk result (λ made. AreStarts made.items starts.new.items) }
    ensures reversed { IsErrOf result ChangeFault.Reversed → IsReversed encoding text.now change.now }
{
    match change.range {
        None => {
            keep_before(starts, 0);
            Ok(Vec::from_slice(alloc, change.text.as_slice())?)
        }
        Some(range) => {
            let from = offset_in(encoding, text, starts, range.start)?;
            let to = offset_in(encoding, text, starts, range.end)?;
            if to < from {
                return Err(ChangeFault::Reversed);
            }
            keep_before(starts, from);
            Ok(replaced(alloc, text, from, to, change.text.as_slice())?)
        }
    }
}

// Why: docs/DECISIONS.md, "Many changes".
/// Returns a text after changes, each of the text after those before it.
///
/// # Errors
///
/// `Reversed` if a range ends before it starts, and `Memory` if memory runs out.
pub fn all_changed(
    alloc: Global,
    encoding: Encoding,
    text: &[u8],
    changes: &[Change],
) -> Result<Vec<u8>, ChangeFault>
    ensures made { IfOk result (λ made. AreApplied encoding text.now changes.now made.items) }
    ensures reversed { IsErrOf result ChangeFault.Reversed → HasReversed encoding text.now changes.now }
{
    let mut starts = first_start(alloc)?;
    let mut made = Vec::from_slice(alloc, text)?;
    'changes: for change in changes {
        match changed(alloc, encoding, made.as_slice(), &mut starts, change) {
            Ok(next) => made = next,
            Err(fault) => return Err(fault),
        }
    }
    Ok(made)
}
