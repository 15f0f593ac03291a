//! Cursors in the texts that stand for sources.
ghost use Rattle.std.specs.Prelude.{◌≡◌, IfOk};
ghost use Rattle.hm_lsp_results.specs.Asked.{subject_of};
ghost use Rattle.hm_lsp_results.specs.Walks.{walks_of};

use crate::asking::Asked;
use hm_lsp_positions::Cursor;
use std::alloc::AllocError;

/// Returns a cursor in the text that stands for each source, by the number of the source.
pub(crate) fn cursors_of<'a>(asked: &Asked<'a>) -> Result<Vec<Cursor<'a>>, AllocError>
    ensures { IfOk result (λ cursors. cursors.items ≡ walks_of (subject_of asked.now)) }
{
    let mut cursors = Vec::new(asked.alloc);
    let (encoding, held) = (asked.encoding, asked.held);
    'sources: for source in held {
        let cursor = Cursor::new(encoding, source.standing.as_slice());
        cursors.push(cursor)?;
    }
    Ok(cursors)
}
