//! The first of the names with each text.
ghost use Rattle.std.specs.Prelude.{◌≡◌, [], IfOk};
ghost use Rattle.hm_names.specs.Faults.Lists.{firsts};

use hm_names::LentNames;
use hm_scope_tables::TextSet;
use std::alloc::{AllocError, Global};

/// Returns the names that are the first with their texts, in order.
pub(crate) fn firsts_of<'a>(
    alloc: Global,
    names: &LentNames<'a>,
) -> Result<LentNames<'a>, AllocError>
    ensures { IfOk result (λ found. found ≡ firsts [] names.now) }
{
    let row = names.as_slice();
    let mut out = LentNames::new(alloc);
    let mut seen = TextSet::new(alloc);
    'row: for name in row {
        if seen.insert(name.as_str())? {
            out.push(name)?;
        }
    }
    Ok(out)
}
