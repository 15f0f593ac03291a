//! The uses whose names are at a place.
ghost use Rattle.std.specs.Prelude.{◌≡◌, ◌≤◌, ◌^◌, IfOk, map};
ghost use Rattle.std.specs.List.{filter};
ghost use Rattle.hm_uses_places.specs.Places.{is_on, qualifier_length, written_length};

use hm_syntax::Name;
use hm_types::Text;
use hm_uses_declarations::Use;
use std::alloc::{AllocError, Global};

/// Returns the number of bytes of a qualifier with the dot after it, or 0 if there is none.
pub fn qualifier_len(qualifier: &Option<Text>) -> u64
    ensures length { result ≡ qualifier_length qualifier.now }
    ensures few { result ≤ 2 ^ 63 }
{
    match qualifier {
        None => 0,
        Some(text) => text.as_str().len() as u64 + 1,
    }
}

/// Returns the number of bytes of a name as it is written.
fn written_len(name: &Name) -> u64
    ensures { result ≡ written_length name.now }
{
    qualifier_len(&name.qualifier) + name.as_str().len() as u64
}

/// Returns whether a name is at a place. The column counts bytes, from 1.
pub fn is_on(line: u32, column: usize, name: &Name) -> bool
    ensures { result ≡ is_on (record { line = line; column = column }) name.now }
{
    if name.place.line != line {
        return false;
    }
    let first = name.place.column as usize;
    if column < first {
        return false;
    }
    ((column - first) as u64) < written_len(name)
}

/// Returns the uses whose names are at a place of the module, in the order of the text. The column counts bytes, from 1. There is more than one such
/// use only after `hiding`, where a name without a list is that of a type and of a constructor.
///
/// # Errors
///
/// If memory runs out.
pub fn uses_at<'u, 'a>(
    alloc: Global,
    uses: &'u [Use<'a>],
    line: u32,
    column: usize,
) -> Result<Vec<&'u Use<'a>>, AllocError>
    ensures { IfOk result (λ found. map (λ u. u.now) found.items ≡ filter (λ u. is_on (record { line = line; column = column }) u.mention.name) uses.now) }
{
    let mut found = Vec::new(alloc);
    'uses: for one in uses {
        if is_on(line, column, one.name()) {
            found.push(one)?;
        }
    }
    Ok(found)
}
