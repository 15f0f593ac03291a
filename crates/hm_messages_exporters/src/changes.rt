//! The change of a source that imports a name.
ghost use Rattle.std.specs.Prelude.{ℕ, List, IfOk, IfSome, map};
ghost use Rattle.hm_messages_json.specs.Edits.{changed_of};
ghost use Rattle.hm_messages_exporters.specs.Changes.{IsBrace, IsImportPut, IsPutAfter, import_text};

use hm_lex::Place;
use hm_messages_excerpts::SourceLines;
use hm_messages_json::Change;
use hm_syntax::Name;
use std::alloc::{AllocError, Global};

/// On how many lines the first brace of a module is searched for.
const MOST_LINES: u32 = 64;

/// What the rest of a line of a module's header has.
#[derive(Clone, Copy)]
enum Seen {
    /// A brace after so many bytes, which begins the module's body.
    Brace(usize),
    /// A brace that begins a comment.
    Comment,
    /// No brace, or none before a comment that ends with the line.
    Nothing,
}

/// Returns what the rest of a line of a header has. A header has no strings, and no braces but those of comments.
fn seen_in(rest: &[u8]) -> Seen {
    'bytes: for index in 0..rest.len() {
        if rest[index] == b'-' {
            return Seen::Nothing;
        }
        if rest[index] != b'{' {
            continue;
        }
        let (_, after) = rest.split_at(index);
        return if after.starts_with(b"{-".as_slice()) {
            Seen::Comment
        } else {
            Seen::Brace(index)
        };
    }
    Seen::Nothing
}

/// Returns the place of the brace after so many bytes on a line.
fn brace_after(lines: &SourceLines<'_>, place: Place, count: usize) -> Option<Place>
    ensures { IfSome result (IsBrace lines.now) }
{
    let count = u32::try_from(count).ok()?;
    let column = place.column.checked_add(count)?;
    let line = place.line;
    let brace = Place { line, column };
    let rest = lines.rest_of_line(brace)?;
    let (first, _) = rest.split_first()?;
    if *first != b'{' {
        return None;
    }
    Some(brace)
}

/// Returns the place of the brace that begins the body of a module with this name, if its header is short and has no nested comment.
pub fn body_start(lines: &SourceLines<'_>, name: &Name) -> Option<Place>
    ensures { IfSome result (IsBrace lines.now) }
{
    let mut place = name.place;
    'lines: for _ in 0..MOST_LINES {
        let rest = lines.rest_of_line(place)?;
        match seen_in(rest) {
            Seen::Brace(count) => return brace_after(lines, place, count),
            Seen::Comment => return None,
            Seen::Nothing => {}
        }
        let line = place.line.checked_add(1)?;
        place = Place { line, column: 1 };
    }
    None
}

/// Returns the change that writes an import of a module with this list after a brace.
fn put_after(
    alloc: Global,
    brace: Place,
    module: &str,
    item: &str,
) -> Result<Vec<Change>, AllocError>
    ensures { IfOk result (λ changes. IsPutAfter brace (import_text «module».now item.now) (map changed_of changes.items)) }
{
    let Some(column) = brace.column.checked_add(1) else {
        return Ok(Vec::new(alloc));
    };
    let line = brace.line;
    let place = Place { line, column };
    let mut changes = Vec::new(alloc);
    changes.push(Change {
        start: place,
        end: place,
        text: format!(in alloc; " import {module}{item} ;")?,
        is_checked: false,
    })?;
    Ok(changes)
}

/// Returns the change that writes an import of a module with this list into another one, of which this brace begins the body. There is none without a brace.
pub fn import_changes(
    alloc: Global,
    body: Option<Place>,
    module: &str,
    item: &str,
) -> Result<Vec<Change>, AllocError>
    ensures { IfOk result (λ changes. (source : List ℕ) → IfSome body (IsBrace source) → IsImportPut source (import_text «module».now item.now) (map changed_of changes.items)) }
{
    match body {
        Some(brace) => Ok(put_after(alloc, brace, module, item)?),
        None => Ok(Vec::new(alloc)),
    }
}
