//! The changes of a mend.
ghost use Rattle.std.specs.Prelude.{◌≡◌, ◌≤◌, ◌<◌, ◌++◌, [], ◌∷◌, IfOk, codes, length, map};
ghost use Rattle.hm_messages_json.specs.Edits.{changed_of};
ghost use Rattle.hm_messages_changes.specs.Exchanges.{bracketed as bracketed_bytes};
ghost use Rattle.hm_messages_changes.specs.Holes.{IsPartOf};
ghost use Rattle.hm_messages_edits.specs.Edits.{HasChanges, HasPartsIn, around as around_edits, before as before_edits, changed_in, edits_of, exchange as exchange_edits, insertion_edits, removal as removal_edits};
ghost use Rattle.hm_messages_edits.specs.Viewed.{IsEditIn, edit_of};

use hm_messages_changes::{Insertion, SourceRange, place_of_byte};
use hm_messages_json::Change;
use hm_messages_trials::Mend;
use std::alloc::{AllocError, Global};

/// The length from which on a source may have a place of more than 32 bits.
pub(crate) const TOO_LONG: usize = 4_294_967_295;

/// A text in place of the bytes from one number up to another.
#[derive(Clone, Copy)]
struct Edit<'a> {
    from: usize,
    to: usize,
    text: &'a [u8],
}

/// Returns an edit of a source as a change.
fn change_of(alloc: Global, source: &[u8], edit: Edit<'_>) -> Result<Change, AllocError>
    requires inside { IsEditIn source.now edit }
    requires short { length source.now < 4294967295 }
    ensures { IfOk result (λ change. changed_of change ≡ changed_in source.now (edit_of edit.entry)) }
{
    let Edit { from, to, text } = edit;
    let text = String::from_utf8_lossy(alloc, text)?;
    Ok(Change {
        start: place_of_byte(source, from),
        end: place_of_byte(source, to),
        text,
        is_checked: true,
    })
}

/// Returns an edit as the only change.
fn one(alloc: Global, source: &[u8], edit: Edit<'_>) -> Result<Vec<Change>, AllocError>
    requires inside { IsEditIn source.now edit }
    requires short { length source.now < 4294967295 }
    ensures { IfOk result (λ changes. map changed_of changes.items ≡ changed_in source.now (edit_of edit.entry) ∷ []) }
{
    let mut changes = Vec::new(alloc);
    changes.push(change_of(alloc, source, edit)?)?;
    Ok(changes)
}

/// Returns two edits as changes.
fn two(
    alloc: Global,
    source: &[u8],
    first: Edit<'_>,
    second: Edit<'_>,
) -> Result<Vec<Change>, AllocError>
    requires first { IsEditIn source.now first }
    requires second { IsEditIn source.now second }
    requires short { length source.now < 4294967295 }
    ensures { IfOk result (λ changes. map changed_of changes.items
        ≡ changed_in source.now (edit_of first.entry) ∷ changed_in source.now (edit_of second.entry) ∷ []) }
{
    let mut changes = Vec::new(alloc);
    changes.push(change_of(alloc, source, first)?)?;
    changes.push(change_of(alloc, source, second)?)?;
    Ok(changes)
}

/// Returns a part of a source in brackets.
fn bracketed(alloc: Global, source: &[u8], part: SourceRange) -> Result<Vec<u8>, AllocError>
    requires { IsPartOf source.now part }
    ensures { IfOk result (λ made. made.items ≡ bracketed_bytes source.now part) }
{
    let mut made = Vec::from_slice(alloc, b"(")?;
    made.extend_from_slice(&source[part.from..part.to])?;
    made.extend_from_slice(b")")?;
    Ok(made)
}

/// Returns the changes that exchange two parts.
fn exchange(
    alloc: Global,
    source: &[u8],
    first: SourceRange,
    second: SourceRange,
) -> Result<Vec<Change>, AllocError>
    requires first { IsPartOf source.now first }
    requires second { IsPartOf source.now second }
    requires short { length source.now < 4294967295 }
    ensures { IfOk result (λ changes. map changed_of changes.items ≡ map (changed_in source.now) (exchange_edits source.now first second)) }
{
    let in_front = bracketed(alloc, source, second)?;
    let bracketed_text = bracketed(alloc, source, first)?;
    let first = Edit {
        from: first.from,
        to: first.to,
        text: in_front.as_slice(),
    };
    let second = Edit {
        from: second.from,
        to: second.to,
        text: bracketed_text.as_slice(),
    };
    Ok(two(alloc, source, first, second)?)
}

/// Returns the change that leaves a part out.
fn removal(alloc: Global, source: &[u8], part: SourceRange) -> Result<Vec<Change>, AllocError>
    requires part { IsPartOf source.now part }
    requires short { length source.now < 4294967295 }
    ensures { IfOk result (λ changes. map changed_of changes.items ≡ map (changed_in source.now) (removal_edits part)) }
{
    let edit = Edit {
        from: part.from,
        to: part.to,
        text: b"",
    };
    Ok(one(alloc, source, edit)?)
}

/// Returns the change that puts a text before a part.
fn before(
    alloc: Global,
    source: &[u8],
    part: SourceRange,
    text: &[u8],
) -> Result<Vec<Change>, AllocError>
    requires part { IsPartOf source.now part }
    requires short { length source.now < 4294967295 }
    ensures { IfOk result (λ changes. map changed_of changes.items ≡ map (changed_in source.now) (before_edits part text.now)) }
{
    let edit = Edit {
        from: part.from,
        to: part.from,
        text,
    };
    Ok(one(alloc, source, edit)?)
}

/// Returns the changes that put a text before a part, and one after it.
fn around(
    alloc: Global,
    source: &[u8],
    part: SourceRange,
    front: &[u8],
    back: &[u8],
) -> Result<Vec<Change>, AllocError>
    requires part { IsPartOf source.now part }
    requires short { length source.now < 4294967295 }
    ensures { IfOk result (λ changes. map changed_of changes.items ≡ map (changed_in source.now) (around_edits part front.now back.now)) }
{
    let first = Edit {
        from: part.from,
        to: part.from,
        text: front,
    };
    let second = Edit {
        from: part.to,
        to: part.to,
        text: back,
    };
    Ok(two(alloc, source, first, second)?)
}

/// Returns the changes that put a text in around a part, or before it. A missing argument isn't known, so there are none for it.
fn inserted(
    alloc: Global,
    source: &[u8],
    insertion: Insertion,
    part: SourceRange,
) -> Result<Vec<Change>, AllocError>
    requires part { IsPartOf source.now part }
    requires short { length source.now < 4294967295 }
    ensures { IfOk result (λ changes. map changed_of changes.items ≡ map (changed_in source.now) (insertion_edits insertion part)) }
{
    match insertion {
        Insertion::Brackets => Ok(around(alloc, source, part, b"(", b")")?),
        Insertion::ListBrackets => Ok(around(alloc, source, part, b"[", b"]")?),
        Insertion::Argument => Ok(Vec::new(alloc)),
        Insertion::Semicolon => Ok(before(alloc, source, part, b"; ")?),
        Insertion::Comma => Ok(before(alloc, source, part, b", ")?),
    }
}

/// Returns the changes that put a constructor in front of a part.
fn wrapped(
    alloc: Global,
    source: &[u8],
    name: &str,
    part: SourceRange,
) -> Result<Vec<Change>, AllocError>
    requires part { IsPartOf source.now part }
    requires short { length source.now < 4294967295 }
    ensures { IfOk result (λ changes. map changed_of changes.items
        ≡ map (changed_in source.now) (around_edits part (codes "(" ++ (name.now ++ codes " (")) (codes "))"))) }
{
    let mut front = Vec::from_slice(alloc, b"(")?;
    front.extend_from_slice(name.as_bytes())?;
    front.extend_from_slice(b" (")?;
    Ok(around(alloc, source, part, front.as_slice(), b"))")?)
}

// Why: docs/DECISIONS.md, "Edits".
/// Returns the changes of a mend: edits of the source with which the definition has a type. There are none if what comes in isn't known, as
/// another expression.
pub fn changes_of(alloc: Global, source: &[u8], mend: &Mend<'_>) -> Result<Vec<Change>, AllocError>
    requires { HasPartsIn source.now mend.now }
    ensures { IfOk result (λ changes. HasChanges source.now mend.now (map changed_of changes.items)) }
{
    if source.len() >= TOO_LONG {
        return Ok(Vec::new(alloc));
    }
    match mend {
        Mend::Expression(_) => Ok(Vec::new(alloc)),
        Mend::Pattern(_) => Ok(Vec::new(alloc)),
        Mend::Exchange(first, second) => Ok(exchange(alloc, source, *first, *second)?),
        Mend::Removal(part) => Ok(removal(alloc, source, *part)?),
        Mend::Sides(first, second) => Ok(exchange(alloc, source, *first, *second)?),
        Mend::Patterns(first, second) => Ok(exchange(alloc, source, *first, *second)?),
        Mend::Insertion(insertion, part) => Ok(inserted(alloc, source, *insertion, *part)?),
        Mend::Wrapped(name, part) => Ok(wrapped(alloc, source, name, *part)?),
    }
}
