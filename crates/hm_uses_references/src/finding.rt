//! The names that mean the same as the name at a place.
ghost use Rattle.std.specs.Prelude.{◌≡◌, ◌∷◌, ◌++◌, [], IfNone, IfOk, IfSome, IsTrue, OnOk, false, map};
ghost use Rattle.hm_uses_references.specs.References.{AreReferences, AreReferred, HasNoName, is_at, names_at, reference_of};

use crate::same::is_same_as_any;
use crate::set_uses::SetUse;
use hm_uses_places::{is_on, qualifier_len};
use std::alloc::{AllocError, Global};

/// A name in a source, without its qualifier.
#[derive(Clone, Copy, Debug, PartialEq, Eq)]
pub struct Reference {
    /// The number of the source.
    pub source: usize,
    /// The line, from 1.
    pub line: u32,
    /// The column of its first byte, counted in bytes from 1.
    pub column: usize,
    /// The number of its bytes.
    pub length: usize,
    /// Whether it is bound or declared here.
    pub binds: bool,
}

/// Returns whether a name is at a place of a source.
fn is_at(source: usize, line: u32, column: usize, one: &SetUse<'_>) -> bool
    ensures { result ≡ is_at source (record { line = line; column = column }) one.now }
{
    if one.source != source {
        return false;
    }
    is_on(line, column, one.used.name())
}

/// Returns the names at a place of a source, in the order of the list. The column counts bytes, from 1.
///
/// # Errors
///
/// If memory runs out.
pub fn names_at<'u, 'a>(
    alloc: Global,
    names: &'u [SetUse<'a>],
    source: usize,
    line: u32,
    column: usize,
) -> Result<Vec<&'u SetUse<'a>>, AllocError>
    ensures { IfOk result (λ found. map (λ n. n.now) found.items ≡ names_at source (record { line = line; column = column }) names.now) }
{
    let mut found = Vec::new(alloc);
    'names: for one in names {
        if is_at(source, line, column, one) {
            found.push(one)?;
        }
    }
    Ok(found)
}

/// Returns where a name is written, without its qualifier.
pub fn reference_of(one: &SetUse<'_>) -> Reference
    ensures { result ≡ reference_of one.now }
{
    let name = one.used.name();
    let column = name.place.column as u64 + qualifier_len(&name.qualifier);
    Reference {
        source: one.source,
        line: name.place.line,
        column: column as usize,
        length: name.as_str().len(),
        binds: one.used.binds(),
    }
}

/// Appends where a name is written, if it is chosen.
fn add(found: &mut Vec<Reference>, one: &SetUse<'_>, chosen: bool) -> Result<(), AllocError>
    ensures yes { OnOk result (IsTrue chosen → found.new.items ≡ found.old.items ++ reference_of one.now ∷ []) }
    ensures none { OnOk result (chosen ≡ false → found.new.items ≡ found.old.items) }
{
    if chosen {
        found.push(reference_of(one))?;
    }
    Ok(())
}

/// Returns where names are written that mean the same as one of these.
fn referred(
    alloc: Global,
    names: &[SetUse<'_>],
    on: &[&SetUse<'_>],
) -> Result<Vec<Reference>, AllocError>
    ensures { IfOk result (λ found. AreReferred (map (λ n. n.now) on.now) names.now found.items) }
{
    let mut found = Vec::new(alloc);
    'names: for one in names {
        add(&mut found, one, is_same_as_any(on, one))?;
    }
    Ok(found)
}

/// Returns where the names of a set are written that mean the same as the name at a place of a source, in the order of the list. The column counts
/// bytes, from 1. Returns `None` if no name is at the place.
///
/// A name that isn't bound, or is ambiguous, means the same as no other. After `hiding`, a name without a list is that of a type and of a constructor:
/// then the names are those of both.
///
/// # Errors
///
/// If memory runs out.
pub fn references_at(
    alloc: Global,
    names: &[SetUse<'_>],
    source: usize,
    line: u32,
    column: usize,
) -> Result<Option<Vec<Reference>>, AllocError>
    ensures some { IfOk result (λ found. IfSome found (λ references. AreReferences names.now source (record { line = line; column = column }) references.items)) }
    ensures none { IfOk result (λ found. IfNone found (HasNoName names.now source (record { line = line; column = column }))) }
{
    let on = names_at(alloc, names, source, line, column)?;
    if on.is_empty() {
        return Ok(None);
    }
    Ok(Some(referred(alloc, names, on.as_slice())?))
}
