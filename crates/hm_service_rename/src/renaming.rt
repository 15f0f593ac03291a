//! Renames the name at a place of a held set.
ghost use Rattle.std.specs.Prelude.{◌≡◌, All, IfOk, IsTrue, false, map, true};
ghost use Rattle.std.specs.List.{Any};
ghost use Rattle.hm_service_rename.specs.Made.{AreReferencesTo, IsMade};
ghost use Rattle.hm_service_rename.specs.Renames.{IsAccepted, IsRenameResult};

use crate::changed::held_with;
use crate::comparing::are_names_renamed;
use crate::good::is_as_good;
use crate::results::{Rename, RenameRefusal, Renamed};
use crate::spelling::is_name;
use crate::texts::renamed_texts;
use crate::whole::{current_texts, is_whole};
use hm_service::check;
use hm_service_places::{Checked, CheckedSet, ServiceFault};
use hm_service_references::references_of;
use hm_service_sources::HeldSource;
use hm_uses_references::Reference;
use std::alloc::Global;
use std::sync::Wait;
use std::thread::Threads;

/// Returns whether a name is bound at one of these references.
pub(crate) fn is_bound(references: &[Reference]) -> bool
    ensures yes { IsTrue result → Any (λ r. r.binds ≡ true) references.now }
    ensures no { result ≡ false → All (λ r. r.binds ≡ false) references.now }
{
    'references: for reference in references {
        if reference.binds {
            return true;
        }
    }
    false
}

/// The set that a rename makes, or why it isn't made.
#[derive(Drop)]
enum Made {
    Held(Vec<HeldSource>),
    Refused(RenameRefusal),
}

/// Returns the set with a new name in place of references.
fn made_with<T: Threads>(
    rt: &T,
    alloc: Global,
    texts: &[Vec<u8>],
    references: &[Reference],
    name: &str,
) -> Result<Made, ServiceFault>
    ensures { IfOk result (IsMade (map (λ s. s.items) texts.now) name.now references.now) }
{
    let Some(made) = renamed_texts(alloc, texts, references, name)? else {
        return Ok(Made::Refused(RenameRefusal::NotSame));
    };
    match held_with(rt, alloc, made.as_slice())? {
        Some(held) => Ok(Made::Held(held)),
        None => Ok(Made::Refused(RenameRefusal::NotRead)),
    }
}

/// Checks the set that a rename makes, and returns whether only the name is another one in it.
fn is_accepted<T: Threads + Wait + Sync>(
    rt: &T,
    alloc: Global,
    set: &CheckedSet<'_>,
    held: &[HeldSource],
    rename: &Rename<'_>,
) -> Result<bool, ServiceFault>
    ensures { IfOk result (λ accepted. IsTrue accepted → IsAccepted set.now held.now rename.now) }
{
    let after = check(rt, alloc, held, &[set.checked], set.workers)?;
    if !is_as_good(alloc, set.checked, &after)? {
        return Ok(false);
    }
    Ok(are_names_renamed(rt, alloc, set.checked, &after, rename)?)
}

/// Returns the references to the name at a place, or why it isn't renamed.
fn references_to<T: Threads + Wait + Sync>(
    rt: &T,
    alloc: Global,
    checked: &Checked,
    rename: &Rename<'_>,
) -> Result<Renamed, ServiceFault>
    ensures { IfOk result (AreReferencesTo checked.now rename.now) }
{
    let (source, line, column) = (rename.source, rename.line, rename.column);
    let Some(references) = references_of(rt, alloc, checked, source, line, column)? else {
        return Ok(Renamed::Refused(RenameRefusal::NoName));
    };
    if !is_bound(references.as_slice()) {
        return Ok(Renamed::Refused(RenameRefusal::NotBound));
    }
    if !is_name(alloc, rename.name)? {
        return Ok(Renamed::Refused(RenameRefusal::NotAName));
    }
    Ok(Renamed::Edits(references))
}

// Why: docs/DECISIONS.md, "Renames of a held set".
/// Renames the name at a place of a held set: returns all places where it is written, if the checker accepts the set with the new name there. Each name
/// of that set means what it meant, the same modules are good, and each source has as many diagnostics.
///
/// # Errors
///
/// - `Workers` if the number of workers is 0 or above 16.
/// - `Memory` if memory ran out, and `NoWorker` if no thread could start.
/// - `Mixed` if the workers contradict the store, or two results each other.
pub fn rename_of<T: Threads + Wait + Sync>(
    rt: &T,
    alloc: Global,
    set: &CheckedSet<'_>,
    rename: &Rename<'_>,
) -> Result<Renamed, ServiceFault>
    ensures { IfOk result (IsRenameResult set.now rename.now) }
{
    let texts = current_texts(alloc, set.held)?;
    if !is_whole(texts.as_slice(), set.checked) {
        return Ok(Renamed::Refused(RenameRefusal::NotWhole));
    }
    let references = match references_to(rt, alloc, set.checked, rename)? {
        Renamed::Edits(references) => references,
        Renamed::Refused(refusal) => return Ok(Renamed::Refused(refusal)),
    };
    let made = made_with(
        rt,
        alloc,
        texts.as_slice(),
        references.as_slice(),
        rename.name,
    )?;
    let held = match made {
        Made::Held(held) => held,
        Made::Refused(refusal) => return Ok(Renamed::Refused(refusal)),
    };
    if !is_accepted(rt, alloc, set, held.as_slice(), rename)? {
        return Ok(Renamed::Refused(RenameRefusal::NotSame));
    }
    Ok(Renamed::Edits(references))
}
