//! Finds an imported module that declares a name, and doesn't export it.
ghost use Rattle.std.specs.Prelude.{◌<◌, ℕ, Contains, IfOk, IfSome, length};
ghost use Rattle.hm_verdicts.specs.Sets.{imports_of};
ghost use Rattle.hm_build_exporters.specs.Having.{IsPrivate};
ghost use Rattle.hm_build_exporters.specs.SettledSets.{IsComplete, set_of, status_in};

use crate::set::{SettledSet, interface_of};
use hm_lex::Place;
use hm_messages_exporters::{Looks, Missing, declared_at, is_exported};
use std::alloc::{AllocError, Global};

/// A module that declares a name and doesn't export it, and the place of the declaration.
#[derive(Clone, Copy)]
pub struct Private {
    pub number: usize,
    pub place: Place,
}

/// Returns the place where a good module declares a name, if it doesn't export it.
fn private_at(
    alloc: Global,
    set: &SettledSet<'_, '_>,
    number: usize,
    missing: Missing<'_>,
    looks: &mut Looks,
) -> Result<Option<Place>, AllocError>
    requires modules { number < length set.now.modules.now }
    requires settled { number < length set.now.settled.now }
    ensures { IfOk result (λ found. IfSome found (λ place. (i : ℕ) → Contains (imports_of (set_of set.now) i) number
        → IsPrivate (set_of set.now) (status_in set.now) i missing.entry.space missing.entry.name.now number place)) }
{
    let Some(interface) = interface_of(&set.settled[number]) else {
        return Ok(None);
    };
    if !looks.take(1) {
        return Ok(None);
    }
    if is_exported(interface, missing.space, missing.name) {
        return Ok(None);
    }
    Ok(declared_at(alloc, &set.modules[number], missing, looks)?)
}

/// Returns the first module that a module imports and that declares this name, but doesn't export it.
///
/// # Errors
///
/// If memory runs out.
pub fn private_in(
    alloc: Global,
    set: &SettledSet<'_, '_>,
    importer: usize,
    missing: Missing<'_>,
    looks: &mut Looks,
) -> Result<Option<Private>, AllocError>
    requires { IsComplete set.now importer }
    ensures within { IfOk result (λ found. IfSome found (λ p. p.number < length set.now.modules.now)) }
    ensures private { IfOk result (λ found. IfSome found (λ p. IsPrivate (set_of set.now) (status_in set.now) importer missing.entry.space missing.entry.name.now p.number p.place)) }
{
    let row = set.plan.imports(importer);
    'row: for number in row {
        let number = *number;
        match private_at(alloc, set, number, missing, looks)? {
            Some(place) => return Ok(Some(Private { number, place })),
            None => {}
        }
    }
    Ok(None)
}
