//! The canonical scheme of a type.

ghost use Rattle.std.specs.Prelude.{◌≡◌, ℕ, List, IfOk, IfSome, OnOk};
ghost use Rattle.hm_types.specs.Types.{Var as leaf};
ghost use Rattle.hm_types.specs.Monotypes.{var};
ghost use Rattle.hm_types.specs.Shape.{type_of};
ghost use Rattle.hm_types.specs.Substitution.{substitute};
ghost use Rattle.hm_types.specs.Schemes.{HasArities, HasNoRigid, canonical_of, count_up, place, numbering, variables_after};
ghost use Rattle.hm_types.specs.Numbers.{Numbers};

use hm_types::{Scheme, Ty, Types};
use std::alloc::{AllocError, Global};
use std::collections::HashMap;

/// Returns the scheme of a type with all variables quantified, and numbered by first occurrence.
pub fn canonical(alloc: Global, body: &Ty) -> Result<Scheme, AllocError>
    requires not_rigid { HasNoRigid (type_of body.now) }
    requires arities { HasArities (type_of body.now) }
    ensures { IfOk result (λ scheme. scheme ≡ canonical_of (type_of body.now)) }
{
    if let Some(count) = count_in_order(0, body) {
        return Ok(Scheme::new(count, body.copy(alloc)?));
    }
    let mut places = HashMap::new(alloc);
    collect(&mut places, body)?;
    let numbered = renumber(alloc, &places, body)?;
    Ok(Scheme::new(places.len(), numbered))
}

/// Returns the number of variables up to the end of a type that comes after `next` variables, if they
/// are numbered by first occurrence. Most types are: this one walk spares them a table and a renaming.
fn count_in_order(next: usize, t: &Ty) -> Option<usize>
    ensures { IfSome result (λ count. variables_after (count_up 0 next) (type_of t.now) ≡ count_up 0 count) }
{
    match t {
        Ty::Var(n) => {
            if *n < next {
                return Some(next);
            }
            if *n > next {
                return None;
            }
            next.checked_add(1)
        }
        Ty::Rigid(_) => Some(next),
        Ty::App(_, arguments) => {
            let mut count = next;
            for argument in arguments.as_slice() {
                let Some(behind) = count_in_order(count, argument) else {
                    return None;
                };
                count = behind;
            }
            Some(count)
        }
    }
}

/// Adds the variables of a type to those in the table, in order of first occurrence.
fn collect(places: &mut HashMap<usize, usize>, t: &Ty) -> Result<(), AllocError>
    ensures { OnOk result ((xs : List ℕ) → Numbers places.old xs → Numbers places.new (variables_after xs (type_of t.now))) }
{
    match t {
        Ty::Var(n) => see(places, *n)?,
        Ty::Rigid(_) => {}
        Ty::App(_, arguments) => {
            for argument in arguments.as_slice() {
                collect(places, argument)?;
            }
        }
    }
    Ok(())
}

/// Adds a variable to the table, unless it is there.
fn see(places: &mut HashMap<usize, usize>, n: usize) -> Result<(), AllocError>
    ensures { OnOk result ((xs : List ℕ) → Numbers places.old xs → Numbers places.new (variables_after xs (leaf (var n)))) }
{
    if places.contains_key(&n) {
        return Ok(());
    }
    let next = places.len();
    places.insert(n, next)?;
    Ok(())
}

/// Returns the place of a variable in the table, or the length of the table.
fn place_of(places: &HashMap<usize, usize>, n: usize) -> usize
    ensures { (xs : List ℕ) → Numbers places.now xs → result ≡ place n xs }
{
    match places.get(&n) {
        Some(place) => *place,
        None => places.len(),
    }
}

/// Returns the type with each variable numbered by its place.
fn renumber(alloc: Global, places: &HashMap<usize, usize>, t: &Ty) -> Result<Ty, AllocError>
    ensures { IfOk result (λ u. (xs : List ℕ) → Numbers places.now xs → type_of u ≡ substitute (numbering xs) (type_of t.now)) }
{
    match t {
        Ty::Var(n) => Ok(Ty::Var(place_of(places, *n))),
        Ty::Rigid(n) => Ok(Ty::Rigid(*n)),
        Ty::App(head, arguments) => {
            let row = arguments.as_slice();
            let mut numbered = Vec::with_capacity(alloc, row.len())?;
            for argument in row {
                numbered.push(renumber(alloc, places, argument)?)?;
            }
            Ok(Ty::App(head.copy()?, Types::new(numbered)))
        }
    }
}
