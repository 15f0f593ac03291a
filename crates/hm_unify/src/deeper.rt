//! The variables of a type that don't occur in the value of an older variable.

ghost use Rattle.std.specs.Prelude.{◌≡◌, ◌||◌, ◌++◌, ◌∷◌, [], if◌then◌else◌, OnOk};
ghost use Rattle.hm_types.specs.Monotypes.{var, rigid};
ghost use Rattle.hm_types.specs.Numbers.{Numbers};
ghost use Rattle.hm_types.specs.Schemes.{is_among};
ghost use Rattle.hm_types.specs.Shape.{type_of};
ghost use Rattle.hm_unify.specs.Levels.{is_outer, deeper_after};
ghost use Rattle.hm_unify.specs.LevelTables.{IsLevelled};
ghost use Rattle.hm_unify.specs.Steps.{equations_in, IsSound};

use crate::bindings::Bindings;
use crate::levels::Levels;
use hm_types::Ty;
use std::alloc::{AllocError, Global};
use std::collections::HashMap;

/// Returns whether a variable occurs in the value of one of the first `count` variables.
pub(crate) fn is_outer_variable(
    bindings: &Bindings,
    levels: &Levels,
    count: usize,
    number: usize,
) -> bool
    requires sound { IsSound bindings.now }
    requires levelled { IsLevelled (equations_in bindings.now) levels.now }
    ensures { result ≡ is_outer (equations_in bindings.now) count (var number) }
{
    if bindings.is_bound(number) {
        return false;
    }
    levels.of_variable(number) < count
}

/// Returns the same for a rigid variable.
pub(crate) fn is_outer_rigid(
    bindings: &Bindings,
    levels: &Levels,
    count: usize,
    number: usize,
) -> bool
    requires { IsLevelled (equations_in bindings.now) levels.now }
    ensures { result ≡ is_outer (equations_in bindings.now) count (rigid number) }
{
    let _ = bindings;
    levels.of_rigid(number) < count
}

/// Numbers in the order in which they were seen, with a table of the place of each.
#[derive(Drop)]
pub(crate) struct Seen {
    pub numbers: Vec<usize>,
    pub places: HashMap<usize, usize>,
}

/// Returns an empty list.
pub(crate) fn none_seen(alloc: Global) -> Seen
    ensures numbers { result.numbers.items ≡ [] }
    ensures placed { Numbers result.places result.numbers.items }
{
    Seen {
        numbers: Vec::new(alloc),
        places: HashMap::new(alloc),
    }
}

/// Adds a number, unless it was seen before or is that of an outer variable.
fn see(seen: &mut Seen, is_outer: bool, number: usize) -> Result<(), AllocError>
    requires { Numbers seen.old.places seen.old.numbers.items }
    ensures numbers { OnOk result (seen.new.numbers.items
        ≡ (if is_outer || is_among number seen.old.numbers.items then seen.old.numbers.items else (seen.old.numbers.items ++ number ∷ []))) }
    ensures placed { OnOk result (Numbers seen.new.places seen.new.numbers.items) }
{
    if is_outer {
        return Ok(());
    }
    if seen.places.contains_key(&number) {
        return Ok(());
    }
    let place = seen.places.len();
    seen.places.insert(number, place)?;
    seen.numbers.push(number)?;
    Ok(())
}

/// Adds the numbers of a type's variables that aren't in the value of any of the first `count`
/// variables.
pub(crate) fn collect_deeper(
    bindings: &Bindings,
    levels: &Levels,
    count: usize,
    seen: &mut Seen,
    t: &Ty,
) -> Result<(), AllocError>
    requires sound { IsSound bindings.now }
    requires levelled { IsLevelled (equations_in bindings.now) levels.now }
    requires placed { Numbers seen.old.places seen.old.numbers.items }
    ensures numbers { OnOk result (seen.new.numbers.items ≡ deeper_after (equations_in bindings.now) count seen.old.numbers.items (type_of t.now)) }
    ensures placed { OnOk result (Numbers seen.new.places seen.new.numbers.items) }
{
    match t {
        Ty::Var(n) => {
            let outer = is_outer_variable(bindings, levels, count, *n);
            see(seen, outer, *n)?;
        }
        Ty::Rigid(n) => {
            let outer = is_outer_rigid(bindings, levels, count, *n);
            see(seen, outer, *n)?;
        }
        Ty::App(_, arguments) => {
            for argument in arguments.as_slice() {
                collect_deeper(bindings, levels, count, seen, argument)?;
            }
        }
    }
    Ok(())
}
