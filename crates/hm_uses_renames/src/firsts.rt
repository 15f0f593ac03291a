//! Tables of the places where meanings are bound.
ghost use Rattle.std.specs.Prelude.{◌≡◌, IsTrue, length};
ghost use Rattle.hm_uses_renames.specs.Firsts.{ArePaired, IsPaired, number_at, spot_of};

use hm_uses_declarations::Meaning;
use hm_uses_references::{SetUse, is_same};
use std::alloc::{AllocError, Global};
use std::collections::HashMap;

/// Where a local variable or a type variable is bound: the number of the module, and the place.
#[derive(Clone, Copy, Hash, PartialEq, Eq)]
pub(crate) struct BindingPlace {
    number: usize,
    line: u32,
    column: u32,
}

/// A name for each spot of a list of names, by its number in the list.
#[derive(Drop)]
pub(crate) struct Firsts {
    table: HashMap<BindingPlace, usize>,
}

impl Firsts {
    /// Returns the number of a name whose meaning is bound at a spot.
    fn at(&self, spot: BindingPlace) -> Option<usize>
        ensures { result ≡ number_at self.now spot }
    {
        match self.table.get(&spot) {
            Some(number) => Some(*number),
            None => None,
        }
    }
}

/// Returns where the meaning of a name is bound, if a text binds it.
fn spot_of(one: &SetUse<'_>) -> Option<BindingPlace>
    ensures { result ≡ spot_of one.now }
{
    let number = one.number();
    match one.used().meaning() {
        Meaning::Local(place) => Some(BindingPlace {
            number,
            line: place.line,
            column: place.column,
        }),
        Meaning::TypeVariable(place) => Some(BindingPlace {
            number,
            line: place.line,
            column: place.column,
        }),
        Meaning::Entity(_) => None,
        Meaning::Module(_) => None,
        Meaning::Prefix(_) => None,
        Meaning::Unbound => None,
        Meaning::Ambiguous => None,
    }
}

/// Returns a name for each spot.
pub(crate) fn firsts_of(alloc: Global, names: &[SetUse<'_>]) -> Result<Firsts, AllocError> {
    let mut table = HashMap::new(alloc);
    'names: for number in 0..names.len() {
        match spot_of(&names[number]) {
            Some(spot) => {
                table.insert(spot, number)?;
            }
            None => {}
        }
    }
    Ok(Firsts { table })
}

/// Returns whether what a table has for a name is the number of a name that means the same as its counterpart.
fn is_paired(firsts: &Firsts, others: &[SetUse<'_>], one: &SetUse<'_>, other: &SetUse<'_>) -> bool
    ensures { IsTrue result → IsPaired (number_at firsts.now) others.now one.now other.now }
{
    let Some(spot) = spot_of(one) else {
        return true;
    };
    let Some(number) = firsts.at(spot) else {
        return false;
    };
    if number >= others.len() {
        return false;
    }
    is_same(&others[number], other)
}

/// Returns whether this is so for all names of a list, and those of another list in the same order.
pub(crate) fn are_paired(firsts: &Firsts, names: &[SetUse<'_>], others: &[SetUse<'_>]) -> bool
    requires { length names.now ≡ length others.now }
    ensures { IsTrue result → ArePaired (number_at firsts.now) names.now others.now }
{
    'names: for i in 0..names.len() {
        if !is_paired(firsts, others, &names[i], &others[i]) {
            return false;
        }
    }
    true
}
