//! Collects the variables that occur in types.

ghost use Rattle.std.specs.Prelude.{◌≡◌, ℕ, List, [], length, take, true, false, MatchOption, OnOk};
ghost use Rattle.hm_types.specs.Monotypes.{Leaf, var, rigid};
ghost use Rattle.hm_types.specs.Shape.{type_of};
ghost use Rattle.hm_types.specs.Types.{In};
ghost use Rattle.hm_types.specs.Schemes.{is_among, place};
ghost use Rattle.hm_infer_generalisation.specs.Collected.{Gathers, has_leaf};
ghost use Rattle.hm_infer_generalisation.specs.Places.{AreNoted, IsPlaceOf, few, with_number};

use hm_types::Ty;
use std::alloc::{AllocError, Global};
use std::collections::HashMap;
use std::marker::Model;

// Why: docs/DECISIONS.md, "Few names".
/// The number of variables that are searched one by one. The table has the others. Most types have
/// few variables, and filling a table costs more than searching a few numbers.
const FEW: usize = 8;

/// Different numbers. Contracts see them as a list, in the order in which they were added. A table
/// has the place of each number after the first few.
#[derive(Drop)]
pub(crate) struct Seen {
    numbers: Vec<usize>,
    places: HashMap<usize, usize>,
}

impl Model for Seen {
    ghost use Rattle.std.specs.Prelude.{ℕ, List};

    ghost Value = { List ℕ };

    ghost view = { λ s. s.numbers.items };

    ghost use Rattle.hm_infer_generalisation.specs.Places.{AreNoted};

    ghost invariant = { λ s. AreNoted s.numbers.items s.places };
}

impl Seen {
    /// Returns an empty list.
    fn new(alloc: Global) -> Seen
        ensures { result ≡ [] }
    {
        Seen {
            numbers: Vec::new(alloc),
            places: HashMap::new(alloc),
        }
    }

    /// Returns how many numbers there are.
    pub(crate) fn len(&self) -> usize
        ensures { result ≡ length self.now }
    {
        self.numbers.len()
    }

    /// Returns the place of a number, or the count if it wasn't added.
    pub(crate) fn place_of(&self, n: usize) -> usize
        ensures { result ≡ place n self.now }
    {
        place_in(&self.numbers, &self.places, n)
    }

    /// Adds a number, unless it was added before.
    fn add(&mut self, n: usize) -> Result<(), AllocError>
        ensures { OnOk result (self.new ≡ with_number n self.old) }
    {
        let count = self.numbers.len();
        if place_in(&self.numbers, &self.places, n) < count {
            return Ok(());
        }
        self.numbers.push(n)?;
        if count < FEW {
            return Ok(());
        }
        match self.places.insert(n, count) {
            Ok(_) => Ok(()),
            Err(_) => {
                self.numbers.pop();
                Err(AllocError)
            }
        }
    }
}

/// Returns the place of a number among the first few, if it is one of them.
fn place_among_few(numbers: &[usize], n: usize) -> Option<usize>
    ensures { MatchOption result (is_among n (take few numbers.now) ≡ false) (λ p. IsPlaceOf n numbers.now p) }
{
    let count = FEW.min(numbers.len());
    'numbers: for place in 0..count {
        if numbers[place] == n {
            return Some(place);
        }
    }
    None
}

/// Returns the place of a number in a list, or the length of the list.
fn place_in(numbers: &[usize], places: &HashMap<usize, usize>, n: usize) -> usize
    ensures { AreNoted numbers.now places.now → result ≡ place n numbers.now }
{
    match place_among_few(numbers, n) {
        Some(place) => return place,
        None => {}
    }
    let count = numbers.len();
    if count <= FEW {
        return count;
    }
    match places.get(&n) {
        Some(place) => *place,
        None => count,
    }
}

/// The variables of types, and their rigid variables.
#[derive(Drop)]
pub(crate) struct Collected {
    pub plain: Seen,
    pub rigid: Seen,
}

/// Returns an empty collection.
pub(crate) fn none_collected(alloc: Global) -> Collected
    ensures empty { (l : Leaf) → ¬ (has_leaf result l ≡ true) }
{
    Collected {
        plain: Seen::new(alloc),
        rigid: Seen::new(alloc),
    }
}

/// Adds a variable.
pub(crate) fn see_plain(seen: &mut Collected, n: usize) -> Result<(), AllocError>
    ensures { OnOk result (Gathers (λ l. l ≡ var n) seen.old seen.new) }
{
    seen.plain.add(n)?;
    Ok(())
}

/// Adds a rigid variable.
pub(crate) fn see_rigid(seen: &mut Collected, n: usize) -> Result<(), AllocError>
    ensures { OnOk result (Gathers (λ l. l ≡ rigid n) seen.old seen.new) }
{
    seen.rigid.add(n)?;
    Ok(())
}

/// Adds the variables of a type.
pub(crate) fn collect(seen: &mut Collected, t: &Ty) -> Result<(), AllocError>
    ensures { OnOk result (Gathers (λ l. In l (type_of t.now)) seen.old seen.new) }
{
    match t {
        Ty::Var(n) => see_plain(seen, *n)?,
        Ty::Rigid(n) => see_rigid(seen, *n)?,
        Ty::App(_, arguments) => {
            for argument in arguments.as_slice() {
                collect(seen, argument)?;
            }
        }
    }
    Ok(())
}
