//! Levels of variables. The level of a variable is the least number of a variable in whose value it occurs.

ghost use Rattle.std.specs.Prelude.{◌≡◌, ◌<◌, ◌≤◌, ℕ, [], OnOk, length};
ghost use Rattle.hm_types.specs.Monotypes.{Leaf, var, rigid};
ghost use Rattle.hm_types.specs.Shape.{type_of};
ghost use Rattle.hm_unify.specs.Levels.{has, number_of};
ghost use Rattle.hm_unify.specs.LevelTables.{level_in, table_level, table_level_before, TableIsWithin, TableContinues, TableLowers, level_of, level_of_before, IsWithin, Continues, Lowers, HasNoChanges};

use hm_types::Ty;
use std::alloc::{AllocError, Global};

/// A number whose level was lowered, with its former level.
#[derive(Drop)]
struct Change {
    number: usize,
    level: usize,
}

// Why: docs/DECISIONS.md, "Levels of variables".
/// A level for each number: the number itself, unless the table has a lower one. Keeps the changes
/// since the last `keep`, so that they can be undone.
#[derive(Drop)]
struct LevelTable {
    levels: Vec<usize>,
    changes: Vec<Change>,
}

impl LevelTable {
    fn new(alloc: Global) -> LevelTable
        ensures own { (n : ℕ) → table_level result n ≡ n }
        ensures unchanged { result.changes.items ≡ [] }
    {
        LevelTable {
            levels: Vec::new(alloc),
            changes: Vec::new(alloc),
        }
    }

    fn of(&self, number: usize) -> usize
        ensures { result ≡ table_level self.now number }
    {
        if number < self.levels.len() {
            self.levels[number]
        } else {
            number
        }
    }

    /// Lowers the level of a number to this one, unless it is as low.
    fn lower(&mut self, number: usize, level: usize) -> Result<(), AllocError>
        ensures lowered { OnOk result (TableLowers number level self.old self.new) }
        ensures continued { TableContinues self.old self.new }
    {
        let before = self.of(number);
        if before <= level {
            return Ok(());
        }
        grow(&mut self.levels, number)?;
        self.changes.push(Change {
            number,
            level: before,
        })?;
        self.levels[number] = level;
        Ok(())
    }

    /// Undoes all changes since the last `keep`.
    fn undo(&mut self)
        requires { TableIsWithin self.old }
        ensures levels { (n : ℕ) → table_level self.new n ≡ table_level_before self.old n }
        ensures unchanged { self.new.changes.items ≡ [] }
    {
        while let Some(change) = self.changes.pop() {
            self.levels[change.number] = change.level;
        }
    }

    /// Makes all changes permanent.
    fn keep(&mut self)
        ensures levels { (n : ℕ) → table_level self.new n ≡ table_level self.old n }
        ensures unchanged { self.new.changes.items ≡ [] }
    {
        self.changes.clear();
    }
}

// Why: docs/DECISIONS.md, "Room of a solver".
/// The number of levels for which room is made at once.
const ROOM: usize = 1024;

/// Grows the table so that it has a level for this number.
fn grow(levels: &mut Vec<usize>, number: usize) -> Result<(), AllocError>
    ensures same { (n : ℕ) → level_in levels.new.items n ≡ level_in levels.old.items n }
    ensures longer { length levels.old.items ≤ length levels.new.items }
    ensures room { OnOk result (number < length levels.new.items) }
{
    if levels.is_empty() {
        levels.reserve(ROOM)?;
    }
    while levels.len() <= number {
        let next = levels.len();
        levels.push(next)?;
    }
    Ok(())
}

/// The levels of variables, and those of rigid variables.
#[derive(Drop)]
pub(crate) struct Levels {
    variables: LevelTable,
    rigids: LevelTable,
}

impl Levels {
    /// Returns levels at which each variable has its own number.
    pub(crate) fn new(alloc: Global) -> Levels
        ensures own { (x : Leaf) → level_of result x ≡ number_of x }
        ensures unchanged { HasNoChanges result }
    {
        Levels {
            variables: LevelTable::new(alloc),
            rigids: LevelTable::new(alloc),
        }
    }

    /// Returns the level of a variable.
    pub(crate) fn of_variable(&self, number: usize) -> usize
        ensures { result ≡ level_of self.now (var number) }
    {
        self.variables.of(number)
    }

    /// Returns the level of a rigid variable.
    pub(crate) fn of_rigid(&self, number: usize) -> usize
        ensures { result ≡ level_of self.now (rigid number) }
    {
        self.rigids.of(number)
    }

    /// Lowers the levels of all variables of a type to this one, unless they are as low.
    pub(crate) fn lower(&mut self, t: &Ty, level: usize) -> Result<(), AllocError>
        ensures lowered { OnOk result (Lowers (λ x. has x (type_of t.now)) level self.old self.new) }
        ensures continued { Continues self.old self.new }
    {
        match t {
            Ty::Var(n) => self.variables.lower(*n, level)?,
            Ty::Rigid(n) => self.rigids.lower(*n, level)?,
            Ty::App(_, arguments) => {
                for argument in arguments.as_slice() {
                    self.lower(argument, level)?;
                }
            }
        }
        Ok(())
    }

    /// Undoes all changes since the last `keep`.
    pub(crate) fn undo(&mut self)
        requires { IsWithin self.old }
        ensures levels { (x : Leaf) → level_of self.new x ≡ level_of_before self.old x }
        ensures unchanged { HasNoChanges self.new }
    {
        self.variables.undo();
        self.rigids.undo();
    }

    /// Makes all changes permanent.
    pub(crate) fn keep(&mut self)
        ensures levels { (x : Leaf) → level_of self.new x ≡ level_of self.old x }
        ensures unchanged { HasNoChanges self.new }
    {
        self.variables.keep();
        self.rigids.keep();
    }
}
