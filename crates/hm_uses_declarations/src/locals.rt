//! The binders of local variables around a place.
ghost use Rattle.std.specs.Prelude.{◌≡◌, ◌∷◌, ◌++◌, [], ℕ, List, true, false, cond, map, reverse, length, option_map, OnOk, IfOk};
ghost use Rattle.std.specs.Borrow.{Bor};
ghost use Rattle.hm_names.specs.Texts.{same_text};
ghost use Rattle.hm_uses.specs.Found.{first_named};
ghost use Rattle.hm_uses_declarations.specs.Walking.{all_of, innermost, outer_of};
ghost use Rattle.hm_uses_declarations.specs.Bindings.{IsTable, bindings_of, bound_around, bound_in, last_of, place_of};
ghost use Rattle.hm_uses_declarations.specs.declared.locals.Binding.{Binding};

use hm_lex::Place;
use hm_names::LentNames;
use hm_syntax::Name;
use std::alloc::{AllocError, Global};
use std::collections::HashMap;
use std::marker::Model;

/// Where a local variable is bound, and how many lists of binders are around that one.
#[derive(Clone, Copy)]
struct Binding {
    place: Place,
    depth: usize,
}

// Why: docs/DECISIONS.md, "Bindings of a text".
/// The binders around a place, in lists. Contracts see the innermost list first.
///
/// A table has the bindings of each text, the innermost one last. So the time of a look-up doesn't depend on nesting.
pub(crate) struct Locals<'a> {
    alloc: Global,
    groups: Vec<LentNames<'a>>,
    table: HashMap<&'a str, Vec<Binding>>,
}

impl Drop for Locals<'_> {
    fn drop(self) {
        let Locals {
            alloc: _,
            groups: _groups,
            table: _table,
        } = self;
    }
}

impl<'a> Model for Locals<'a> {
    ghost use Rattle.std.specs.Prelude.{List, reverse};
    ghost use Rattle.hm_syntax.specs.Names.{Identifier};
    ghost use Rattle.hm_uses_declarations.specs.Bindings.{IsTable};

    ghost Value = { List (List Identifier) };

    ghost view = { λ l. reverse l.groups.items };

    ghost invariant = { λ l. IsTable (reverse l.groups.items) l.table };
}

impl<'a> Locals<'a> {
    /// Returns no binders.
    pub(crate) fn new(alloc: Global) -> Locals<'a>
        ensures { result ≡ [] }
    {
        Locals {
            alloc,
            groups: Vec::new(alloc),
            table: HashMap::new(alloc),
        }
    }

    /// Puts a list of binders around what follows. If memory runs out, binders may be missing afterwards.
    pub(crate) fn enter(&mut self, names: LentNames<'a>) -> Result<(), AllocError>
        ensures { OnOk result (self.new ≡ names.entry ∷ self.old) }
    {
        match enter_group(self.alloc, &mut self.groups, &mut self.table, names) {
            Ok(()) => Ok(()),
            Err(AllocError) => {
                self.groups = Vec::new(self.alloc);
                self.table = HashMap::new(self.alloc);
                Err(AllocError)
            }
        }
    }

    /// Takes the innermost list of binders away.
    pub(crate) fn leave(&mut self)
        ensures { self.new ≡ outer_of self.old }
    {
        leave_group(&mut self.groups, &mut self.table);
    }

    /// Returns the number of lists.
    pub(crate) fn len(&self) -> usize
        ensures { result ≡ length self.now }
    {
        self.groups.len()
    }

    /// Returns the place of the innermost binder of a text.
    pub(crate) fn place_of(&self, text: &str) -> Option<Place>
        ensures { result ≡ option_map place_of (first_named text.now (all_of self.now)) }
    {
        let Some(binding) = last_binding(&self.table, text) else {
            return None;
        };
        Some(binding.place)
    }

    /// Returns the place of the binder of a text in the innermost list.
    pub(crate) fn place_in_list(&self, text: &str) -> Option<Place>
        ensures { result ≡ option_map place_of (first_named text.now (innermost self.now)) }
    {
        let Some(binding) = last_binding(&self.table, text) else {
            return None;
        };
        if binding.depth < self.groups.len().saturating_sub(1) {
            return None;
        }
        Some(binding.place)
    }
}

/// Returns the last binding of a text.
fn last_binding(table: &HashMap<&str, Vec<Binding>>, text: &str) -> Option<Binding>
    ensures { result ≡ last_of (bindings_of table.now text.entry) }
{
    match table.get(text) {
        None => None,
        Some(bindings) => bindings.last().copied(),
    }
}

/// Adds a binding of a text.
fn add_binding<'a>(
    alloc: Global,
    table: &mut HashMap<&'a str, Vec<Binding>>,
    text: &'a str,
    binding: Binding,
) -> Result<(), AllocError>
    ensures { OnOk result ((x : Bor (List ℕ)) → bindings_of table.new x
        ≡ cond (same_text text.now x.now) (bindings_of table.old x ++ binding ∷ []) (bindings_of table.old x)) }
{
    if let Some(bindings) = table.get_mut(text) {
        bindings.push(binding)?;
        return Ok(());
    }
    let mut bindings = Vec::new(alloc);
    bindings.push(binding)?;
    table.insert(text, bindings)?;
    Ok(())
}

/// Removes the last binding of a text.
fn remove_binding(table: &mut HashMap<&str, Vec<Binding>>, text: &str)
    ensures others { (x : Bor (List ℕ)) → same_text text.now x.now ≡ false → bindings_of table.new x ≡ bindings_of table.old x }
    ensures last { (x : Bor (List ℕ)) (bs : List Binding) (b : Binding) → same_text text.now x.now ≡ true → bindings_of table.old x ≡ bs ++ b ∷ [] → bindings_of table.new x ≡ bs }
{
    if let Some(bindings) = table.get_mut(text) {
        bindings.pop();
    }
}

/// Adds the bindings of a list of binders, the last one first.
fn add_bindings<'a>(
    alloc: Global,
    table: &mut HashMap<&'a str, Vec<Binding>>,
    names: &[&'a Name],
    depth: usize,
) -> Result<(), AllocError>
    ensures { OnOk result ((x : Bor (List ℕ)) → bindings_of table.new x
        ≡ bindings_of table.old x ++ bound_in depth x.now (map (λ n. n.now) names.now)) }
{
    'names: for behind in 0..names.len() {
        let place = names.len() - 1 - behind;
        let name = names[place];
        let binding = Binding {
            place: name.place,
            depth,
        };
        add_binding(alloc, table, name.as_str(), binding)?;
    }
    Ok(())
}

/// Removes the bindings of a list of binders, the first one first.
fn remove_bindings(table: &mut HashMap<&str, Vec<Binding>>, names: &[&Name])
    ensures { (x : Bor (List ℕ)) (bs : List Binding) (depth : ℕ)
        → bindings_of table.old x ≡ bs ++ bound_in depth x.now (map (λ n. n.now) names.now) → bindings_of table.new x ≡ bs }
{
    'names: for name in names {
        remove_binding(table, name.as_str());
    }
}

/// Adds a list of binders.
fn enter_group<'a>(
    alloc: Global,
    groups: &mut Vec<LentNames<'a>>,
    table: &mut HashMap<&'a str, Vec<Binding>>,
    names: LentNames<'a>,
) -> Result<(), AllocError>
    ensures groups { OnOk result (groups.new.items ≡ groups.old.items ++ names.entry ∷ []) }
    ensures table { OnOk result (IsTable (reverse groups.old.items) table.old → IsTable (reverse groups.new.items) table.new) }
{
    add_bindings(alloc, table, names.as_slice(), groups.len())?;
    groups.push(names)?;
    Ok(())
}

/// Removes the last list of binders.
fn leave_group<'a>(groups: &mut Vec<LentNames<'a>>, table: &mut HashMap<&'a str, Vec<Binding>>)
    ensures groups { reverse groups.new.items ≡ outer_of (reverse groups.old.items) }
    ensures table { IsTable (reverse groups.old.items) table.old → IsTable (reverse groups.new.items) table.new }
{
    let Some(names) = groups.pop() else {
        return;
    };
    remove_bindings(table, names.as_slice());
}
