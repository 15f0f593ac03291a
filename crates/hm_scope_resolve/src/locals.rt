//! The local names at a place of a tree.
ghost use Rattle.std.specs.Prelude.{◌≡◌, ◌++◌, ◌∷◌, [], ℕ, List, true, cond, reverse, Some, None, OnOk};
ghost use Rattle.std.specs.HashMap.{get_by_text};
ghost use Rattle.std.specs.Str.{bytes_eq};
ghost use Rattle.hm_names.specs.Variables.{texts};
ghost use Rattle.hm_names.specs.Texts.{is_text_among};
ghost use Rattle.hm_names.specs.Found.{all_of, rest_of};
ghost use Rattle.hm_scope_resolve.specs.Depths.{IsDepthTable, or_else, unless_at};

use hm_syntax::Name;
use std::alloc::{AllocError, Global};
use std::collections::HashMap;
use std::marker::Model;

// Why: docs/DECISIONS.md, "Few names".
/// The number of lists that are searched one by one, and the number of names that each has at most. Few places have more, and filling a
/// table costs more than searching a few names.
const FEW_LISTS: usize = 6;

const FEW_NAMES: usize = 4;

/// The names that one list of declarations or patterns binds.
#[derive(Drop)]
struct Group {
    names: Vec<Name>,
}

impl Model for Group {
    ghost use Rattle.std.specs.Prelude.{List, ℕ};
    ghost use Rattle.hm_names.specs.Variables.{texts};

    ghost Value = { List (List ℕ) };

    ghost view = { λ g. texts g.names.items };
}

impl Group {
    /// Returns whether a name has this text.
    fn has(&self, text: &str) -> bool
        ensures { result ≡ is_text_among text.now self.now }
    {
        is_among(&self.names, text)
    }
}

/// Returns whether a name has this text.
fn is_among(names: &[Name], text: &str) -> bool
    ensures { result ≡ is_text_among text.now (texts names.now) }
{
    'names: for name in names {
        if name.as_str() == text {
            return true;
        }
    }
    false
}

/// Returns whether a list has this text.
fn is_in_any(groups: &[Group], text: &str) -> bool
    ensures { result ≡ is_text_among text.now (all_of groups.now) }
{
    'groups: for group in groups {
        if group.has(text) {
            return true;
        }
    }
    false
}

/// Returns whether the next list, with these names, is to be searched by itself.
fn is_one_of_few(few: &[Group], groups: &[Group], names: &[Name]) -> bool
    ensures { result ≡ true → groups.now ≡ [] }
{
    if !groups.is_empty() {
        return false;
    }
    few.len() < FEW_LISTS && names.len() <= FEW_NAMES
}

/// Records that a name is bound at this depth, unless it is bound further out.
fn note(
    alloc: Global,
    depths: &mut HashMap<String, usize>,
    name: &Name,
    depth: usize,
) -> Result<(), AllocError>
    ensures { OnOk result ((x : List ℕ) → get_by_text depths.new x ≡ or_else (get_by_text depths.old x) (cond (bytes_eq name.now.text x) (Some depth) None)) }
{
    match depths.get(name.as_str()) {
        Some(_) => Ok(()),
        None => {
            let key = String::from_str(alloc, name.as_str())?;
            depths.insert(key, depth)?;
            Ok(())
        }
    }
}

/// Records that names are bound at this depth, except those that are bound further out.
fn note_all(
    alloc: Global,
    depths: &mut HashMap<String, usize>,
    names: &[Name],
    depth: usize,
) -> Result<(), AllocError>
    ensures { OnOk result ((x : List ℕ) → get_by_text depths.new x
        ≡ or_else (get_by_text depths.old x) (cond (is_text_among x (texts names.now)) (Some depth) None)) }
{
    'names: for name in names {
        note(alloc, depths, name, depth)?;
    }
    Ok(())
}

/// Removes a name if its outermost binding is at this depth.
fn forget(depths: &mut HashMap<String, usize>, name: &Name, depth: usize)
    ensures { (x : List ℕ) → get_by_text depths.new x
        ≡ cond (bytes_eq name.now.text x) (unless_at depth (get_by_text depths.old x)) (get_by_text depths.old x) }
{
    match depths.get(name.as_str()) {
        None => {}
        Some(known) => {
            if *known == depth {
                depths.remove(name.as_str());
            }
        }
    }
}

/// Removes the names with an outermost binding at this depth.
fn forget_all(depths: &mut HashMap<String, usize>, names: &[Name], depth: usize)
    ensures { (x : List ℕ) → get_by_text depths.new x
        ≡ cond (is_text_among x (texts names.now)) (unless_at depth (get_by_text depths.old x)) (get_by_text depths.old x) }
{
    'names: for name in names {
        forget(depths, name, depth);
    }
}

// Why: docs/DECISIONS.md, "Local names".
/// The local names at a place, in lists. Contracts see the innermost list first.
///
/// The outermost few lists with few names are searched one by one. A table has, for each text, the depth of the outermost further list with
/// this text. So the time of a look-up doesn't depend on nesting.
pub struct Locals {
    alloc: Global,
    few: Vec<Group>,
    groups: Vec<Group>,
    depths: HashMap<String, usize>,
}

impl Drop for Locals {
    fn drop(self) {
        let Locals {
            alloc: _,
            few: _few,
            groups: _groups,
            depths: _depths,
        } = self;
    }
}

impl Model for Locals {
    ghost use Rattle.std.specs.Prelude.{List, ℕ, reverse, ◌++◌};
    ghost use Rattle.hm_scope_resolve.specs.Depths.{IsDepthTable};

    ghost Value = { List (List (List ℕ)) };

    ghost view = { λ l. reverse (l.few.items ++ l.groups.items) };

    ghost invariant = { λ l. IsDepthTable l.groups.items l.depths };
}

impl Locals {
    /// Returns no local names.
    pub fn new(alloc: Global) -> Locals
        ensures { result ≡ [] }
    {
        Locals {
            alloc,
            few: Vec::new(alloc),
            groups: Vec::new(alloc),
            depths: HashMap::new(alloc),
        }
    }

    /// Adds a list of names that are bound in an inner scope. If memory runs out, names may be missing afterwards.
    pub fn enter(&mut self, names: Vec<Name>) -> Result<(), AllocError>
        ensures { OnOk result (self.new ≡ texts names.items ∷ self.old) }
    {
        if is_one_of_few(&self.few, &self.groups, &names) {
            self.few.push(Group { names })?;
            return Ok(());
        }
        match enter_group(self.alloc, &mut self.groups, &mut self.depths, names) {
            Ok(()) => Ok(()),
            Err(AllocError) => {
                self.groups = Vec::new(self.alloc);
                self.depths = HashMap::new(self.alloc);
                Err(AllocError)
            }
        }
    }

    /// Removes the list of the last `enter`.
    pub fn leave(&mut self)
        ensures { self.new ≡ rest_of self.old }
    {
        if self.groups.is_empty() {
            leave_few(&mut self.few);
            return;
        }
        leave_group(&mut self.groups, &mut self.depths);
    }

    /// Returns whether a name with this text is bound.
    pub fn contains(&self, text: &str) -> bool
        ensures { result ≡ is_text_among text.now (all_of self.now) }
    {
        if is_in_any(&self.few, text) {
            return true;
        }
        if self.groups.is_empty() {
            return false;
        }
        self.depths.contains_key(text)
    }
}

/// Adds a list of names.
fn enter_group(
    alloc: Global,
    groups: &mut Vec<Group>,
    depths: &mut HashMap<String, usize>,
    names: Vec<Name>,
) -> Result<(), AllocError>
    ensures groups { OnOk result (groups.new.items ≡ groups.old.items ++ texts names.items ∷ []) }
    ensures depths { OnOk result (IsDepthTable groups.old.items depths.old → IsDepthTable groups.new.items depths.new) }
{
    note_all(alloc, depths, &names, groups.len())?;
    groups.push(Group { names })?;
    Ok(())
}

/// Removes the last of the lists that are searched one by one.
fn leave_few(few: &mut Vec<Group>)
    ensures { reverse few.new.items ≡ rest_of (reverse few.old.items) }
{
    few.pop();
}

/// Removes the last list of names.
fn leave_group(groups: &mut Vec<Group>, depths: &mut HashMap<String, usize>)
    ensures groups { reverse groups.new.items ≡ rest_of (reverse groups.old.items) }
    ensures depths { IsDepthTable groups.old.items depths.old → IsDepthTable groups.new.items depths.new }
{
    let Some(group) = groups.pop() else {
        return;
    };
    forget_all(depths, &group.names, groups.len());
}
