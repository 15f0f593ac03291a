//! The numbers of a declaration list's nodes.

ghost use Rattle.std.specs.Prelude.{◌≡◌, ℕ, ◌∷◌, [], ◌++◌, Some, None, IfOk, OnOk, OnErr, IfSome, IfNone, IsFalse, IsTrue, List, Option, MatchOption, ◌↔◌, ◌<◌, option_map, length, take};
ghost use Rattle.std.specs.List.{slice_get};
ghost use Rattle.hm_names_keys.specs.Variables.{Variable, variable_of};
ghost use Rattle.hm_infer_dependencies.specs.Numberings.{IsNode, MayHave, few, nodes_of};
ghost use Rattle.hm_names_keys.specs.Keys.{variable_of_key};

use crate::faults::GroupFault;
use hm_names_keys::{LentName, key_of};
use hm_syntax::Name;
use indexmap::IndexMap;
use std::alloc::{AllocError, Global};
use std::marker::Model;

// Why: docs/DECISIONS.md, "Few names".
/// The number of nodes that are searched one by one. The table has the others. Most lists have few
/// nodes, and filling a table costs more than searching a few names.
const FEW: usize = 6;

/// The qualifiers of the variables among some nodes. The variables of a list outside all others have the qualifier of their module, and those of
/// other lists have none. So most look-ups need no more than this.
#[derive(Clone, Copy)]
pub(crate) enum Qualifiers<'a> {
    /// There is no variable.
    Nothing,
    /// All variables have this one, or none.
    One(Option<&'a str>),
    /// Not all variables have the same.
    Several,
}

impl<'a> Qualifiers<'a> {
    /// Returns the qualifiers of one variable more.
    fn with(self, qualifier: Option<&'a str>) -> Qualifiers<'a>
        ensures old { (q : Option (List ℕ)) → MayHave self.entry q → MayHave result q }
        ensures new { MayHave result (option_map (λ t. t.now) qualifier.entry) }
    {
        match self {
            Qualifiers::Nothing => Qualifiers::One(qualifier),
            Qualifiers::One(own) => {
                if own == qualifier {
                    self
                } else {
                    Qualifiers::Several
                }
            }
            Qualifiers::Several => self,
        }
    }

    /// Returns whether a variable may have this qualifier.
    fn may_have(self, qualifier: Option<&str>) -> bool
        ensures { IsFalse result → ¬ (MayHave self.entry (option_map (λ t. t.now) qualifier.entry)) }
    {
        match self {
            Qualifiers::Nothing => false,
            Qualifiers::One(own) => own == qualifier,
            Qualifiers::Several => true,
        }
    }
}

/// The nodes of a declaration list, in order: its variables without signatures, and its pattern bindings, which have no name in a source.
/// Contracts see a list in which a pattern binding is `None`. A table has the number of each variable after the first few nodes.
pub struct Numbers<'a> {
    nodes: Vec<Option<LentName<'a>>>,
    table: IndexMap<LentName<'a>, usize>,
    qualifiers: Qualifiers<'a>,
}

impl Drop for Numbers<'_> {
    fn drop(self) {
        let Numbers {
            nodes: _nodes,
            table: _table,
            qualifiers: _,
        } = self;
    }
}

impl<'a> Model for Numbers<'a> {
    ghost use Rattle.std.specs.Prelude.{List, Option};
    ghost use Rattle.hm_names_keys.specs.Variables.{Variable};
    ghost use Rattle.hm_infer_dependencies.specs.Numberings.{nodes_of, AreNumbered};

    ghost Value = { List (Option Variable) };

    ghost view = { λ n. nodes_of n.nodes.items };

    ghost invariant = { λ n. AreNumbered (nodes_of n.nodes.items) n.table n.qualifiers };
}

impl<'a> Numbers<'a> {
    /// Returns a list without nodes.
    pub(crate) fn new(alloc: Global) -> Numbers<'a>
        ensures { result ≡ [] }
    {
        Numbers {
            nodes: Vec::new(alloc),
            table: IndexMap::new(alloc),
            qualifiers: Qualifiers::Nothing,
        }
    }

    /// Makes room for `count` more nodes, so that the list and the table grow only once.
    pub(crate) fn reserve(&mut self, count: usize) -> Result<(), AllocError>
        ensures { self.new ≡ self.old }
    {
        self.nodes.reserve(count)?;
        if count > FEW {
            self.table.reserve(count)?;
        }
        Ok(())
    }

    /// Returns the number of nodes.
    pub fn len(&self) -> usize
        ensures { result ≡ length self.now }
    {
        self.nodes.len()
    }

    /// Shows that each variable is a node only once.
    pub fn has_each_once(&self)
        ensures { (x : Variable) (j k : ℕ) → slice_get self.now j ≡ Some (Some x) → slice_get self.now k ≡ Some (Some x) → j ≡ k }
    {
        let _count = self.nodes.len();
    }

    /// Returns the variable of a node, or `None` for a pattern binding.
    pub fn variable(&self, number: usize) -> Option<LentName<'a>>
        requires { number < length self.now }
        ensures { slice_get self.now number ≡ Some (option_map variable_of_key result) }
    {
        self.nodes[number]
    }

    /// Returns the number of a variable, if it is a node.
    pub(crate) fn number(&self, name: &Name) -> Option<usize>
        ensures some { IfSome result (λ k. slice_get self.now k ≡ Some (Some (variable_of name.now))) }
        ensures none { IfNone result (¬ (IsNode self.now (variable_of name.now))) }
        ensures once { (x : Variable) (j k : ℕ) → slice_get self.now j ≡ Some (Some x) → slice_get self.now k ≡ Some (Some x) → j ≡ k }
    {
        let key = key_of(name);
        if !self.qualifiers.may_have(key.qualifier) {
            return None;
        }
        match place_among_few(&self.nodes, &key) {
            Some(number) => return Some(number),
            None => {}
        }
        if self.nodes.len() <= FEW {
            return None;
        }
        match self.table.get(&key) {
            Some(number) => Some(*number),
            None => None,
        }
    }

    // Why: docs/DECISIONS.md, "Numbers of pattern bindings".
    /// Adds a variable, unless it is a node already.
    pub(crate) fn add(&mut self, name: &'a Name) -> Result<(), GroupFault>
        ensures added { OnOk result (self.new ≡ self.old ++ (Some (variable_of name.now)) ∷ []) }
        ensures twice { result ≡ Err GroupFault.Repeated → IsNode self.old (variable_of name.now) }
    {
        let None = self.number(name) else {
            return Err(GroupFault::Repeated);
        };
        let key = key_of(name);
        let number = self.nodes.len();
        self.qualifiers = self.qualifiers.with(key.qualifier);
        self.nodes.push(Some(key))?;
        if number < FEW {
            return Ok(());
        }
        match self.table.insert(key, number) {
            Ok(_) => Ok(()),
            Err(_) => {
                self.nodes.pop();
                Err(GroupFault::Memory)
            }
        }
    }

    /// Adds a pattern binding.
    pub(crate) fn add_pattern(&mut self) -> Result<(), AllocError>
        ensures added { OnOk result (self.new ≡ self.old ++ None ∷ []) }
    {
        self.nodes.push(None)?;
        Ok(())
    }
}

/// Returns whether two keys are those of one variable. Compares the texts first, because qualifiers are mostly equal.
fn is_same(left: &LentName<'_>, right: &LentName<'_>) -> bool
    ensures { IsTrue result ↔ (variable_of_key left.now ≡ variable_of_key right.now) }
{
    let has_text = left.text == right.text;
    if !has_text {
        return false;
    }
    *left == *right
}

/// Returns whether a node is this variable.
fn is_node(node: &Option<LentName<'_>>, key: &LentName<'_>) -> bool
    ensures { IsTrue result ↔ (option_map variable_of_key node.now ≡ Some (variable_of_key key.now)) }
{
    match node {
        Some(name) => is_same(name, key),
        None => false,
    }
}

/// Returns the number of a variable among the first few nodes, if it is one of them.
fn place_among_few(nodes: &[Option<LentName<'_>>], key: &LentName<'_>) -> Option<usize>
    ensures { MatchOption result (¬ (IsNode (nodes_of (take few nodes.now)) (variable_of_key key.now)))
        (λ k. slice_get (nodes_of nodes.now) k ≡ Some (Some (variable_of_key key.now))) }
{
    let count = FEW.min(nodes.len());
    'nodes: for number in 0..count {
        let node = &nodes[number];
        if is_node(node, key) {
            return Some(number);
        }
    }
    None
}
