//! Types with variables that no scheme quantifies: copies, comparison, replacement of variables.

ghost use Rattle.std.specs.Prelude.{◌≡◌, ◌↔◌, IfOk, IsTrue};
ghost use Rattle.hm_types.specs.Types.{App as app, done as none, more};
ghost use Rattle.hm_types.specs.Shape.{type_of, types_of};
ghost use Rattle.hm_types.specs.Substitution.{listed, substitute, occurs};
ghost use Rattle.hm_types.specs.declared.Head.TheVariants.{Arrow as arrow};

use crate::Head;
use std::alloc::{AllocError, Global};
use std::marker::Model;

// Why: docs/DECISIONS.md, "One generic type", "No arena".
/// A type: a variable, by number; a rigid variable, which is an unknown type that equals only itself; or a type
/// constructor with its arguments.
#[cycle(ty)]
#[derive(Drop)]
pub enum Ty {
    Var(usize),
    Rigid(usize),
    App(Head, Types),
}

// Why: docs/DECISIONS.md, "Small types".
/// The arguments of a type constructor. Contracts see a list of types.
#[cycle(ty)]
#[derive(Drop)]
pub struct Types {
    items: Vec<Ty>,
}

impl Model for Types {
    ghost use Rattle.std.specs.Prelude.{List, ◌+◌};
    ghost use Rattle.hm_types.specs.Monotypes.{Mono, list_size};
    ghost use Rattle.hm_types.specs.Codes.{coded_monos};

    ghost Value = { List Mono };

    ghost coded = { coded_monos };

    ghost use Rattle.hm_types.specs.Shape.{types_of};

    ghost view = { λ s. types_of s.items.items };

    ghost size = { list_size };

    ghost use Rattle.std.proofs.Common.{arith};
    ghost use Rattle.hm_types.specs.Falls.{most_le_list_size};

    ghost size_decreases = { λ a h. omega (arith, most_le_list_size a.items.items) };
}

impl Types {
    /// Makes arguments of a `Vec`, in its order. Allocates nothing.
    pub fn new(items: Vec<Ty>) -> Types
        ensures { result ≡ types_of items.items }
    {
        Types { items }
    }

    /// Returns the arguments as a `Vec`. Allocates nothing.
    pub fn into_vec(self) -> Vec<Ty>
        ensures { types_of result.items ≡ self }
    {
        let Types { items } = self;
        items
    }

    /// Returns the arguments as a slice.
    pub fn as_slice(&self) -> &[Ty]
        ensures { types_of result.now ≡ self.now }
    {
        &self.items
    }
}

impl Ty {
    /// Returns the type of functions from `argument` to `outcome`.
    pub fn function(alloc: Global, argument: Ty, outcome: Ty) -> Result<Ty, AllocError>
        ensures { IfOk result (λ t. type_of t ≡ app arrow (more (type_of argument) (more (type_of outcome) none))) }
    {
        let mut arguments = Vec::new(alloc);
        arguments.push(argument)?;
        arguments.push(outcome)?;
        Ok(Ty::App(Head::Arrow, Types::new(arguments)))
    }

    /// Returns a copy, unless memory runs out.
    pub fn copy(&self, alloc: Global) -> Result<Ty, AllocError>
        ensures { IfOk result (λ t. type_of t ≡ type_of self.now) }
    {
        match self {
            Ty::Var(n) => Ok(Ty::Var(*n)),
            Ty::Rigid(n) => Ok(Ty::Rigid(*n)),
            Ty::App(head, arguments) => {
                let row = arguments.as_slice();
                let mut copies = Vec::with_capacity(alloc, row.len())?;
                for argument in row {
                    copies.push(argument.copy(alloc)?)?;
                }
                Ok(Ty::App(head.copy()?, Types::new(copies)))
            }
        }
    }

    /// Returns the type with each variable replaced by the type at its place in the list. Variables
    /// past the end of the list stay.
    pub fn replace_all(&self, alloc: Global, types: &[Ty]) -> Result<Ty, AllocError>
        ensures { IfOk result (λ t. type_of t ≡ substitute (listed (types_of types.now)) (type_of self.now)) }
    {
        match self {
            Ty::Var(n) => {
                if *n < types.len() {
                    types[*n].copy(alloc)
                } else {
                    Ok(Ty::Var(*n))
                }
            }
            Ty::Rigid(n) => Ok(Ty::Rigid(*n)),
            Ty::App(head, arguments) => {
                let row = arguments.as_slice();
                let mut replaced = Vec::with_capacity(alloc, row.len())?;
                for argument in row {
                    replaced.push(argument.replace_all(alloc, types)?)?;
                }
                Ok(Ty::App(head.copy()?, Types::new(replaced)))
            }
        }
    }

    /// Returns whether the variable `variable` occurs in the type.
    pub fn contains(&self, variable: usize) -> bool
        ensures { result ≡ occurs variable (type_of self.now) }
    {
        match self {
            Ty::Var(n) => *n == variable,
            Ty::Rigid(_) => false,
            Ty::App(_, arguments) => {
                for argument in arguments.as_slice() {
                    if argument.contains(variable) {
                        return true;
                    }
                }
                false
            }
        }
    }

    /// Returns whether both are the same type. Variables are compared by number.
    pub fn is_same(&self, other: &Ty) -> bool
        ensures { IsTrue result ↔ (type_of self.now ≡ type_of other.now) }
    {
        same_type(self, other)
    }
}

/// Returns whether two types are the same.
#[cycle(same)]
fn same_type(left: &Ty, right: &Ty) -> bool
    ensures { IsTrue result ↔ (type_of left.now ≡ type_of right.now) }
{
    match (left, right) {
        (Ty::Var(m), Ty::Var(n)) => *m == *n,
        (Ty::Rigid(m), Ty::Rigid(n)) => *m == *n,
        (Ty::App(head, arguments), Ty::App(other, others)) => {
            head.is_same(other) && same_types(arguments.as_slice(), others.as_slice())
        }
        _ => false,
    }
}

/// Returns whether two lists of types are the same.
#[cycle(same)]
fn same_types(lefts: &[Ty], rights: &[Ty]) -> bool
    ensures { IsTrue result ↔ (types_of lefts.now ≡ types_of rights.now) }
{
    if lefts.len() != rights.len() {
        return false;
    }
    for i in 0..lefts.len() {
        if !same_type(&lefts[i], &rights[i]) {
            return false;
        }
    }
    true
}
