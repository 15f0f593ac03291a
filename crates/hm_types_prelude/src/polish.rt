//! Types of Prelude in Polish notation: each constructor comes before its arguments.

ghost use Rattle.std.specs.Prelude.{◌≡◌, IfOk, OnOk, drop, reverse, take};
ghost use Rattle.hm_types.specs.Monotypes.{arguments_of};
ghost use Rattle.hm_types.specs.Shape.{type_of, types_of};
ghost use Rattle.hm_types.specs.declared.Head.TheVariants.{Named as named};
ghost use Rattle.hm_types_prelude.specs.Polish.{applied, read_as, with_part};
ghost use Rattle.hm_types.specs.StandardPrelude.{in_prelude};

use hm_types::{Entity, Head, Text, Ty, Types};
use std::alloc::{AllocError, Global};

// Why: docs/DECISIONS.md, "Prelude".
/// A part of a type: one of the first three variables, or a type constructor.
#[derive(Clone, Copy)]
pub(crate) enum Part {
    A,
    B,
    C,
    Function,
    List,
    Pair,
    Bool,
    Char,
    Either,
    Int,
    Maybe,
    Ordering,
}

/// Returns the entity that Prelude defines under a name.
pub(crate) fn in_prelude(alloc: Global, name: &str) -> Result<Entity, AllocError>
    ensures { IfOk result (λ entity. entity ≡ in_prelude name.now) }
{
    Ok(Entity {
        module: Text::new(String::from_str(alloc, "Prelude")?)?,
        name: Text::new(String::from_str(alloc, name)?)?,
    })
}

/// Returns the type for these parts.
pub(crate) fn read(alloc: Global, parts: &[Part]) -> Result<Ty, AllocError>
    ensures { IfOk result (λ t. type_of t ≡ read_as parts.now) }
{
    let mut stack = Vec::new(alloc);
    for part in parts.iter().rev() {
        put(alloc, &mut stack, *part)?;
    }
    match stack.pop() {
        Some(t) => Ok(t),
        None => Ok(Ty::App(Head::Unit, Types::new(Vec::new(alloc)))),
    }
}

/// Adds one more part before the types on a stack. The first type is on top.
fn put(alloc: Global, stack: &mut Vec<Ty>, part: Part) -> Result<(), AllocError>
    ensures { OnOk result (reverse (types_of stack.new.items) ≡ with_part part (reverse (types_of stack.old.items))) }
{
    match part {
        Part::A => Ok(stack.push(Ty::Var(0))?),
        Part::B => Ok(stack.push(Ty::Var(1))?),
        Part::C => Ok(stack.push(Ty::Var(2))?),
        Part::Function => apply(alloc, stack, Head::Arrow, 2),
        Part::List => apply(alloc, stack, Head::List, 1),
        Part::Pair => apply(alloc, stack, Head::Tuple(2), 2),
        Part::Bool => apply_named(alloc, stack, "Bool", 0),
        Part::Char => apply_named(alloc, stack, "Char", 0),
        Part::Either => apply_named(alloc, stack, "Either", 2),
        Part::Int => apply_named(alloc, stack, "Int", 0),
        Part::Maybe => apply_named(alloc, stack, "Maybe", 1),
        Part::Ordering => apply_named(alloc, stack, "Ordering", 0),
    }
}

/// Does what `apply` does, for a type constructor of Prelude.
fn apply_named(
    alloc: Global,
    stack: &mut Vec<Ty>,
    name: &str,
    arity: usize,
) -> Result<(), AllocError>
    ensures { OnOk result (reverse (types_of stack.new.items) ≡ applied (named (in_prelude name.now)) arity (reverse (types_of stack.old.items))) }
{
    let head = Head::Named(in_prelude(alloc, name)?);
    apply(alloc, stack, head, arity)
}

/// Replaces the arguments of a constructor on a stack by the type with these arguments.
fn apply(alloc: Global, stack: &mut Vec<Ty>, head: Head, arity: usize) -> Result<(), AllocError>
    ensures { OnOk result (reverse (types_of stack.new.items) ≡ applied head arity (reverse (types_of stack.old.items))) }
{
    let arguments = pop_many(alloc, stack, arity)?;
    stack.push(Ty::App(head, Types::new(arguments)))?;
    Ok(())
}

/// Removes `count` types from a stack, and returns them, the topmost first.
fn pop_many(alloc: Global, stack: &mut Vec<Ty>, count: usize) -> Result<Vec<Ty>, AllocError>
    ensures taken { IfOk result (λ taken. types_of taken.items ≡ take count (reverse (types_of stack.old.items))) }
    ensures left { OnOk result (reverse (types_of stack.new.items) ≡ drop count (reverse (types_of stack.old.items))) }
{
    let mut taken = Vec::new(alloc);
    for _ in 0..count {
        let Some(t) = stack.pop() else {
            return Ok(taken);
        };
        taken.push(t)?;
    }
    Ok(taken)
}
