//! Types that consist of variables, and types of Prelude.

ghost use Rattle.std.specs.Prelude.{◌≡◌, ℕ, ◌+◌, ◌<◌, ◌≤◌, ◌^◌, IfOk, false};
ghost use Rattle.hm_types.specs.Shape.{type_of};
ghost use Rattle.hm_typing.specs.Patterns.{arrows, tuple, list};
ghost use Rattle.hm_types.specs.Types.{App as app, done as none, more};
ghost use Rattle.hm_types.specs.declared.Head.TheVariants as head;
ghost use Rattle.hm_unify.specs.WellFormed.{IsWellFormed};
ghost use Rattle.hm_infer_context.specs.Problems.{monotype};
ghost use Rattle.hm_infer_context.specs.Patterns.{from_number};
ghost use Rattle.hm_infer_context.specs.PreludeTypes.{prelude_type_of};

use hm_types::{Entity, Head, Text, Ty, Types};
use std::alloc::{AllocError, Global};

/// Returns the type of functions to `outcome` from `count` variables, numbered from `first` on.
pub(crate) fn function_type(
    alloc: Global,
    first: usize,
    count: usize,
    outcome: &Ty,
) -> Result<Ty, AllocError>
    requires { first + count < 2 ^ 64 }
    ensures shape { IfOk result (λ t. monotype (type_of t) ≡ arrows count (from_number false first) 0 (monotype (type_of outcome.now))) }
    ensures given { IfOk result (λ t. (g : ℕ) → first + count ≤ g → IsWellFormed g (type_of outcome.now) → IsWellFormed g (type_of t)) }
{
    let mut t = outcome.copy(alloc)?;
    let mut j = count;
    'parts: while j > 0 {
        j -= 1;
        t = Ty::function(alloc, Ty::Var(first + j), t)?;
    }
    Ok(t)
}

/// Returns the type of tuples of `count` variables, numbered from `first` on.
pub(crate) fn tuple_type(alloc: Global, first: usize, count: usize) -> Result<Ty, AllocError>
    requires { first + count < 2 ^ 64 }
    ensures shape { IfOk result (λ t. monotype (type_of t) ≡ tuple count (from_number false first)) }
    ensures given { IfOk result (λ t. (g : ℕ) → first + count ≤ g → IsWellFormed g (type_of t)) }
{
    let mut parts = Vec::with_capacity(alloc, count)?;
    for j in 0..count {
        parts.push(Ty::Var(first + j))?;
    }
    Ok(Ty::App(Head::Tuple(count), Types::new(parts)))
}

/// Returns the type of lists of a type.
pub(crate) fn list_of(alloc: Global, element: Ty) -> Result<Ty, AllocError>
    ensures { IfOk result (λ t. type_of t ≡ app head.List (more (type_of element) none)) }
{
    let mut parts = Vec::new(alloc);
    parts.push(element)?;
    Ok(Ty::App(Head::List, Types::new(parts)))
}

/// Returns the type of lists of a variable.
pub(crate) fn list_type(alloc: Global, element: usize) -> Result<Ty, AllocError>
    ensures shape { IfOk result (λ t. monotype (type_of t) ≡ list (from_number false element 0)) }
    ensures given { IfOk result (λ t. (g : ℕ) → element < g → IsWellFormed g (type_of t)) }
{
    let mut parts = Vec::new(alloc);
    parts.push(Ty::Var(element))?;
    Ok(Ty::App(Head::List, Types::new(parts)))
}

/// Returns the type of Prelude with this name, without arguments.
pub(crate) fn prelude_type(alloc: Global, name: &str) -> Result<Ty, AllocError>
    ensures { IfOk result (λ t. type_of t ≡ prelude_type_of name.now) }
{
    let entity = Entity {
        module: Text::new(String::from_str(alloc, "Prelude")?)?,
        name: Text::new(String::from_str(alloc, name)?)?,
    };
    Ok(Ty::App(Head::Named(entity), Types::new(Vec::new(alloc))))
}
