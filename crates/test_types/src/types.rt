//! Worked rows of instances.

ghost use Rattle.std.specs.Prelude.{IfOk, ℕ};
ghost use Rattle.hm_types.specs.Shape.{type_of};
ghost use Rattle.hm_types.specs.Schemes.{HasArities, HasNoRigid};
ghost use Rattle.hm_unify.specs.WellFormed.{IsWellFormed};

use hm_types::{Entity, Head, Scheme, Text, Ty, Types};
use hm_types_subsumption::{canonical, instance_of};
use std::alloc::{AllocError, Global};
use std::test::Fail;

/// Returns Prelude's type of integers.
pub(crate) fn integer(alloc: Global) -> Result<Ty, AllocError>
    ensures not_rigid { IfOk result (λ t. HasNoRigid (type_of t)) }
    ensures arities { IfOk result (λ t. HasArities (type_of t)) }
    ensures solved { IfOk result (λ t. (given : ℕ) → IsWellFormed given (type_of t)) }
{
    let module = Text::new(String::from_str(alloc, "Prelude")?)?;
    let name = Text::new(String::from_str(alloc, "Int")?)?;
    Ok(Ty::App(
        Head::Named(Entity { module, name }),
        Types::new(Vec::new(alloc)),
    ))
}

/// The types of the rows.
#[derive(Clone, Copy)]
enum Example {
    /// From integers to integers.
    Integers,
    /// From a type to itself.
    Same,
    /// From a type to any other.
    Any,
}

/// Returns the type of an example.
fn type_of_example(alloc: Global, example: Example) -> Result<Ty, AllocError>
    ensures not_rigid { IfOk result (λ t. HasNoRigid (type_of t)) }
    ensures arities { IfOk result (λ t. HasArities (type_of t)) }
{
    match example {
        Example::Integers => {
            let argument = integer(alloc)?;
            let outcome = integer(alloc)?;
            Ok(Ty::function(alloc, argument, outcome)?)
        }
        Example::Same => Ok(Ty::function(alloc, Ty::Var(3), Ty::Var(3))?),
        Example::Any => Ok(Ty::function(alloc, Ty::Var(7), Ty::Var(2))?),
    }
}

/// Returns the canonical scheme of an example.
fn scheme_of(alloc: Global, example: Example) -> Result<Scheme, AllocError> {
    canonical(alloc, &type_of_example(alloc, example)?)
}

/// Returns whether the scheme of the first is an instance of that of the second.
fn is_instance(alloc: Global, special: Example, general: Example) -> Result<bool, AllocError> {
    let special = scheme_of(alloc, special)?;
    let general = scheme_of(alloc, general)?;
    instance_of(alloc, &special, &general)
}

/// Examples, and whether the scheme of the first is an instance of that of the second.
const INSTANCES: [(Example, Example, bool); 5] = [
    (Example::Integers, Example::Same, true),
    (Example::Same, Example::Integers, false),
    (Example::Same, Example::Any, true),
    (Example::Any, Example::Same, false),
    (Example::Any, Example::Any, true),
];

#[test]
fn instances(rt: HostRuntime) -> Result<(), Fail> {
    for (special, general, wanted) in INSTANCES {
        assert!(rt; is_instance(rt.alloc(), special, general)? == wanted);
    }
    Ok(())
}
