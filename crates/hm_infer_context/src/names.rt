//! Names of entities, and the check of a variable against a type.

ghost use Rattle.std.specs.Prelude.{◌≡◌, ℕ, List, IfErr, IfNone, IfOk, IfSome};
ghost use Rattle.hm_names_keys.specs.Keys.{variable_of_key};
ghost use Rattle.hm_names_keys.specs.Variables.{identifier};
ghost use Rattle.hm_typing.specs.Names.{global};
ghost use Rattle.hm_types.specs.Shape.{type_of};
ghost use Rattle.hm_types.specs.Types.{put};
ghost use Rattle.hm_typing.specs.Assumptions.{Has, assumptions_put};
ghost use Rattle.hm_unify.specs.WellFormed.{IsWellFormed};
ghost use Rattle.hm_infer_context.specs.Problems.{Answers, Refuses, monotype};
ghost use Rattle.hm_infer_context.specs.Environments.{AreAssumed, assumptions};
ghost use Rattle.hm_infer_context.specs.Inferred.{IsInferred, IsTyped};
ghost use Rattle.hm_names.specs.Syntax.{name_of};

use crate::environment::Environment;
use crate::instances::{check_scheme, scheme_instance};
use hm_names_keys::LentName;
use hm_syntax::Name;
use hm_types::{Entity, Ty};
use hm_unify::{Solver, UnifyFault};
use std::alloc::Global;

/// Returns the name of an entity.
pub fn entity_name(entity: &Entity) -> LentName<'_>
    ensures { identifier (variable_of_key result) ≡ global entity.now }
{
    LentName {
        qualifier: Some(entity.module.as_str()),
        text: entity.name.as_str(),
    }
}

/// Returns the text of a name, if it is that of an entity of the module `home`.
pub fn own_text<'a>(name: LentName<'a>, home: &str) -> Option<&'a str>
    ensures own { IfSome result (λ text. identifier (variable_of_key name.entry) ≡ global (record { «module» = home.now; name = text.now })) }
    ensures other { IfNone result ((x : List ℕ) → ¬ (identifier (variable_of_key name.entry) ≡ global (record { «module» = home.now; name = x }))) }
{
    let Some(module) = name.qualifier else {
        return None;
    };
    if module == home {
        Some(name.text)
    } else {
        None
    }
}

/// Checks a variable against a type.
///
/// # Errors
///
/// `Clash` if the variable can't have the type by the assumptions, and `Memory` if memory ran out.
pub fn check_name(
    alloc: Global,
    solver: &mut Solver,
    environment: &Environment<'_>,
    name: &Name,
    t: &Ty,
) -> Result<(), UnifyFault>
    requires given { IsWellFormed solver.old.given (type_of t.now) }
    requires assumed { AreAssumed solver.old.given environment.now }
    ensures { Answers (λ r. Has (assumptions_put r (assumptions environment.now)) (name_of name.now) (put r (monotype (type_of t.now)))) solver.old
        solver.new result }
{
    match environment.find(name) {
        None => Err(UnifyFault::Clash),
        Some(scheme) => check_scheme(alloc, solver, scheme.quantified, scheme.body, t),
    }
}

/// Returns an instance of a variable's scheme with new type variables.
///
/// # Errors
///
/// `Clash` if nothing is assumed of the variable, and `Memory` if memory ran out.
pub fn name_instance(
    alloc: Global,
    solver: &mut Solver,
    environment: &Environment<'_>,
    name: &Name,
) -> Result<Ty, UnifyFault>
    requires assumed { AreAssumed solver.old.given environment.now }
    ensures inferred { IfOk result (λ t. IsInferred (λ r u. Has (assumptions_put r (assumptions environment.now)) (name_of name.now) u) solver.old
        solver.new (type_of t)) }
    ensures given { IfOk result (λ t. IsWellFormed solver.new.given (type_of t)) }
    ensures refused { IfErr result (Refuses (IsTyped (λ r u. Has (assumptions_put r (assumptions environment.now)) (name_of name.now) u)) solver.old) }
{
    match environment.find(name) {
        None => Err(UnifyFault::Clash),
        Some(scheme) => scheme_instance(alloc, solver, scheme.quantified, scheme.body),
    }
}
