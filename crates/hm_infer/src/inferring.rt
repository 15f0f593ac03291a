//! Infers the principal schemes of binding lists and of cores (Damas and Milner 1982, section 6).

ghost use Rattle.std.specs.Prelude.{◌≡◌, IfOk, IfErr, OnOk};
ghost use Rattle.hm_typing.specs.BindingLists.{HasSchemes};
ghost use Rattle.hm_typing.specs.Names.{Identifier as Name};
ghost use Rattle.hm_typing.specs.Schemes.{Scheme};
ghost use Rattle.hm_names.specs.Cores.{IsSomeCore, known, syntax_of, assumptions as assumptions_of};
ghost use Rattle.hm_names.specs.SchemeTables.{scheme_of};
ghost use Rattle.hm_verdicts.specs.ModuleVerdicts.{ArePrincipal};
ghost use Rattle.hm_infer_context.specs.Constructors.{known_of};
ghost use Rattle.hm_infer_context.specs.Environments.{AreAssumed};
ghost use Rattle.hm_infer.specs.Faults.{IsUntypable};
ghost use Rattle.hm_infer_expressions.specs.PrincipalLists.{Inferred};
ghost use Rattle.hm_infer_expressions.specs.Stages.{list_of};

use crate::assuming::imported_environment;
use crate::declaring::known_constructors;
use crate::untyped_units::untyped_units;
use hm_infer_context::{Constructors, Inference};
use hm_infer_expressions::check_bindings;
use hm_infer_results::own_schemes;
use hm_names::{Core, Fault, Schemes, TypeLimits, WIDE_LIMITS};
use hm_syntax::{Decl, Row};
use hm_unify::{Solver, UnifyFault};
use std::alloc::{AllocError, Global};

/// Why a core has no schemes.
#[derive(Drop)]
pub enum InferFault {
    /// The core has type faults. These are ordered by place.
    Untypable(Row<Fault>),
    /// Memory ran out.
    Memory,
}

impl From<AllocError> for InferFault {
    ghost use Rattle.std.specs.Prelude.{◌≡◌};
    ghost use Rattle.hm_infer.specs.declared.inferring.InferFault.TheVariants.{Memory};

    ghost from_gives = { λ _ e. e ≡ Memory };

    fn from(_e: AllocError) -> InferFault {
        InferFault::Memory
    }
}

/// Infers the principal schemes of a binding list under closed assumptions, with a new solver, and binds the names of the list to them.
/// Returns `Clash` if the list has no typing.
pub(crate) fn infer_list<'a>(
    inference: &mut Inference<'a>,
    constructors: &Constructors,
    list: &'a [Decl],
) -> Result<(), UnifyFault>
    requires closed { AreAssumed 0 inference.old.environment }
    ensures inferred { Inferred (list_of (known_of constructors.now) list.now) inference.old.environment inference.new.environment result }
    ensures closed { OnOk result (AreAssumed 0 inference.new.environment) }
{
    inference.solver = inference.solver.renewed();
    check_bindings(inference, constructors, list)?;
    inference.solver.has_solution();
    Ok(())
}

/// Returns the fault of a core whose list has no typing.
fn untypable(
    alloc: Global,
    core: &Core,
    constructors: &Constructors,
    limits: TypeLimits,
) -> InferFault
    requires core { IsSomeCore core.now }
    requires known { known_of constructors.now ≡ known core.now }
    requires untyped { (B : Name → Scheme) → HasSchemes (assumptions_of core.now) (syntax_of core.now) B → ⊥ }
    ensures { IsUntypable core.now result }
{
    match untyped_units(alloc, core, constructors, limits) {
        Ok(found) => InferFault::Untypable(found),
        Err(_) => InferFault::Memory,
    }
}

/// Returns the principal schemes of a core's variables.
///
/// # Errors
///
/// `Untypable` with one fault for each unit that has no type, and `Memory` if memory ran out.
pub fn infer(alloc: Global, core: &Core) -> Result<Schemes, InferFault>
    requires core { IsSomeCore core.now }
    ensures schemes { IfOk result (λ schemes. ArePrincipal core.now (scheme_of schemes)) }
    ensures faults { IfErr result (IsUntypable core.now) }
{
    infer_within(alloc, core, WIDE_LIMITS)
}

/// Does what `infer` does, with limits for types. A type above a limit is refused with `Memory`.
pub fn infer_within(alloc: Global, core: &Core, limits: TypeLimits) -> Result<Schemes, InferFault>
    requires core { IsSomeCore core.now }
    ensures schemes { IfOk result (λ schemes. ArePrincipal core.now (scheme_of schemes)) }
    ensures faults { IfErr result (IsUntypable core.now) }
{
    let constructors = known_constructors(alloc, core)?;
    infer_with(alloc, core, &constructors, limits)
}

/// Does what `infer_within` does, with the known constructors of the core.
fn infer_with(
    alloc: Global,
    core: &Core,
    constructors: &Constructors,
    limits: TypeLimits,
) -> Result<Schemes, InferFault>
    requires core { IsSomeCore core.now }
    requires known { known_of constructors.now ≡ known core.now }
    ensures schemes { IfOk result (λ schemes. ArePrincipal core.now (scheme_of schemes)) }
    ensures faults { IfErr result (IsUntypable core.now) }
{
    let list = core.decls.as_slice();
    let environment = imported_environment(alloc, core.interfaces.as_slice(), list.len())?;
    let mut inference = Inference {
        alloc,
        solver: Solver::with_limits(alloc, limits.levels, limits.nodes),
        environment,
    };
    match infer_list(&mut inference, constructors, list) {
        Ok(()) => Ok(own_schemes(alloc, core.name.as_str(), &inference.environment)?),
        Err(UnifyFault::Clash) => Err(untypable(alloc, core, constructors, limits)),
        Err(UnifyFault::Memory) => Err(InferFault::Memory),
    }
}
