//! Checks one module for the interfaces of its imports.

ghost use Rattle.std.specs.Prelude.{◌≡◌, ◌∷◌, IfOk, IfErr, List, map};
ghost use Rattle.std.specs.Arc.{arc_value};
ghost use Rattle.hm_types.specs.Interfaces.{Exports};
ghost use Rattle.hm_types.specs.StandardPrelude.{prelude_interface};
ghost use Rattle.hm_syntax.specs.declared.ast.Module.{Module as ModuleTree};
ghost use Rattle.hm_names.specs.Cores.{IsCore, IsSomeCore};
ghost use Rattle.hm_names.specs.Imports.{AreImportsOf};
ghost use Rattle.hm_names.specs.SchemeTables.{scheme_of};
ghost use Rattle.hm_verdicts.specs.ModuleVerdicts.{ArePrincipal, IsVerdict};
ghost use Rattle.hm_verdicts.specs.Outcomes.{verdict_of};
ghost use Rattle.hm_check.specs.Refusals.{IsRefused};

use hm_infer::{InferFault, infer_within};
use hm_names::{Core, Schemes, ScopeFault, TypeLimits, WIDE_LIMITS};
use hm_scope::scope_within;
use hm_scope_imports::are_imports_of;
use hm_scope_interface::export;
use hm_syntax::{Module, Row};
use hm_types::Interface;
use hm_types_prelude::SharedPrelude;
use hm_verdicts::{Outcome, Verdict};
use std::alloc::{AllocError, AllocFailed, Global};
use std::sync::Arc;
use thiserror::Error;

/// Why a module has no outcome.
#[derive(Clone, Copy, Debug, Error, PartialEq, Eq)]
pub enum CheckFault {
    /// The interfaces aren't those of the module's imports, each once, in order of first import.
    #[error("the interfaces aren't those of the imports")]
    Imports,
    /// Memory ran out.
    #[error("no memory")]
    Memory,
}

impl From<AllocError> for CheckFault {
    ghost use Rattle.std.specs.Prelude.{◌≡◌};
    ghost use Rattle.hm_check.specs.declared.checking.CheckFault.TheVariants.{Memory};

    ghost from_gives = { λ _ fault. fault ≡ Memory };

    fn from(_error: AllocError) -> CheckFault {
        CheckFault::Memory
    }
}

/// Returns the verdict of a core with these schemes: good, with its interface.
fn good(alloc: Global, core: &Core, schemes: &Schemes) -> Result<Verdict, AllocError>
    requires core { IsSomeCore core.now }
    requires principal { ArePrincipal core.now (scheme_of schemes.now) }
    ensures { IfOk result (λ v. (m : ModuleTree) (fs : List Exports) → IsCore m fs core.now → IsVerdict m fs (verdict_of v)) }
{
    let interface = export(alloc, core, schemes)?;
    Ok(Verdict::Good(Arc::new(alloc, interface)?))
}

/// Returns the verdict of a well-formed module.
fn core_verdict(alloc: Global, core: &Core, limits: TypeLimits) -> Result<Verdict, AllocError>
    requires { IsSomeCore core.now }
    ensures { IfOk result (λ v. (m : ModuleTree) (fs : List Exports) → IsCore m fs core.now → IsVerdict m fs (verdict_of v)) }
{
    match infer_within(alloc, core, limits) {
        Ok(schemes) => Ok(good(alloc, core, &schemes)?),
        Err(InferFault::Untypable(found)) => Ok(Verdict::Faulty(found)),
        Err(InferFault::Memory) => Err(AllocError),
    }
}

/// Returns the verdict of a module for the interfaces that it requires.
fn module_verdict(
    alloc: Global,
    prelude: &SharedPrelude,
    module: &Module,
    imports: &[Arc<Interface>],
    limits: TypeLimits,
) -> Result<Verdict, AllocError>
    requires { AreImportsOf «module».now (map arc_value imports.now) }
    ensures { IfOk result (λ v. IsVerdict «module».now (prelude_interface ∷ map arc_value imports.now) (verdict_of v)) }
{
    match scope_within(alloc, prelude, module, imports, limits) {
        Ok(core) => Ok(core_verdict(alloc, &core, limits)?),
        Err(ScopeFault::Faults(found)) => Ok(Verdict::Faulty(found)),
        Err(ScopeFault::Memory) => Err(AllocError),
    }
}

/// Shares interfaces with a new row.
fn shared(alloc: Global, interfaces: &[Arc<Interface>]) -> Result<Row<Arc<Interface>>, AllocError>
    ensures { IfOk result (λ row. map arc_value row ≡ map arc_value interfaces.now) }
{
    let mut items: Vec<Arc<Interface>> = Vec::new(alloc);
    for interface in interfaces {
        items.push(interface.clone()?)?;
    }
    Ok(Row { items })
}

/// Returns `Imports` if these interfaces aren't those that the module requires.
fn expect_imports(
    alloc: Global,
    module: &Arc<Module>,
    imports: &[Arc<Interface>],
) -> Result<(), CheckFault>
    ensures asked { IfOk result (λ _. AreImportsOf (arc_value «module».now) (map arc_value imports.now)) }
    ensures refused { IfErr result (IsRefused (arc_value «module».now) (map arc_value imports.now)) }
{
    if are_imports_of(alloc, module, imports)? {
        return Ok(());
    }
    Err(CheckFault::Imports)
}

/// Returns the outcome of a module for the interfaces that it requires.
fn checked(
    alloc: Global,
    prelude: &SharedPrelude,
    module: &Arc<Module>,
    imports: &[Arc<Interface>],
    limits: TypeLimits,
) -> Result<Outcome, AllocError>
    requires { AreImportsOf (arc_value «module».now) (map arc_value imports.now) }
    ensures module { IfOk result (λ o. o.«module» ≡ arc_value «module».now) }
    ensures imports { IfOk result (λ o. o.imports ≡ map arc_value imports.now) }
    ensures right { IfOk result (λ o. IsVerdict (arc_value «module».now) (prelude_interface ∷ map arc_value imports.now) o.verdict) }
{
    let verdict = module_verdict(alloc, prelude, module, imports, limits)?;
    let imports = shared(alloc, imports)?;
    Ok(Outcome::new(module.clone()?, imports, verdict))
}

/// Checks a module for Prelude's interface and those of its imports, and returns the outcome with its verdict.
///
/// `imports` has the interface of each imported module except Prelude, each once, in order of first import.
///
/// # Errors
///
/// `Imports` if the interfaces are not those, and `Memory` if memory ran out.
pub fn check_module(
    alloc: Global,
    module: &Arc<Module>,
    imports: &[Arc<Interface>],
) -> Result<Outcome, CheckFault>
    ensures asked { IfOk result (λ _. AreImportsOf (arc_value «module».now) (map arc_value imports.now)) }
    ensures refused { IfErr result (IsRefused (arc_value «module».now) (map arc_value imports.now)) }
    ensures module { IfOk result (λ o. o.«module» ≡ arc_value «module».now) }
    ensures imports { IfOk result (λ o. o.imports ≡ map arc_value imports.now) }
    ensures right { IfOk result (λ o. IsVerdict (arc_value «module».now) (prelude_interface ∷ map arc_value imports.now) o.verdict) }
{
    expect_imports(alloc, module, imports)?;
    let prelude = SharedPrelude::new(alloc)?;
    Ok(checked(alloc, &prelude, module, imports, WIDE_LIMITS)?)
}

/// Does what `check_module` does, with a Prelude made before and with limits for the module's types. A type above a limit is refused with `Memory`.
pub fn check_module_within(
    alloc: Global,
    prelude: &SharedPrelude,
    module: &Arc<Module>,
    imports: &[Arc<Interface>],
    limits: TypeLimits,
) -> Result<Outcome, CheckFault>
    ensures asked { IfOk result (λ _. AreImportsOf (arc_value «module».now) (map arc_value imports.now)) }
    ensures refused { IfErr result (IsRefused (arc_value «module».now) (map arc_value imports.now)) }
    ensures module { IfOk result (λ o. o.«module» ≡ arc_value «module».now) }
    ensures imports { IfOk result (λ o. o.imports ≡ map arc_value imports.now) }
    ensures right { IfOk result (λ o. IsVerdict (arc_value «module».now) (prelude_interface ∷ map arc_value imports.now) o.verdict) }
{
    expect_imports(alloc, module, imports)?;
    Ok(checked(alloc, prelude, module, imports, limits)?)
}
