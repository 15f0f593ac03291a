//! Stores for the modules of sources.
ghost use Rattle.std.specs.Prelude.{◌≡◌, [], IfOk, map};
ghost use Rattle.std.specs.Arc.{arc_value};
ghost use Rattle.hm_graph.specs.Imports.{IsImportPlan, IsLawful};
ghost use Rattle.hm_run_sources.specs.Names.{module_outlines};

use crate::sources::{NO_MEMORY, module_of};
use hm_check::{CheckFault, check_module};
use hm_graph::Plan;
use hm_run_sources::{PlanError, PlannedModules, set_modules};
use hm_store::Store;
use hm_syntax::Module;
use hm_verdicts::Outcome;
use std::alloc::{AllocError, Global};
use std::sync::Arc;
use std::test::Fail;

/// Returns the outcome of the only module of a source. The module has no imports.
pub(crate) fn outcome_of(alloc: Global, source: &[u8]) -> Result<Outcome, Fail> {
    match check_module(alloc, &module_of(alloc, source)?, &[]) {
        Ok(outcome) => Ok(outcome),
        Err(CheckFault::Memory) => Err(Fail::from(NO_MEMORY)),
        Err(CheckFault::Imports) => Err(Fail::from("the imports are refused")),
    }
}

/// Returns the modules of sources, and their plan.
pub(crate) fn set_of(alloc: Global, texts: &[&[u8]]) -> Result<(Vec<Module>, Plan), Fail>
    ensures lawful { IfOk result (λ set. IsLawful (module_outlines set.0.items)) }
    ensures planned { IfOk result (λ set. IsImportPlan (module_outlines set.0.items) set.1) }
{
    let mut sources = Vec::new(alloc);
    for text in texts {
        sources.push(Vec::from_slice(alloc, text)?)?;
    }
    match set_modules(alloc, &sources) {
        Ok(PlannedModules { modules, plan, .. }) => Ok((modules, plan)),
        Err(PlanError::Memory) => Err(Fail::from(NO_MEMORY)),
        Err(PlanError::Refused(_)) => Err(Fail::from("the sources are refused")),
    }
}

/// Shares modules, for a store.
pub(crate) fn shared_modules(
    alloc: Global,
    modules: Vec<Module>,
) -> Result<Vec<Arc<Module>>, AllocError>
    ensures { IfOk result (λ shared. map arc_value shared.items ≡ modules.items) }
{
    let mut shared = Vec::new(alloc);
    for module in modules {
        shared.push(Arc::new(alloc, module)?)?;
    }
    Ok(shared)
}

/// Returns a store for the modules of a lawful set.
fn set_up(alloc: Global, modules: Vec<Module>, plan: Plan) -> Result<Store, AllocError>
    requires lawful { IsLawful (module_outlines modules.items) }
    requires planned { IsImportPlan (module_outlines modules.items) plan }
    ensures { IfOk result (λ s. s.journal ≡ []) }
{
    let modules = shared_modules(alloc, modules)?;
    Ok(Store::new(alloc, modules, plan)?)
}

/// Returns a store for the modules of sources, numbered in order.
pub(crate) fn store_of(alloc: Global, texts: &[&[u8]]) -> Result<Store, Fail>
    ensures { IfOk result (λ s. s.journal ≡ []) }
{
    match set_of(alloc, texts) {
        Ok((modules, plan)) => Ok(set_up(alloc, modules, plan)?),
        Err(fault) => Err(fault),
    }
}

/// A module that imports `B`.
pub(crate) const IMPORTER: &[u8] = b"module A where { import B ; x = y }";

/// The module that it imports.
pub(crate) const IMPORTED: &[u8] = b"module B where { y = 'c' }";
