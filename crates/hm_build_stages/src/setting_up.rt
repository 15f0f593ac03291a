//! Sets up a build: a store for the modules of sources, and the number of calls that a worker may make.
ghost use Rattle.std.specs.Prelude.{◌≡◌, ◌<◌, ◌^◌, [], IfErr, IfOk, map};
ghost use Rattle.std.specs.Arc.{arc_value};
ghost use Rattle.hm_graph.specs.Imports.{IsImportPlan, IsLawful};
ghost use Rattle.hm_run_sources.specs.ModuleCounts.{AreCountedModules};
ghost use Rattle.hm_run_sources.specs.Names.{module_outlines};
ghost use Rattle.hm_run_sources.specs.SourceModules.{AreModulesOf};
ghost use Rattle.hm_build_stages.specs.Errors.{IsBuildError};
ghost use Rattle.hm_build_stages.specs.Rooms.{room_of};

use crate::BuildFault;
use hm_graph::Plan;
use hm_run_parallel_parse::{Pool, set_modules_by};
use hm_run_sources::{PlanError, PlannedModules};
use hm_store::Store;
use hm_syntax::Module;
use hm_types_prelude::SharedPrelude;
use std::alloc::{AllocError, Global};
use std::sync::{Arc, Wait};
use std::thread::Threads;

/// A new store with its modules and Prelude's interface.
#[derive(Drop)]
pub struct Fresh {
    pub modules: Vec<Arc<Module>>,
    /// For each module, the numbers of the modules that it imports, in order of first import.
    pub imports: Vec<Vec<usize>>,
    /// The number of modules of each source.
    pub counts: Vec<usize>,
    pub store: Store,
    pub prelude: SharedPrelude,
}

/// Shares modules between threads.
fn shared_modules(alloc: Global, modules: Vec<Module>) -> Result<Vec<Arc<Module>>, AllocError>
    ensures { IfOk result (λ shared. map arc_value shared.items ≡ modules.items) }
{
    let mut shared = Vec::new(alloc);
    for module in modules {
        shared.push(Arc::new(alloc, module)?)?;
    }
    Ok(shared)
}

/// Returns second owners of the modules. Copies no tree.
pub(crate) fn lend_all(
    alloc: Global,
    modules: &[Arc<Module>],
) -> Result<Vec<Arc<Module>>, AllocError>
    ensures { IfOk result (λ lent. map arc_value lent.items ≡ map arc_value modules.now) }
{
    let mut lent = Vec::new(alloc);
    for module in modules {
        lent.push(Arc::try_clone(module)?)?;
    }
    Ok(lent)
}

/// Returns for each module the numbers of the modules that it imports.
fn import_rows(alloc: Global, plan: &Plan) -> Result<Vec<Vec<usize>>, AllocError>
    ensures { IfOk result (λ rows. map (λ row. row.items) rows.items ≡ plan.now) }
{
    let mut rows = Vec::new(alloc);
    for number in 0..plan.len() {
        rows.push(Vec::from_slice(alloc, plan.imports(number))?)?;
    }
    Ok(rows)
}

/// Returns a store for these modules of a lawful set, with their plan and the number of modules of each source.
pub fn with_store(
    alloc: Global,
    modules: Vec<Arc<Module>>,
    plan: Plan,
    counts: Vec<usize>,
) -> Result<Fresh, AllocError>
    requires lawful { IsLawful (module_outlines (map arc_value modules.items)) }
    requires planned { IsImportPlan (module_outlines (map arc_value modules.items)) plan }
    ensures modules { IfOk result (λ f. map arc_value f.modules.items ≡ map arc_value modules.items) }
    ensures counts { IfOk result (λ f. f.counts.items ≡ counts.items) }
    ensures same { IfOk result (λ f. map arc_value f.modules.items ≡ f.store.modules) }
    ensures imports { IfOk result (λ f. map (λ row. row.items) f.imports.items ≡ f.store.given.imports) }
    ensures empty { IfOk result (λ f. f.store.journal ≡ []) }
{
    let prelude = SharedPrelude::new(alloc)?;
    let imports = import_rows(alloc, &plan)?;
    let store = Store::new(alloc, lend_all(alloc, modules.as_slice())?, plan)?;
    Ok(Fresh {
        modules,
        imports,
        counts,
        store,
        prelude,
    })
}

/// Returns a store for the modules of a lawful set.
fn set_up(alloc: Global, set: PlannedModules) -> Result<Fresh, AllocError>
    requires lawful { IsLawful (module_outlines set.modules.items) }
    requires planned { IsImportPlan (module_outlines set.modules.items) set.plan }
    ensures modules { IfOk result (λ f. map arc_value f.modules.items ≡ set.modules.items) }
    ensures counts { IfOk result (λ f. f.counts.items ≡ set.counts.items) }
    ensures same { IfOk result (λ f. map arc_value f.modules.items ≡ f.store.modules) }
    ensures imports { IfOk result (λ f. map (λ row. row.items) f.imports.items ≡ f.store.given.imports) }
    ensures empty { IfOk result (λ f. f.store.journal ≡ []) }
{
    let PlannedModules {
        modules,
        plan,
        counts,
    } = set;
    let modules = shared_modules(alloc, modules)?;
    Ok(with_store(alloc, modules, plan, counts)?)
}

/// Lexes and parses sources with a pool of threads, and returns a store for their modules.
///
/// # Errors
///
/// `Refused` with the first fault of the sources, or else that of their plan. `Memory` if memory ran out.
pub fn read<T: Threads + Wait + Sync>(
    rt: &T,
    alloc: Global,
    sources: &[Vec<u8>],
    pool: Pool,
) -> Result<Fresh, BuildFault>
    ensures read { IfOk result (λ f. AreModulesOf (map (λ s. s.items) sources.now) (map arc_value f.modules.items)) }
    ensures counted { IfOk result (λ f. AreCountedModules (map (λ s. s.items) sources.now) (map arc_value f.modules.items) f.counts.items) }
    ensures same { IfOk result (λ f. map arc_value f.modules.items ≡ f.store.modules) }
    ensures imports { IfOk result (λ f. map (λ row. row.items) f.imports.items ≡ f.store.given.imports) }
    ensures empty { IfOk result (λ f. f.store.journal ≡ []) }
    ensures err { IfErr result (IsBuildError (map (λ s. s.items) sources.now)) }
{
    match set_modules_by(rt, alloc, sources, pool) {
        Ok(set) => Ok(set_up(alloc, set)?),
        Err(PlanError::Refused(refused)) => Err(BuildFault::Refused(refused)),
        Err(PlanError::Memory) => Err(BuildFault::Memory),
    }
}

// Why: docs/DECISIONS.md, "Room in advance".
/// Returns the number of calls that a worker may make.
///
/// # Errors
///
/// If there are more than 2^40, for which no machine has memory.
pub fn room_for(imports: &[Vec<usize>]) -> Result<usize, AllocError>
    ensures { IfOk result (λ room. (room ≡ room_of (map (λ row. row.items) imports.now)) × (room < 2 ^ 62)) }
{
    let mut room = 2usize;
    for row in imports {
        room = room.saturating_add(row.len()).saturating_add(2);
    }
    if room > 1 << 40 {
        return Err(AllocError);
    }
    Ok(room)
}
