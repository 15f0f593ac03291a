//! Reads sources, and takes the modules of those that earlier builds have.
ghost use Rattle.std.specs.Prelude.{◌≡◌, ◌++◌, ℕ, [], All, IfErr, IfOk, IfSome, List, OnOk, length, map};
ghost use Rattle.std.specs.Arc.{arc_value};
ghost use Rattle.hm_build_earlier.specs.Earlier.{IsOfTexts};
ghost use Rattle.hm_build_earlier.specs.Known.{IsKnown};
ghost use Rattle.hm_build_stages.specs.Errors.{IsBuildError};
ghost use Rattle.hm_graph.specs.Imports.{IsImportPlan, IsLawful};
ghost use Rattle.hm_run_sources.specs.Errors.{IsSetError, IsSourceError};
ghost use Rattle.hm_run_sources.specs.ModuleCounts.{AreCountedModules};
ghost use Rattle.hm_run_sources.specs.Names.{module_outlines};
ghost use Rattle.hm_run_sources.specs.SourceModules.{AreModulesOf, HasModules};
ghost use Rattle.hm_syntax.specs.declared.ast.Module.{Module as ModuleTree};

use crate::Earlier;
use crate::known::{KnownSources, known_modules, known_sources};
use hm_build_stages::{BuildFault, Fresh, read, with_store};
use hm_graph::{Plan, PlanFault, import_plan};
use hm_run_parallel_parse::Pool;
use hm_run_sources::{PlanError, SetError, source_error, source_tokens, spelled_modules};
use hm_syntax::Module;
use std::alloc::{AllocError, Global};
use std::sync::{Arc, Wait};
use std::thread::Threads;

/// The modules of sources, in order of appearance, and the number of modules of each source.
#[derive(Drop)]
struct SharedModules {
    modules: Vec<Arc<Module>>,
    counts: Vec<usize>,
}

/// Appends second owners of these modules. Copies no tree.
fn add_lent(modules: &mut Vec<Arc<Module>>, lent: &[Arc<Module>]) -> Result<(), AllocError>
    ensures { OnOk result (map arc_value modules.new.items ≡ map arc_value modules.old.items ++ map arc_value lent.now) }
{
    for module in lent {
        modules.push(Arc::try_clone(module)?)?;
    }
    Ok(())
}

/// Appends these modules, shared between threads.
fn add_shared(
    alloc: Global,
    modules: &mut Vec<Arc<Module>>,
    parsed: Vec<Module>,
) -> Result<(), AllocError>
    ensures { OnOk result (map arc_value modules.new.items ≡ map arc_value modules.old.items ++ parsed.items) }
{
    for module in parsed {
        modules.push(Arc::new(alloc, module)?)?;
    }
    Ok(())
}

/// Returns the modules of the source with this number, counted from 1.
fn parsed_modules(alloc: Global, source: usize, text: &[u8]) -> Result<Vec<Module>, SetError>
    ensures ok { IfOk result (λ parsed. HasModules text.now parsed.items) }
    ensures err { IfErr result (λ e. IsSourceError source text.now e) }
{
    match source_tokens(alloc, source, text) {
        Ok(tokens) => Ok(spelled_modules(alloc, source, text, tokens.as_slice())?),
        Err(error) => Err(error),
    }
}

/// Appends the modules of a source, and returns their number. The number of the source is counted from 1.
fn add_parsed(
    alloc: Global,
    source: usize,
    text: &[u8],
    modules: &mut Vec<Arc<Module>>,
) -> Result<usize, SetError>
    ensures ok { IfOk result (λ count. (first : List ModuleTree) × HasModules text.now first
        × (map arc_value modules.new.items ≡ map arc_value modules.old.items ++ first) × (count ≡ length first)) }
    ensures err { IfErr result (λ e. IsSourceError source text.now e) }
{
    let parsed = parsed_modules(alloc, source, text)?;
    let count = parsed.len();
    match add_shared(alloc, modules, parsed) {
        Ok(()) => Ok(count),
        Err(AllocError) => Err(SetError::Memory),
    }
}

/// Appends the modules of a source, and returns their number. Parses them if no earlier build has them.
fn add_source(
    alloc: Global,
    lent: Option<&[Arc<Module>]>,
    source: usize,
    text: &[u8],
    modules: &mut Vec<Arc<Module>>,
) -> Result<usize, SetError>
    requires { IfSome lent (λ known. HasModules text.now (map arc_value known.now)) }
    ensures ok { IfOk result (λ count. (first : List ModuleTree) × HasModules text.now first
        × (map arc_value modules.new.items ≡ map arc_value modules.old.items ++ first) × (count ≡ length first)) }
    ensures err { IfErr result (λ e. IsSourceError source text.now e) }
{
    let Some(lent) = lent else {
        return Ok(add_parsed(alloc, source, text, modules)?);
    };
    match add_lent(modules, lent) {
        Ok(()) => Ok(lent.len()),
        Err(AllocError) => Err(SetError::Memory),
    }
}

/// Returns the modules of all sources.
///
/// # Errors
///
/// `Refused` with the first fault of these sources, and `Memory` if memory ran out.
fn shared_modules(
    alloc: Global,
    sources: &[Vec<u8>],
    known: &KnownSources<'_>,
) -> Result<SharedModules, SetError>
    requires { All IsKnown known.now.list.items }
    ensures counted { IfOk result (λ read. AreCountedModules (map (λ s. s.items) sources.now) (map arc_value read.modules.items) read.counts.items) }
    ensures err { IfErr result (λ e. IsSetError (map (λ s. s.items) sources.now) e) }
{
    let mut modules = Vec::new(alloc);
    let mut counts = Vec::new(alloc);
    let mut next = 0;
    for index in 0..sources.len() {
        let text = sources[index].as_slice();
        let lent = known_modules(known, &mut next, text);
        let count = add_source(alloc, lent, index + 1, text, &mut modules)?;
        match counts.push(count) {
            Ok(()) => {}
            Err(_) => return Err(SetError::Memory),
        }
    }
    Ok(SharedModules { modules, counts })
}

/// Returns the modules of all sources. Takes those of sources whose texts an earlier build has.
///
/// # Errors
///
/// `Refused` with the first fault of these sources, and `Memory` if memory ran out.
fn modules_after(
    alloc: Global,
    sources: &[Vec<u8>],
    earlier: &[Earlier<'_>],
) -> Result<SharedModules, SetError>
    requires { All IsOfTexts earlier.now }
    ensures counted { IfOk result (λ read. AreCountedModules (map (λ s. s.items) sources.now) (map arc_value read.modules.items) read.counts.items) }
    ensures err { IfErr result (λ e. IsSetError (map (λ s. s.items) sources.now) e) }
{
    match known_sources(alloc, earlier) {
        Ok(known) => shared_modules(alloc, sources, &known),
        Err(AllocError) => Err(SetError::Memory),
    }
}

/// Returns the plan of these modules.
fn plan_of(alloc: Global, modules: &[Arc<Module>]) -> Result<Plan, PlanFault>
    ensures lawful { OnOk result (IsLawful (module_outlines (map arc_value modules.now))) }
    ensures plan { IfOk result (IsImportPlan (module_outlines (map arc_value modules.now))) }
{
    let mut headers = Vec::new(alloc);
    for module in modules {
        headers.push(&module.header)?;
    }
    Ok(import_plan(alloc, &headers)?)
}

/// Returns the fault of a build whose sources can't be read for this reason.
fn source_fault(alloc: Global, error: SetError) -> BuildFault
    ensures { (sources : List (List ℕ)) → IsSetError sources error → IsBuildError sources result }
{
    match source_error(alloc, error) {
        PlanError::Refused(refused) => BuildFault::Refused(refused),
        PlanError::Memory => BuildFault::Memory,
    }
}

/// Does what `hm_build_stages::read` does, and takes the modules of sources whose texts an earlier build has. This thread lexes and parses the others.
///
/// # Errors
///
/// `Refused` with the first fault of the sources, or else that of their plan. `Memory` if memory ran out.
pub fn read_after<T: Threads + Wait + Sync>(
    rt: &T,
    alloc: Global,
    sources: &[Vec<u8>],
    earlier: &[Earlier<'_>],
    pool: Pool,
) -> Result<Fresh, BuildFault>
    requires { All IsOfTexts earlier.now }
    ensures read { IfOk result (λ f. AreModulesOf (map (λ s. s.items) sources.now) (map arc_value f.modules.items)) }
    ensures counted { IfOk result (λ f. AreCountedModules (map (λ s. s.items) sources.now) (map arc_value f.modules.items) f.counts.items) }
    ensures same { IfOk result (λ f. map arc_value f.modules.items ≡ f.store.modules) }
    ensures imports { IfOk result (λ f. map (λ row. row.items) f.imports.items ≡ f.store.given.imports) }
    ensures empty { IfOk result (λ f. f.store.journal ≡ []) }
    ensures err { IfErr result (IsBuildError (map (λ s. s.items) sources.now)) }
{
    if earlier.is_empty() {
        return Ok(read(rt, alloc, sources, pool)?);
    }
    let SharedModules { modules, counts } = match modules_after(alloc, sources, earlier) {
        Ok(shared) => shared,
        Err(error) => return Err(source_fault(alloc, error)),
    };
    match plan_of(alloc, modules.as_slice()) {
        Ok(plan) => Ok(with_store(alloc, modules, plan, counts)?),
        Err(_) => {
            drop(modules);
            Ok(read(rt, alloc, sources, pool)?)
        }
    }
}
