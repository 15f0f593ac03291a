//! The modules of a set of sources, and their plan.
ghost use Rattle.std.specs.Prelude.{◌≡◌, [], ◌++◌, ◌+◌, ◌<◌, ◌≤◌, ℕ, List, IfOk, IfErr, OnOk, length, map, string_bytes, sum, take};
ghost use Rattle.hm_lex.specs.Faults.{AreTokensOf};
ghost use Rattle.hm_parse_grammar.specs.Grammar.Modules.{Spells};
ghost use Rattle.hm_graph.specs.Outline.{outlines};
ghost use Rattle.hm_graph.specs.Imports.{IsImportPlan, IsLawful, imports_at, name_at};
ghost use Rattle.hm_graph.specs.Refusal.{IsRefusal as IsPlanRefusal};
ghost use Rattle.hm_syntax.specs.declared.ast.Module.{Module as ModuleTree};
ghost use Rattle.hm_run_sources.specs.Errors.{HaveHeaders, IsSourceError, IsSetError, IsPlanError};
ghost use Rattle.hm_run_sources.specs.ModuleCounts.{AreCountedModules};
ghost use Rattle.hm_run_sources.specs.Names.{import_at, module_outlines};
ghost use Rattle.hm_run_sources.specs.Origins.{AreLocated};
ghost use Rattle.hm_run_sources.specs.Parts.{FailsBehind, Follow};
ghost use Rattle.hm_run_sources.specs.Refusals.{IsLasting, plan, refusal_of};
ghost use Rattle.hm_run_sources.specs.Runs.{IsSetPlanFault};
ghost use Rattle.hm_run_sources.specs.SourceModules.{AreModulesOf, HasModules};

use crate::located::located_headers;
use crate::plan_errors::source_error;
use crate::{PlanError, RefusedSet, SetFault, SetFaultKind, Trees};
use hm_graph::{Plan, PlanFault};
use hm_lex::{LexFault, Token};
use hm_parse::ParseFault;
use hm_syntax::{Header, Module};
use std::alloc::{AllocError, Global};
use std::mem;

/// The modules of sources, in order of appearance, and the number of modules of each source.
#[derive(Drop)]
pub struct CountedModules {
    pub modules: Vec<Module>,
    pub counts: Vec<usize>,
}

/// The modules of a lawful set of sources, their import plan, and the number of modules of each source.
#[derive(Drop)]
pub struct PlannedModules {
    pub modules: Vec<Module>,
    pub plan: Plan,
    pub counts: Vec<usize>,
}

/// Why sources spell no modules.
#[derive(Debug, Drop)]
pub enum SetError {
    Refused(SetFault),
    Memory,
}

/// Returns the error of a refused source.
fn refused(kind: SetFaultKind) -> SetError
    requires { IsLasting (refusal_of kind) }
    ensures { result ≡ SetError.Refused (refusal_of kind) }
{
    SetError::Refused(SetFault { kind })
}

/// Returns the tokens of the source with this number, counted from 1.
///
/// # Errors
///
/// `Refused` with the lexical fault of the source, and `Memory` if memory ran out.
pub fn source_tokens(alloc: Global, source: usize, text: &[u8]) -> Result<Vec<Token>, SetError>
    ensures ok { IfOk result (λ tokens. AreTokensOf text.now tokens.items) }
    ensures err { IfErr result (λ e. IsSourceError source text.now e) }
{
    match hm_lex::lex(alloc, text) {
        Ok(tokens) => Ok(tokens),
        Err(LexFault::Memory) => Err(SetError::Memory),
        Err(fault) => Err(refused(SetFaultKind::Lex { source, fault })),
    }
}

/// Returns the modules that the tokens of the source with this number spell.
///
/// # Errors
///
/// `Refused` with the syntax fault of the source, and `Memory` if memory ran out.
pub fn spelled_modules(
    alloc: Global,
    source: usize,
    text: &[u8],
    tokens: &[Token],
) -> Result<Vec<Module>, SetError>
    requires { AreTokensOf text.now tokens.now }
    ensures ok { IfOk result (λ modules. Spells modules.items text.now tokens.now) }
    ensures err { IfErr result (λ e. IsSourceError source text.now e) }
{
    match hm_parse::parse(alloc, text, tokens) {
        Ok(modules) => Ok(modules),
        Err(ParseFault::Memory) => Err(SetError::Memory),
        Err(fault) => Err(refused(SetFaultKind::Parse { source, fault })),
    }
}

/// Appends one source's modules, and returns their number.
pub(crate) fn add_modules(
    alloc: Global,
    source: usize,
    text: &[u8],
    modules: &mut Vec<Module>,
) -> Result<usize, SetError>
    ensures ok { IfOk result (λ count. (first : List ModuleTree) × HasModules text.now first
        × (modules.new.items ≡ modules.old.items ++ first) × (count ≡ length first)) }
    ensures err { IfErr result (λ e. IsSourceError source text.now e) }
{
    let tokens = match source_tokens(alloc, source, text) {
        Ok(tokens) => tokens,
        Err(fault) => return Err(fault),
    };
    let parsed = match spelled_modules(alloc, source, text, tokens.as_slice()) {
        Ok(parsed) => parsed,
        Err(fault) => return Err(fault),
    };
    let count = parsed.len();
    for module in parsed {
        modules.push(module).map_err(|_| SetError::Memory)?;
    }
    Ok(count)
}

/// Returns the modules of the sources `from..to`, in order of appearance, with the number of modules of each. Sources are numbered from 0.
///
/// # Errors
///
/// `Refused` with the first fault of these sources, and `Memory` if memory ran out.
pub fn modules_between(
    alloc: Global,
    sources: &[Vec<u8>],
    from: usize,
    to: usize,
) -> Result<CountedModules, SetError>
    requires from { from ≤ to }
    requires to { to ≤ length sources.now }
    ensures ok { IfOk result (λ read. Follow (map (λ s. s.items) (take from sources.now)) (map (λ s. s.items) (take to sources.now))
        read.modules.items read.counts.items) }
    ensures err { IfErr result (FailsBehind (map (λ s. s.items) sources.now) (map (λ s. s.items) (take from sources.now))) }
{
    let mut modules = Vec::new(alloc);
    let mut counts = Vec::new(alloc);
    for index in from..to {
        let count = add_modules(alloc, index + 1, sources[index].as_slice(), &mut modules)?;
        match counts.push(count) {
            Ok(()) => {}
            Err(_) => return Err(SetError::Memory),
        }
    }
    Ok(CountedModules { modules, counts })
}

/// Returns all modules of the sources, in order of appearance, with the number of modules of each.
#[tactic(auto, using(crate::proofs::Reading::all_follow, crate::proofs::Reading::all_fail))]
fn source_modules(alloc: Global, sources: &[Vec<u8>]) -> Result<CountedModules, SetError>
    ensures read { IfOk result (λ read. AreModulesOf (map (λ s. s.items) sources.now) read.modules.items) }
    ensures counted { IfOk result (λ read. AreCountedModules (map (λ s. s.items) sources.now) read.modules.items read.counts.items) }
    ensures err { IfErr result (λ e. IsSetError (map (λ s. s.items) sources.now) e) }
{
    Ok(modules_between(alloc, sources, 0, sources.len())?)
}

/// Returns the name of a module.
#[tactic(auto, using(crate::proofs::Outlines::name_at_map))]
fn module_name(alloc: Global, modules: &[Module], number: usize) -> Result<String, AllocError>
    requires { number < length modules.now }
    ensures { IfOk result (λ name. string_bytes name ≡ name_at (module_outlines modules.now) number) }
{
    String::from_str(alloc, modules[number].header.name.as_str())
}

/// Returns the name in an import of a module.
#[tactic(auto, using(crate::proofs::Outlines::import_at_map, crate::proofs::Outlines::import_within))]
fn import_name(
    alloc: Global,
    modules: &[Module],
    number: usize,
    import: usize,
) -> Result<String, AllocError>
    requires number { number < length modules.now }
    requires import { import < length (imports_at (module_outlines modules.now) number) }
    ensures { IfOk result (λ name. string_bytes name ≡ import_at (module_outlines modules.now) number import) }
{
    let imports = modules[number].header.imports.as_slice();
    String::from_str(alloc, imports[import].name.as_str())
}

/// Returns the fault of a plan, with the names of its module and its import.
#[tactic(auto, using(crate::proofs::Outlines::outlines_below, crate::proofs::Outlines::cycle_below))]
fn plan_fault(alloc: Global, modules: &[Module], fault: PlanFault) -> Result<SetFault, AllocError>
    requires fault { IsPlanRefusal (module_outlines modules.now) fault }
    requires lasting { IsLasting (plan fault [] []) }
    ensures fault { IfOk result (λ f. IsSetPlanFault (module_outlines modules.now) f × IsLasting f) }
{
    let none = String::new(alloc);
    let (name, import) = match fault {
        PlanFault::Duplicate { module } => (module_name(alloc, modules, module)?, none),
        PlanFault::Missing { module, import } => (
            module_name(alloc, modules, module)?,
            import_name(alloc, modules, module, import)?,
        ),
        PlanFault::Cycle { module } => (module_name(alloc, modules, module)?, none),
        PlanFault::TooMany | PlanFault::Memory => (String::new(alloc), none),
    };
    let kind = SetFaultKind::Plan {
        fault,
        module: name,
        import,
    };
    Ok(SetFault { kind })
}

/// Returns the plan of these modules.
#[tactic(auto, using(crate::proofs::Outlines::lent_more, crate::proofs::Outlines::lent_all))]
fn plan_of(alloc: Global, modules: &[Module]) -> Result<Plan, PlanFault>
    ensures lawful { OnOk result (IsLawful (module_outlines modules.now)) }
    ensures refused { IfErr result (IsPlanRefusal (module_outlines modules.now)) }
    ensures plan { IfOk result (IsImportPlan (module_outlines modules.now)) }
{
    let mut headers = Vec::new(alloc);
    for module in modules {
        headers.push(&module.header)?;
    }
    hm_graph::import_plan(alloc, &headers)
}

/// Adds a plan to modules.
fn with_plan(read: CountedModules, plan: Plan) -> PlannedModules
    ensures modules { result.modules.items ≡ read.modules.items }
    ensures counts { result.counts.items ≡ read.counts.items }
    ensures plan { result.plan ≡ plan }
{
    let CountedModules { modules, counts } = read;
    PlannedModules {
        modules,
        plan,
        counts,
    }
}

/// Returns the fault of a plan, with the headers of its modules.
fn refused_set(
    alloc: Global,
    read: CountedModules,
    fault: PlanFault,
) -> Result<RefusedSet, AllocError>
    requires counted { length read.modules.items ≡ sum read.counts.items }
    requires fault { IsPlanRefusal (module_outlines read.modules.items) fault }
    requires lasting { IsLasting (plan fault [] []) }
    ensures fault { IfOk result (λ r. IsSetPlanFault (module_outlines read.modules.items) r.fault × IsLasting r.fault) }
    ensures located { IfOk result (λ r. (sources : List (List ℕ)) → AreCountedModules sources read.modules.items read.counts.items
        → AreLocated sources r.located.items) }
{
    let fault = plan_fault(alloc, read.modules.as_slice(), fault)?;
    let located = located_headers(alloc, read)?;
    Ok(RefusedSet { fault, located })
}

/// Returns the modules with their plan.
///
/// # Errors
///
/// `Refused` with the first fault of the plan and the headers of all modules, and `Memory` if memory ran out.
#[tactic(auto, using(crate::proofs::Reading::refused_by_plan, crate::proofs::Reading::plan_headers))]
pub fn planned(alloc: Global, read: CountedModules) -> Result<PlannedModules, PlanError>
    requires counted { length read.modules.items ≡ sum read.counts.items }
    ensures same { IfOk result (λ set. set.modules.items ≡ read.modules.items) }
    ensures counts { IfOk result (λ set. set.counts.items ≡ read.counts.items) }
    ensures lawful { IfOk result (λ set. IsLawful (module_outlines set.modules.items)) }
    ensures planned { IfOk result (λ set. IsImportPlan (module_outlines set.modules.items) set.plan) }
    ensures err { IfErr result (λ e. (sources : List (List ℕ)) → AreModulesOf sources read.modules.items → IsPlanError sources e) }
    ensures headers { IfErr result (λ e. (sources : List (List ℕ)) → AreCountedModules sources read.modules.items read.counts.items → HaveHeaders sources e) }
{
    match plan_of(alloc, read.modules.as_slice()) {
        Ok(plan) => Ok(with_plan(read, plan)),
        Err(PlanFault::Memory) => Err(PlanError::Memory),
        Err(fault) => match refused_set(alloc, read, fault) {
            Ok(refused) => Err(PlanError::Refused(refused)),
            Err(AllocError) => Err(PlanError::Memory),
        },
    }
}

// Why: docs/DECISIONS.md, "Order of faults".
/// Returns the modules of a set of sources, their plan, and the number of modules of each source.
///
/// # Errors
///
/// `Refused` with the first fault: that of a source, or else that of the plan. `Memory` may come at any time.
#[tactic(auto, using(crate::proofs::ModuleCounts::counts_sum))]
pub fn set_modules(alloc: Global, sources: &[Vec<u8>]) -> Result<PlannedModules, PlanError>
    ensures read { IfOk result (λ set. AreModulesOf (map (λ s. s.items) sources.now) set.modules.items) }
    ensures counted { IfOk result (λ set. AreCountedModules (map (λ s. s.items) sources.now) set.modules.items set.counts.items) }
    ensures lawful { IfOk result (λ set. IsLawful (module_outlines set.modules.items)) }
    ensures planned { IfOk result (λ set. IsImportPlan (module_outlines set.modules.items) set.plan) }
    ensures err { IfErr result (λ e. IsPlanError (map (λ s. s.items) sources.now) e) }
    ensures headers { IfErr result (λ e. HaveHeaders (map (λ s. s.items) sources.now) e) }
{
    let read = match source_modules(alloc, sources) {
        Ok(read) => read,
        Err(error) => return Err(source_error(alloc, error)),
    };
    Ok(planned(alloc, read)?)
}

/// Returns the headers of modules. Drops the rest of the modules, or leaves it in memory.
pub(crate) fn headers_of(
    alloc: Global,
    modules: Vec<Module>,
    trees: Trees,
) -> Result<Vec<Header>, AllocError>
    ensures { IfOk result (λ headers. outlines headers.items ≡ module_outlines modules.items) }
{
    let mut headers = Vec::new(alloc);
    for module in modules {
        let Module { header, decls } = module;
        if trees == Trees::Left {
            mem::forget(decls);
        }
        headers.push(header)?;
    }
    Ok(headers)
}
