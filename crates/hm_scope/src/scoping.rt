//! Resolves a module to its core, or finds its faults.

ghost use Rattle.std.specs.Prelude.{◌≡◌, ◌↔◌, ◌∷◌, List, length, map, IfOk, IfErr, Contains};
ghost use Rattle.std.specs.Arc.{arc_value};
ghost use Rattle.hm_syntax.specs.declared.ast.Module.{Module as ModuleTree};
ghost use Rattle.hm_types.specs.Interfaces.{Exports as Interface};
ghost use Rattle.hm_types.specs.StandardPrelude.{prelude_interface};
ghost use Rattle.hm_names.specs.declared.faults.Fault.{Fault};
ghost use Rattle.hm_names.specs.declared.namespace.Namespace.{Namespace};
ghost use Rattle.hm_scope.specs.Answers.{AreNoted, AreTreeFaults, AreTrees, AreWalked, IsAnswer, IsAnswerBehind, AreExportedRows, rows_in};
ghost use Rattle.hm_names.specs.Faults.Phases.{Exporting};
ghost use Rattle.hm_scope_exports.specs.ModuleExports.{AreExportsOf};
ghost use Rattle.hm_scope.specs.NeededSynonyms.{AreExportedTypes};
ghost use Rattle.hm_scope.specs.PhaseAnswers.{AreExact};
ghost use Rattle.hm_scope_tables.specs.KnownTables.{AreTablesOf};
ghost use Rattle.hm_scope.specs.Synonyms.{AreOwnSynonyms, HasSynonymFault, IsReferenceGraph};
ghost use Rattle.hm_names.specs.Bindings.{IsScopeOf};
ghost use Rattle.hm_names.specs.Cores.{IsCore};
ghost use Rattle.hm_scope_exports.specs.ExportedRows.{HaveOneEntity};
ghost use Rattle.hm_names.specs.Imports.{AreImportsOf};
ghost use Rattle.hm_scope_imports.specs.Apart.{AreNamedApart};
ghost use Rattle.hm_scope.specs.Outcome.{IsFaulty, IsOutcome};

use crate::answering::{first_faults, phase_answer};
use crate::declared_synonyms::{OwnSynonyms, own_synonyms, reference_graph};
use crate::finished_synonyms::add_synonyms;
use crate::needed_synonyms::{DeclaredSynonyms, exported_types, kept_decls};
use crate::phases::{TreeFaults, by_phases};
use crate::recursive_synonyms::synonym_faults;
use hm_names::{
    Core, Exported, Fault, NO_SYNONYMS, Namespace, ScopeFault, TypeLimits, WIDE_LIMITS,
};
use hm_scope_entities::Tables;
use hm_scope_exports::{ModuleExports, exported_in, module_exports};
use hm_scope_imports::{import_faults, interfaces_of, scope_of};
use hm_scope_resolve::{Walked, walk};
use hm_scope_tables::{Binding, Scope, TextSet};
use hm_syntax::{Decl, Module, Row};
use hm_types::{Interface, Text};
use hm_types_prelude::SharedPrelude;
use std::alloc::{AllocError, Global};
use std::sync::Arc;

/// A module's resolved declarations, and the faults of its trees by phase: declaration lists; names; numbers of arguments with recursive
/// synonyms.
#[derive(Drop)]
pub(crate) struct Trees {
    pub(crate) decls: Vec<Decl>,
    pub(crate) lists: Vec<Fault>,
    pub(crate) names: Vec<Fault>,
    pub(crate) numbers: Vec<Fault>,
}

/// The result of the phases: resolved declarations and exports, or the faults of the first phase that has any.
#[derive(Drop)]
pub(crate) enum Answer<'a> {
    Resolved(Vec<Decl>, Vec<Binding<'a>>),
    Faulty(Row<Fault>),
}

/// A module with its scope, and the interfaces from which that is made.
#[derive(Clone, Copy)]
struct ScopedModule<'r, 'a> {
    program: &'a Module,
    interfaces: &'r [&'a Interface],
    scope: &'r Scope<'a>,
}

/// Adds the module's synonyms to the tables, and walks over the module.
fn walked_with<'a>(
    alloc: Global,
    program: &'a Module,
    scope: &Scope<'a>,
    tables: &mut Tables<'a>,
    synonyms: &DeclaredSynonyms<'_, 'a>,
) -> Result<Walked, AllocError>
    requires synonyms { AreOwnSynonyms program.now.decls synonyms.now.own.now }
    requires nodes { length synonyms.now.graph.now ≡ length synonyms.now.own.now.names }
    ensures { IfOk result (λ walked. (fs : List Interface) → IsScopeOf program.now fs scope.now → AreTablesOf program.now fs tables.old
        → IsReferenceGraph program.now fs synonyms.now.own.now.names synonyms.now.graph.now → AreExportedTypes program.now fs synonyms.now.exported.now
        → AreWalked program.now fs walked.decls.items walked.faults.items) }
{
    let nodes = tables.nodes().get();
    add_synonyms(alloc, tables, scope, program, synonyms)?;
    // The limit of the walk doesn't count the nodes of the synonyms.
    tables.nodes().set(nodes);
    let Walked { decls, faults } = walk(alloc, scope, tables, program)?;
    let kept = kept_decls(alloc, decls, synonyms.exported)?;
    Ok(Walked {
        decls: kept,
        faults,
    })
}

/// Walks over a module with these synonyms.
fn walked_trees<'a>(
    alloc: Global,
    scoped: &ScopedModule<'_, 'a>,
    synonyms: &DeclaredSynonyms<'_, 'a>,
    limits: TypeLimits,
) -> Result<Walked, AllocError>
    requires scope { IsScopeOf scoped.now.program.now (map (λ f. f.now) scoped.now.interfaces.now) scoped.now.scope.now }
    requires synonyms { AreOwnSynonyms scoped.now.program.now.decls synonyms.now.own.now }
    requires nodes { length synonyms.now.graph.now ≡ length synonyms.now.own.now.names }
    requires edges { IsReferenceGraph scoped.now.program.now (map (λ f. f.now) scoped.now.interfaces.now) synonyms.now.own.now.names synonyms.now.graph.now }
    requires exported { AreExportedTypes scoped.now.program.now (map (λ f. f.now) scoped.now.interfaces.now) synonyms.now.exported.now }
    ensures { IfOk result (λ walked. AreWalked scoped.now.program.now (map (λ f. f.now) scoped.now.interfaces.now) walked.decls.items walked.faults.items) }
{
    let mut tables = Tables::of(alloc, scoped.program, scoped.interfaces, limits)?;
    walked_with(alloc, scoped.program, scoped.scope, &mut tables, synonyms)
}

/// Returns the trees of a walk, with its faults by phase and those of recursive synonyms.
fn trees_of(alloc: Global, walked: Walked, recursive: Vec<Fault>) -> Result<Trees, AllocError>
    ensures { IfOk result (λ trees. (m : ModuleTree) (fs : List Interface) → AreWalked m fs walked.decls.items walked.faults.items
        → ((f : Fault) → Contains recursive.items f ↔ HasSynonymFault m fs f) → AreTrees m fs trees) }
{
    let Walked { decls, faults } = walked;
    let parts = by_phases(alloc, faults, recursive)?;
    Ok(Trees {
        decls,
        lists: parts.lists,
        names: parts.names,
        numbers: parts.numbers,
    })
}

/// Returns the trees of a module with these synonyms.
fn trees_with<'a>(
    alloc: Global,
    scoped: &ScopedModule<'_, 'a>,
    synonyms: &DeclaredSynonyms<'_, 'a>,
    limits: TypeLimits,
) -> Result<Trees, AllocError>
    requires scope { IsScopeOf scoped.now.program.now (map (λ f. f.now) scoped.now.interfaces.now) scoped.now.scope.now }
    requires synonyms { AreOwnSynonyms scoped.now.program.now.decls synonyms.now.own.now }
    requires nodes { length synonyms.now.graph.now ≡ length synonyms.now.own.now.names }
    requires edges { IsReferenceGraph scoped.now.program.now (map (λ f. f.now) scoped.now.interfaces.now) synonyms.now.own.now.names synonyms.now.graph.now }
    requires exported { AreExportedTypes scoped.now.program.now (map (λ f. f.now) scoped.now.interfaces.now) synonyms.now.exported.now }
    ensures { IfOk result (AreTrees scoped.now.program.now (map (λ f. f.now) scoped.now.interfaces.now)) }
{
    let recursive = synonym_faults(alloc, scoped.program, &synonyms.own.names, synonyms.graph)?;
    let walked = walked_trees(alloc, scoped, synonyms, limits)?;
    Ok(trees_of(alloc, walked, recursive)?)
}

/// Returns the trees of a module with these synonyms and the graph of their references.
fn trees_over<'a>(
    alloc: Global,
    scoped: &ScopedModule<'_, 'a>,
    own: &OwnSynonyms<'a>,
    exported: &TextSet<'a>,
    limits: TypeLimits,
) -> Result<Trees, AllocError>
    requires scope { IsScopeOf scoped.now.program.now (map (λ f. f.now) scoped.now.interfaces.now) scoped.now.scope.now }
    requires synonyms { AreOwnSynonyms scoped.now.program.now.decls own.now }
    requires exported { AreExportedTypes scoped.now.program.now (map (λ f. f.now) scoped.now.interfaces.now) exported.now }
    ensures { IfOk result (AreTrees scoped.now.program.now (map (λ f. f.now) scoped.now.interfaces.now)) }
{
    let graph = reference_graph(alloc, scoped.scope, scoped.program, &own.names)?;
    let synonyms = DeclaredSynonyms {
        own,
        graph: &graph,
        exported,
    };
    trees_with(alloc, scoped, &synonyms, limits)
}

/// Returns the trees of a module with these exports. Its names are resolved if it has no faults.
fn resolved_trees<'a>(
    alloc: Global,
    scoped: &ScopedModule<'_, 'a>,
    exports: &ModuleExports<'a>,
    limits: TypeLimits,
) -> Result<Trees, AllocError>
    requires scope { IsScopeOf scoped.now.program.now (map (λ f. f.now) scoped.now.interfaces.now) scoped.now.scope.now }
    requires exports { AreExportsOf scoped.now.program.now (map (λ f. f.now) scoped.now.interfaces.now) exports.now }
    ensures { IfOk result (AreTrees scoped.now.program.now (map (λ f. f.now) scoped.now.interfaces.now)) }
{
    let own = own_synonyms(alloc, scoped.program.decls.as_slice())?;
    let exported = exported_types(alloc, scoped.program.header.name.as_str(), &exports.given)?;
    trees_over(alloc, scoped, &own, &exported, limits)
}

/// Walks over a module without expanding synonyms, and returns the faults in its trees.
fn noted_faults(alloc: Global, scoped: &ScopedModule<'_, '_>) -> Result<Vec<Fault>, AllocError>
    requires { IsScopeOf scoped.now.program.now (map (λ f. f.now) scoped.now.interfaces.now) scoped.now.scope.now }
    ensures { IfOk result (λ found. AreNoted scoped.now.program.now (map (λ f. f.now) scoped.now.interfaces.now) found.items) }
{
    let known = Tables::of(alloc, scoped.program, scoped.interfaces, NO_SYNONYMS)?;
    let tables = known.without_synonyms(alloc);
    let Walked {
        decls: _decls,
        faults,
    } = walk(alloc, scoped.scope, &tables, scoped.program)?;
    Ok(faults)
}

/// Returns the faults in a module's trees by phase, without expanding synonyms.
fn faults_over(
    alloc: Global,
    scoped: &ScopedModule<'_, '_>,
    own: &OwnSynonyms<'_>,
) -> Result<TreeFaults, AllocError>
    requires scope { IsScopeOf scoped.now.program.now (map (λ f. f.now) scoped.now.interfaces.now) scoped.now.scope.now }
    requires synonyms { AreOwnSynonyms scoped.now.program.now.decls own.now }
    ensures { IfOk result (AreTreeFaults scoped.now.program.now (map (λ f. f.now) scoped.now.interfaces.now)) }
{
    let graph = reference_graph(alloc, scoped.scope, scoped.program, &own.names)?;
    let recursive = synonym_faults(alloc, scoped.program, &own.names, &graph)?;
    let noted = noted_faults(alloc, scoped)?;
    Ok(by_phases(alloc, noted, recursive)?)
}

/// Does what `faults_over` does, with the module's own synonyms.
fn tree_faults(alloc: Global, scoped: &ScopedModule<'_, '_>) -> Result<TreeFaults, AllocError>
    requires { IsScopeOf scoped.now.program.now (map (λ f. f.now) scoped.now.interfaces.now) scoped.now.scope.now }
    ensures { IfOk result (AreTreeFaults scoped.now.program.now (map (λ f. f.now) scoped.now.interfaces.now)) }
{
    let own = own_synonyms(alloc, scoped.program.decls.as_slice())?;
    faults_over(alloc, scoped, &own)
}

// Why: docs/DECISIONS.md, "Faults despite large synonyms".
/// Returns the result of the phases after imports for a module whose synonyms were too large to expand. These are the faults of the first phase
/// that has any, which don't depend on expansion. A module without faults is refused for lack of memory.
fn answer_without_trees<'a>(
    alloc: Global,
    scoped: &ScopedModule<'_, 'a>,
    exports: Vec<Fault>,
) -> Result<Answer<'a>, AllocError>
    requires scope { IsScopeOf scoped.now.program.now (map (λ f. f.now) scoped.now.interfaces.now) scoped.now.scope.now }
    requires exports { AreExact scoped.now.program.now (map (λ f. f.now) scoped.now.interfaces.now) Exporting exports.items }
    ensures { IfOk result (λ answer. IsAnswerBehind scoped.now.program.now (map (λ f. f.now) scoped.now.interfaces.now) answer) }
{
    let TreeFaults {
        lists,
        names,
        numbers,
    } = tree_faults(alloc, scoped)?;
    match first_faults(lists, exports, names, numbers)? {
        Some(found) => Ok(Answer::Faulty(found)),
        None => Err(AllocError),
    }
}

// Why: docs/DECISIONS.md, "Trees of faulty modules".
/// Returns the result of the phases after imports for a module with these exports and trees.
fn answer_with_trees<'a>(
    exports: ModuleExports<'a>,
    trees: Trees,
    scoped: &ScopedModule<'_, 'a>,
) -> Result<Answer<'a>, AllocError>
    requires exports { AreExportsOf scoped.now.program.now (map (λ f. f.now) scoped.now.interfaces.now) exports }
    requires trees { AreTrees scoped.now.program.now (map (λ f. f.now) scoped.now.interfaces.now) trees }
    ensures { IfOk result (λ answer. IsAnswerBehind scoped.now.program.now (map (λ f. f.now) scoped.now.interfaces.now) answer) }
{
    let _ = scoped;
    let ModuleExports { given, faults } = exports;
    let Trees {
        decls,
        lists,
        names,
        numbers,
    } = trees;
    match first_faults(lists, faults, names, numbers)? {
        Some(found) => Ok(Answer::Faulty(found)),
        None => Ok(Answer::Resolved(decls, given)),
    }
}

/// Returns the result of the phases after imports.
///
/// Synonyms may stand for types of any size. If their expansion is refused, faults are still found without it, so a faulty module gets its
/// faults and not `Memory`.
fn behind_imports<'a>(
    alloc: Global,
    scoped: &ScopedModule<'_, 'a>,
    limits: TypeLimits,
) -> Result<Answer<'a>, AllocError>
    requires { IsScopeOf scoped.now.program.now (map (λ f. f.now) scoped.now.interfaces.now) scoped.now.scope.now }
    ensures { IfOk result (λ answer. IsAnswerBehind scoped.now.program.now (map (λ f. f.now) scoped.now.interfaces.now) answer) }
{
    let exports = module_exports(alloc, scoped.program, scoped.interfaces, scoped.scope)?;
    match resolved_trees(alloc, scoped, &exports, limits) {
        Ok(trees) => answer_with_trees(exports, trees, scoped),
        Err(AllocError) => {
            let ModuleExports {
                given: _given,
                faults,
            } = exports;
            answer_without_trees(alloc, scoped, faults)
        }
    }
}

/// Returns the result of all phases for Prelude's interface and those of the imports.
fn phases_answer<'a>(
    alloc: Global,
    program: &'a Module,
    prelude: &'a Interface,
    imports: &'a [Arc<Interface>],
    limits: TypeLimits,
) -> Result<Answer<'a>, AllocError>
    requires { AreNamedApart (prelude.now ∷ map arc_value imports.now) }
    ensures { IfOk result (IsAnswer program.now (prelude.now ∷ map arc_value imports.now)) }
{
    let interfaces = interfaces_of(alloc, prelude, imports)?;
    match phase_answer(import_faults(alloc, program, &interfaces)?)? {
        Some(found) => return Ok(Answer::Faulty(found)),
        None => {}
    }
    let scope = scope_of(alloc, program, prelude, imports)?;
    let scoped = ScopedModule {
        program,
        interfaces: &interfaces,
        scope: &scope,
    };
    behind_imports(alloc, &scoped, limits)
}

/// Shares the interfaces for which a core is made.
fn shared(
    alloc: Global,
    prelude: &Arc<Interface>,
    imports: &[Arc<Interface>],
) -> Result<Row<Arc<Interface>>, AllocError>
    ensures { IfOk result (λ row. map arc_value row ≡ arc_value prelude.now ∷ map arc_value imports.now) }
{
    let mut items = Vec::new(alloc);
    items.push(prelude.clone()?)?;
    for interface in imports {
        items.push(interface.clone()?)?;
    }
    Ok(Row { items })
}

/// A module's exports by namespace.
#[derive(Drop)]
pub(crate) struct ExportedRows {
    pub(crate) types: Row<Exported>,
    pub(crate) constructors: Row<Exported>,
    pub(crate) values: Row<Exported>,
}

/// Returns the exports of these bindings.
fn exported_rows(alloc: Global, given: &[Binding<'_>]) -> Result<ExportedRows, AllocError>
    requires { HaveOneEntity given.now }
    ensures { IfOk result (λ rows. AreExportedRows given.now (rows_in rows)) }
{
    let types = exported_in(alloc, given, Namespace::Types)?;
    let constructors = exported_in(alloc, given, Namespace::Constructors)?;
    let values = exported_in(alloc, given, Namespace::Values)?;
    Ok(ExportedRows {
        types,
        constructors,
        values,
    })
}

/// Returns the name of a module.
fn name_of(module: &Module) -> Result<Text, AllocError>
    ensures { IfOk result (λ name. name ≡ «module».now.header.name.text) }
{
    module.header.name.text.copy()
}

/// Returns the core with these declarations and exports.
fn core_of(
    module: &Module,
    decls: Vec<Decl>,
    exports: ExportedRows,
    interfaces: Row<Arc<Interface>>,
) -> Result<Core, AllocError>
    ensures name { IfOk result (λ core. core.name ≡ «module».now.header.name.text) }
    ensures decls { IfOk result (λ core. core.decls ≡ decls.items) }
    ensures interfaces { IfOk result (λ core. core.interfaces ≡ map arc_value interfaces) }
    ensures types { IfOk result (λ core. core.exported_types ≡ exports.types) }
    ensures constructors { IfOk result (λ core. core.exported_constructors ≡ exports.constructors) }
    ensures values { IfOk result (λ core. core.exported_values ≡ exports.values) }
{
    let name = name_of(module)?;
    Ok(Core {
        name,
        decls: Row { items: decls },
        interfaces,
        exported_types: exports.types,
        exported_constructors: exports.constructors,
        exported_values: exports.values,
    })
}

/// Returns the core or the faults for a result of the phases.
fn outcome_of(
    alloc: Global,
    module: &Module,
    prelude: &Arc<Interface>,
    imports: &[Arc<Interface>],
    answer: Answer<'_>,
) -> Result<Result<Core, Row<Fault>>, AllocError>
    requires { IsAnswer «module».now (arc_value prelude.now ∷ map arc_value imports.now) answer }
    ensures { IfOk result (IsOutcome «module».now (arc_value prelude.now ∷ map arc_value imports.now)) }
{
    match answer {
        Answer::Faulty(found) => Ok(Err(found)),
        Answer::Resolved(decls, given) => {
            let exports = exported_rows(alloc, &given)?;
            let interfaces = shared(alloc, prelude, imports)?;
            Ok(Ok(core_of(module, decls, exports, interfaces)?))
        }
    }
}

/// Returns the core of a module or its faults, unless memory runs out.
fn core_or_faults(
    alloc: Global,
    prelude: &SharedPrelude,
    module: &Module,
    imports: &[Arc<Interface>],
    limits: TypeLimits,
) -> Result<Result<Core, Row<Fault>>, AllocError>
    requires { AreImportsOf «module».now (map arc_value imports.now) }
    ensures { IfOk result (IsOutcome «module».now (prelude_interface ∷ map arc_value imports.now)) }
{
    let prelude = prelude.interface();
    let answer = phases_answer(alloc, module, prelude, imports, limits)?;
    outcome_of(alloc, module, prelude, imports, answer)
}

/// Resolves a module for the interfaces of its imports.
///
/// `imports` has the interface of each imported module except Prelude, each once, in order of first import.
///
/// # Errors
///
/// `Faults` with all faults of the first phase that has any, and `Memory` if memory ran out. The phases are, in order: imports; declaration
/// lists; exports; names and patterns; numbers of arguments and recursive synonyms.
pub fn scope(alloc: Global, module: &Module, imports: &[Arc<Interface>]) -> Result<Core, ScopeFault>
    requires imports { AreImportsOf «module».now (map arc_value imports.now) }
    ensures core { IfOk result (λ c. IsCore «module».now (prelude_interface ∷ map arc_value imports.now) c) }
    ensures faults { IfErr result (λ e. IsFaulty «module».now (prelude_interface ∷ map arc_value imports.now) e) }
{
    match SharedPrelude::new(alloc) {
        Ok(prelude) => scope_within(alloc, &prelude, module, imports, WIDE_LIMITS),
        Err(AllocError) => Err(ScopeFault::Memory),
    }
}

/// Does what `scope` does, with a Prelude made before, and with limits for the types that synonyms stand for. A type above a limit is refused
/// with `Memory`.
pub fn scope_within(
    alloc: Global,
    prelude: &SharedPrelude,
    module: &Module,
    imports: &[Arc<Interface>],
    limits: TypeLimits,
) -> Result<Core, ScopeFault>
    requires imports { AreImportsOf «module».now (map arc_value imports.now) }
    ensures core { IfOk result (λ c. IsCore «module».now (prelude_interface ∷ map arc_value imports.now) c) }
    ensures faults { IfErr result (λ e. IsFaulty «module».now (prelude_interface ∷ map arc_value imports.now) e) }
{
    match core_or_faults(alloc, prelude, module, imports, limits) {
        Err(AllocError) => Err(ScopeFault::Memory),
        Ok(Err(found)) => Err(ScopeFault::Faults(found)),
        Ok(Ok(core)) => Ok(core),
    }
}
