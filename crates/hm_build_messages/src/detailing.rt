//! The messages of a faulty module, with details from its scope or notes by the checker.
ghost use Rattle.std.specs.Prelude.{◌≡◌, ◌⊎◌, ◌<◌, ◌∷◌, [], All, Contains, List, IfOk, IfSome, length, map, true};
ghost use Rattle.std.specs.Arc.{arc_value};
ghost use Rattle.hm_messages_details.specs.Details.{IsKnown, known_of, nothing};
ghost use Rattle.hm_types.specs.Interfaces.{Exports as Interface};
ghost use Rattle.hm_types.specs.StandardPrelude.{prelude_interface};
ghost use Rattle.hm_syntax.specs.Lists.{declarations};
ghost use Rattle.hm_names.specs.Bindings.{IsScopeOf};
ghost use Rattle.hm_scope_tables.specs.KnownTables.{AreTablesOf};
ghost use Rattle.hm_uses.specs.Mentions.{declarations_mentions};
ghost use Rattle.hm_messages.specs.Messages.{AreEach};
ghost use Rattle.hm_messages.specs.Pages.{files_in, texts_in};
ghost use Rattle.hm_build_reports.specs.Settling.{module_set, statuses_of};
ghost use Rattle.hm_store.specs.Settlements.{settlement};
ghost use Rattle.hm_build_messages.specs.Explanations.{AreFaultsStated, IsDetailed};
ghost use Rattle.hm_build_messages.specs.Exporters.{AreExporterNotes};
ghost use Rattle.hm_build_messages.specs.Following.{IsFollowedFor, IsFollowedIn};
ghost use Rattle.hm_build_messages.specs.Searching.{IsComplete, IsSearched, all_files, all_texts, file_of, format_of, interfaces_of, number_of, set_of, source_of, status_in, view_of};
ghost use Rattle.hm_verdicts.specs.Sets.{IsLawfulSet, module_at};
ghost use Rattle.hm_verdicts.specs.Verdicts.{ArePublished};

use crate::exporters::name_notes;
use crate::faulty::{Allowance, noted_messages};
use crate::view::{BuildView, Faulty, FaultyModule, NameFaults, Searched};
use hm_messages::{MessageFormat, Page, fault_message};
use hm_messages_details::{Detail, Site, detail_of};
use hm_messages_exporters::Looks;
use hm_messages_trials::Question;
use hm_names::{Fault, Kind, NO_SYNONYMS};
use hm_scope_entities::Tables;
use hm_scope_imports::{are_imports_of, interfaces_of, scope_of};
use hm_scope_tables::Scope;
use hm_store::Store;
use hm_syntax::Module;
use hm_types::Interface as ModuleInterface;
use hm_uses_declarations::{Use, declaration_uses};
use std::alloc::{AllocError, Global};
use std::sync::Arc;

/// For how many faults of a module its scope and its trees are searched.
const MOST_SEARCHES: usize = 16;

/// Returns the interfaces of the modules with these numbers, if all are published.
pub(crate) fn published(
    alloc: Global,
    store: &Store,
    numbers: &[usize],
) -> Result<Option<Vec<Arc<ModuleInterface>>>, AllocError>
    ensures { IfOk result (λ found. IfSome found (λ interfaces. ArePublished (settlement store.now) numbers.now (map arc_value interfaces.items))) }
{
    let mut interfaces = Vec::new(alloc);
    for number in numbers {
        match store.look(*number) {
            Some(interface) => interfaces.push(interface.clone()?)?,
            None => return Ok(None),
        }
    }
    Ok(Some(interfaces))
}

/// Returns whether a module's scope and its trees may have a detail of a fault of this kind.
fn has_detail(kind: Kind) -> bool {
    match kind {
        Kind::NotExported
        | Kind::Duplicate
        | Kind::NoBinding
        | Kind::Unbound
        | Kind::Ambiguous
        | Kind::NonLinear
        | Kind::Arity
        | Kind::ClauseLength => true,
        Kind::ExportClash | Kind::NotImported | Kind::Untyped | Kind::Recursive => false,
    }
}

/// Returns whether a module's scope and its trees may have a detail of one of these faults.
fn have_details(faults: &[Fault]) -> bool {
    faults.iter().any(|fault| has_detail(fault.kind))
}

/// Returns the messages of faults without details.
fn plain_messages(
    alloc: Global,
    format: MessageFormat,
    page: &Page<'_>,
    faults: &[Fault],
) -> Result<Vec<u8>, AllocError>
    ensures { IfOk result (λ text. AreEach (IsDetailed format page.now.file.now page.now.lines (λ f known. known ≡ nothing)) faults.now text.items) }
{
    let mut text = Vec::new(alloc);
    for fault in faults {
        let message = fault_message(alloc, format, page, fault, Detail::Nothing)?;
        text.extend_from_slice(message.as_slice())?;
    }
    Ok(text)
}

/// Returns the detail of a fault of a module, or no detail if enough faults were looked up before.
fn detail_at<'s>(
    alloc: Global,
    site: &Site<'_, 's, '_>,
    index: usize,
    fault: &Fault,
) -> Result<Detail<'s>, AllocError>
    ensures { IfOk result (λ detail. (fs : List Interface) → fs ≡ map (λ f. f.now) site.now.interfaces.now → IsScopeOf site.now.program.now fs site.now.scope.now
        → AreTablesOf site.now.program.now fs site.now.tables.now → IsKnown site.now.program.now fs fault.now (known_of detail)) }
{
    if index >= MOST_SEARCHES {
        return Ok(Detail::Nothing);
    }
    Ok(detail_of(alloc, site, fault)?)
}

/// Returns the notes of modules that have the name of a fault, or no text if enough faults were looked up before.
fn notes_at(
    alloc: Global,
    here: &Searched<'_, '_, '_, '_, '_, '_, '_>,
    index: usize,
    fault: &Fault,
    looks: &mut Looks,
) -> Result<Vec<u8>, AllocError>
    requires { IsSearched here.now }
    ensures noted { IfOk result (λ text. (text.items ≡ []) ⊎ AreExporterNotes (format_of here.now) (file_of here.now) (source_of here.now) (all_files (view_of here.now))
        (all_texts (view_of here.now)) (set_of (view_of here.now)) (status_in (view_of here.now)) (number_of here.now) (interfaces_of here.now) fault.now text.items) }
    ensures silent { IfOk result (λ text. here.now.named.now.is_quiet ≡ true → text.items ≡ []) }
{
    if index >= MOST_SEARCHES {
        return Ok(Vec::new(alloc));
    }
    Ok(name_notes(alloc, here, fault, looks)?)
}

/// Returns the message of a fault of a module, and after it the notes of modules that have its name.
fn noted_message(
    alloc: Global,
    here: &Searched<'_, '_, '_, '_, '_, '_, '_>,
    index: usize,
    fault: &Fault,
    looks: &mut Looks,
) -> Result<Vec<u8>, AllocError>
    requires { IsSearched here.now }
    ensures { IfOk result (λ text. IsFollowedIn here.now fault.now text.items) }
{
    let format = here.named.view.pages.format;
    let detail = detail_at(alloc, here.site, index, fault)?;
    let mut text = fault_message(alloc, format, here.named.page, fault, detail)?;
    let notes = notes_at(alloc, here, index, fault, looks)?;
    text.extend_from_slice(notes.as_slice())?;
    Ok(text)
}

/// Returns the messages of the faults of a module with this scope and these tables.
fn detailed_messages(
    alloc: Global,
    here: &Searched<'_, '_, '_, '_, '_, '_, '_>,
    looks: &mut Looks,
) -> Result<Vec<u8>, AllocError>
    requires { IsSearched here.now }
    ensures { IfOk result (λ text. AreEach (IsFollowedIn here.now) here.now.named.now.faulty.faults.now text.items) }
{
    let named = here.named;
    let faults = named.faulty.faults;
    let mut text = Vec::new(alloc);
    for index in 0..faults.len() {
        let fault = &faults[index];
        let message = noted_message(alloc, here, index, fault, looks)?;
        text.extend_from_slice(message.as_slice())?;
    }
    Ok(text)
}

/// A module with its scope, and the interfaces from which that is made.
#[derive(Clone, Copy)]
struct ScopedModule<'r, 'a> {
    program: &'a Module,
    interfaces: &'r [&'a ModuleInterface],
    scope: &'r Scope<'a>,
}

/// Returns whether one of these faults is a name that isn't in scope.
fn are_unbound(faults: &[Fault]) -> bool {
    faults.iter().any(|fault| fault.kind == Kind::Unbound)
}

/// Returns the uses of names in the declarations of a module, if the notes of its faults need them.
fn names_of<'a>(
    alloc: Global,
    named: &NameFaults<'_, '_, '_, '_, '_>,
    scoped: &ScopedModule<'_, 'a>,
) -> Result<Vec<Use<'a>>, AllocError>
    ensures { IfOk result (λ uses. All (λ u. Contains (declarations_mentions (declarations scoped.now.program.now.decls)) u.mention) uses.items) }
{
    if named.is_quiet {
        return Ok(Vec::new(alloc));
    }
    if !are_unbound(named.faulty.faults) {
        return Ok(Vec::new(alloc));
    }
    Ok(declaration_uses(alloc, scoped.program, scoped.scope)?)
}

/// Returns the messages of the faults of a module with this scope.
fn scoped_messages(
    alloc: Global,
    named: &NameFaults<'_, '_, '_, '_, '_>,
    scoped: &ScopedModule<'_, '_>,
    looks: &mut Looks,
) -> Result<Vec<u8>, AllocError>
    requires complete { IsComplete named.now.view.now named.now.faulty.number }
    requires program { scoped.now.program.now ≡ module_at (set_of named.now.view.now) named.now.faulty.number }
    requires scope { IsScopeOf scoped.now.program.now (map (λ f. f.now) scoped.now.interfaces.now) scoped.now.scope.now }
    ensures { IfOk result (λ text. AreEach (IsFollowedFor named.now scoped.now.program.now (map (λ f. f.now) scoped.now.interfaces.now)) named.now.faulty.faults.now text.items) }
{
    let tables = Tables::of(alloc, scoped.program, scoped.interfaces, NO_SYNONYMS)?;
    let site = Site {
        program: scoped.program,
        interfaces: scoped.interfaces,
        scope: scoped.scope,
        tables: &tables,
    };
    let uses = names_of(alloc, named, scoped)?;
    let here = Searched {
        named,
        site: &site,
        uses: uses.as_slice(),
    };
    Ok(detailed_messages(alloc, &here, looks)?)
}

/// Returns the messages of the faults of a module with these imports.
fn searched_messages(
    alloc: Global,
    named: &NameFaults<'_, '_, '_, '_, '_>,
    imports: &[Arc<ModuleInterface>],
    looks: &mut Looks,
) -> Result<Vec<u8>, AllocError>
    requires { IsComplete named.now.view.now named.now.faulty.number }
    ensures { IfOk result (λ text. AreEach (IsFollowedFor named.now (module_at (set_of named.now.view.now) named.now.faulty.number) (prelude_interface ∷ map arc_value imports.now))
        named.now.faulty.faults.now text.items) }
{
    let view = named.view;
    let module: &Module = &view.modules[named.faulty.number];
    if !are_imports_of(alloc, module, imports)? {
        let faults = named.faulty.faults;
        return Ok(plain_messages(alloc, view.pages.format, named.page, faults)?);
    }
    let prelude: &ModuleInterface = view.prelude.interface();
    let scope = scope_of(alloc, module, prelude, imports)?;
    let interfaces = interfaces_of(alloc, prelude, imports)?;
    let scoped = ScopedModule {
        program: module,
        interfaces: interfaces.as_slice(),
        scope: &scope,
    };
    Ok(scoped_messages(alloc, named, &scoped, looks)?)
}

/// Returns the messages of the faults of a module: with details of names from its scope, or with notes.
pub(crate) fn faulty_messages(
    alloc: Global,
    view: &BuildView<'_, '_, '_>,
    faulty: Faulty<'_>,
    allowance: &mut Allowance,
) -> Result<Vec<u8>, AllocError>
    requires lawful { IsLawfulSet (module_set view.now.modules.now view.now.plan.now) }
    requires number { faulty.number < length view.now.modules.now }
    requires source { faulty.source < length view.now.pages.now.items.items }
    requires complete { IsComplete view.now faulty.number }
    requires settled { statuses_of view.now.settled.now ≡ settlement view.now.store.now }
    ensures { IfOk result (λ text. AreFaultsStated view.now.pages.now.format (files_in view.now.pages.now.items.items) (texts_in view.now.pages.now.items.items)
        faulty.entry.source (module_set view.now.modules.now view.now.plan.now) (statuses_of view.now.settled.now) faulty.entry.number faulty.entry.faults.now
        allowance.old.is_limit_stated allowance.new.is_limit_stated text.items) }
{
    let page = &view.pages.items[faulty.source];
    let format = view.pages.format;
    let module = &view.modules[faulty.number];
    let Some(imports) = published(alloc, view.store, view.plan.imports(faulty.number))? else {
        return Ok(plain_messages(alloc, format, page, faulty.faults)?);
    };
    if have_details(faulty.faults) {
        let named = NameFaults {
            view,
            page,
            faulty,
            is_quiet: allowance.is_limit_stated,
        };
        let looks = &mut allowance.looks;
        return Ok(searched_messages(alloc, &named, imports.as_slice(), looks)?);
    }
    let question = Question {
        source: page.lines.source(),
        name: module.header.name.as_str(),
        imports: imports.as_slice(),
        prelude: view.prelude,
    };
    let module = FaultyModule {
        format,
        page,
        question: &question,
        faults: faulty.faults,
    };
    Ok(noted_messages(alloc, &module, allowance)?)
}
