//! The uses of names in a module.
ghost use Rattle.std.specs.Prelude.{◌≡◌, ◌∷◌, List, IfOk, OnOk, All, map};
ghost use Rattle.std.specs.Arc.{arc_value};
ghost use Rattle.hm_names.specs.Bindings.{IsScopeOf};
ghost use Rattle.hm_scope_imports.specs.Apart.{AreNamedApart};
ghost use Rattle.hm_uses.specs.Mentions.{export_list_mentions, names_of};
ghost use Rattle.hm_uses.specs.Uses.{AreUses, IsUse};
ghost use Rattle.hm_uses_header.specs.Adding.{Adds, header_mentions};
ghost use Rattle.hm_uses_header.specs.Lookups.{AreTablesOf, IsTableOf};

use crate::adding::add;
use crate::export_groups::export_groups;
use crate::exports::{ExportTables, add_exports};
use crate::imports::add_imports;
use crate::interfaces::by_name;
use hm_scope_imports::{interfaces_of, module_names, scope_of};
use hm_scope_tables::Scope;
use hm_syntax::{Header, Module};
use hm_types::Interface;
use hm_uses::NameKind;
use hm_uses_declarations::{Meaning, Use, declaration_uses};
use indexmap::IndexMap;
use std::alloc::{AllocError, Global};
use std::sync::Arc;

/// Adds the names of the export list of a header, if it has one.
fn add_export_list<'a>(
    found: &mut Vec<Use<'a>>,
    tables: &ExportTables<'_, 'a>,
    header: &'a Header,
) -> Result<(), AllocError>
    ensures { OnOk result (Adds found.old.items found.new.items (export_list_mentions header.now.exports)
        (λ m fs. AreTablesOf m fs tables.now × (m.header ≡ header.now))) }
{
    let Some(exports) = &header.exports else {
        return Ok(());
    };
    add_exports(found, tables, exports.as_slice())?;
    Ok(())
}

/// Adds the names of a header.
fn add_header<'a>(
    found: &mut Vec<Use<'a>>,
    tables: &ExportTables<'_, 'a>,
    interfaces: &IndexMap<&'a str, &'a Interface>,
    header: &'a Header,
) -> Result<(), AllocError>
    ensures { OnOk result (Adds found.old.items found.new.items (header_mentions header.now)
        (λ m fs. AreTablesOf m fs tables.now × (IsTableOf fs interfaces.now × (m.header ≡ header.now)))) }
{
    let meaning = Meaning::Module(header.name.as_text());
    add(found, &header.name, NameKind::ModuleName, true, meaning)?;
    add_export_list(found, tables, header)?;
    add_imports(found, interfaces, header.imports.as_slice())?;
    Ok(())
}

/// Returns the uses of names in the header of a module, with the scope of the module.
fn header_uses<'a>(
    alloc: Global,
    program: &'a Module,
    scope: &Scope<'a>,
    interfaces: &[&'a Interface],
) -> Result<Vec<Use<'a>>, AllocError>
    requires { AreNamedApart (map (λ f. f.now) interfaces.now) }
    ensures names { IfOk result (λ uses. map (λ u. u.mention) uses.items ≡ header_mentions program.now.header) }
    ensures meanings { IfOk result (λ uses. IsScopeOf program.now (map (λ f. f.now) interfaces.now) scope.now
        → All (IsUse program.now (map (λ f. f.now) interfaces.now)) uses.items) }
{
    let modules = module_names(alloc, program)?;
    let groups = export_groups(alloc, program, interfaces, scope.pairs())?;
    let tables = ExportTables {
        scope,
        modules,
        groups,
    };
    let named = by_name(alloc, interfaces)?;
    let mut found = Vec::new(alloc);
    add_header(&mut found, &tables, &named, &program.header)?;
    Ok(found)
}

/// Returns the uses of names in a module, with its scope and the interfaces for which it is checked: each name that is written in the module, in the
/// order of the text, with what it means.
///
/// The module may have faults: names may be unbound or ambiguous.
///
/// # Errors
///
/// If memory runs out.
pub fn uses_in<'a>(
    alloc: Global,
    program: &'a Module,
    scope: &Scope<'a>,
    interfaces: &[&'a Interface],
) -> Result<Vec<Use<'a>>, AllocError>
    requires { AreNamedApart (map (λ f. f.now) interfaces.now) }
    ensures names { IfOk result (λ uses. map (λ u. u.mention) uses.items ≡ names_of program.now) }
    ensures meanings { IfOk result (λ uses. IsScopeOf program.now (map (λ f. f.now) interfaces.now) scope.now
        → All (IsUse program.now (map (λ f. f.now) interfaces.now)) uses.items) }
{
    let mut uses = header_uses(alloc, program, scope, interfaces)?;
    let mut declared = declaration_uses(alloc, program, scope)?;
    uses.append(&mut declared)?;
    Ok(uses)
}

/// Returns the uses of names in a module, for Prelude's interface and those of its imports: each name that is written in the module, in the order of
/// the text, with what it means.
///
/// `imports` has the interfaces of the imported modules except Prelude, in any order. The module may have faults: names may be unbound or ambiguous.
///
/// # Errors
///
/// If memory runs out.
pub fn uses_of<'a>(
    alloc: Global,
    program: &'a Module,
    prelude: &'a Interface,
    imports: &'a [Arc<Interface>],
) -> Result<Vec<Use<'a>>, AllocError>
    requires { AreNamedApart (prelude.now ∷ map arc_value imports.now) }
    ensures { IfOk result (λ uses. AreUses program.now (prelude.now ∷ map arc_value imports.now) uses.items) }
{
    let interfaces = interfaces_of(alloc, prelude, imports)?;
    let scope = scope_of(alloc, program, prelude, imports)?;
    Ok(uses_in(alloc, program, &scope, &interfaces)?)
}
