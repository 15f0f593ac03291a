//! The constructors that a core declares and imports (Haskell 98 Report, sections 4.2.1 and 4.2.3).

ghost use Rattle.std.specs.Prelude.{◌≡◌, ◌++◌, ◌∷◌, [], IfOk, OnOk, Contains, map};
ghost use Rattle.std.specs.Arc.{arc_value};
ghost use Rattle.hm_syntax.specs.Names.{Identifier};
ghost use Rattle.hm_syntax.specs.Trees.{Declaration};
ghost use Rattle.hm_names.specs.Cores.{IsSomeCore, declared_schemes, imported_schemes, known, scheme_in};
ghost use Rattle.hm_names.specs.Faults.Lists.{Repeats};
ghost use Rattle.hm_infer_context.specs.Constructors.{HasDistinctParameters, known_of};
ghost use Rattle.hm_infer_context.specs.Kept.{schemes_of};

use hm_infer_context::{Constructors, Entry, KnownScheme};
use hm_names::{Core, declared_scheme};
use hm_syntax::{Constr, Decl, DeclKind, Name};
use hm_types::{ConstructorEntry, Interface, Text};
use std::alloc::{AllocError, Global};
use std::sync::Arc;

/// A declared type: the name of its module, its own name, and its parameters.
#[derive(Clone, Copy)]
struct Owner<'d, 'a> {
    home: &'a Text,
    name: &'d Name,
    params: &'d [Name],
}

/// Adds a constructor of a declared type.
fn add_constructor<'a>(
    alloc: Global,
    entries: &mut Vec<Entry<'a>>,
    owner: &Owner<'_, 'a>,
    constr: &'a Constr,
) -> Result<(), AllocError>
    requires { (n : Identifier) → ¬ (Repeats owner.now.params.now n) }
    ensures { OnOk result (schemes_of entries.new.items ≡ schemes_of entries.old.items
        ++ scheme_in owner.now.home.now owner.now.name.now owner.now.params.now constr.now ∷ []) }
{
    let scheme = declared_scheme(alloc, owner.home, owner.name, owner.params, constr)?;
    entries.push(Entry {
        module: owner.home.as_str(),
        name: constr.name.as_str(),
        scheme: KnownScheme::Made(scheme),
    })?;
    Ok(())
}

/// Adds the constructors of a declared type.
fn add_constructors<'a>(
    alloc: Global,
    entries: &mut Vec<Entry<'a>>,
    owner: &Owner<'_, 'a>,
    constrs: &'a [Constr],
) -> Result<(), AllocError>
    requires { (n : Identifier) → ¬ (Repeats owner.now.params.now n) }
    ensures { OnOk result (schemes_of entries.new.items ≡ schemes_of entries.old.items
        ++ map (scheme_in owner.now.home.now owner.now.name.now owner.now.params.now) constrs.now) }
{
    'constrs: for constr in constrs {
        add_constructor(alloc, entries, owner, constr)?;
    }
    Ok(())
}

/// Adds the constructors of a declaration.
fn add_declaration<'a>(
    alloc: Global,
    entries: &mut Vec<Entry<'a>>,
    home: &'a Text,
    decl: &'a Decl,
) -> Result<(), AllocError>
    requires { HasDistinctParameters decl.now }
    ensures { OnOk result (schemes_of entries.new.items ≡ schemes_of entries.old.items ++ declared_schemes home.now (decl.now ∷ [])) }
{
    match &decl.kind {
        DeclKind::DataType {
            name,
            params,
            constrs,
        } => {
            let owner = Owner { home, name, params };
            Ok(add_constructors(alloc, entries, &owner, constrs)?)
        }
        DeclKind::Newtype {
            name,
            params,
            constr,
        } => {
            let owner = Owner { home, name, params };
            Ok(add_constructor(alloc, entries, &owner, constr)?)
        }
        DeclKind::Synonym { .. } => Ok(()),
        DeclKind::Signature { .. } => Ok(()),
        DeclKind::Clause { .. } => Ok(()),
        DeclKind::Pattern { .. } => Ok(()),
    }
}

/// Adds the constructors of declarations.
fn add_declared<'a>(
    alloc: Global,
    entries: &mut Vec<Entry<'a>>,
    home: &'a Text,
    decls: &'a [Decl],
) -> Result<(), AllocError>
    requires { (d : Declaration) → Contains decls.now d → HasDistinctParameters d }
    ensures { OnOk result (schemes_of entries.new.items ≡ schemes_of entries.old.items ++ declared_schemes home.now decls.now) }
{
    'decls: for decl in decls {
        add_declaration(alloc, entries, home, decl)?;
    }
    Ok(())
}

/// Adds the constructors of an interface.
fn add_exported<'a>(
    entries: &mut Vec<Entry<'a>>,
    exported: &'a [ConstructorEntry],
) -> Result<(), AllocError>
    ensures { OnOk result (schemes_of entries.new.items ≡ schemes_of entries.old.items
        ++ map (λ r. record { entity = r.entity; scheme = r.scheme }) exported.now) }
{
    'exported: for entry in exported {
        entries.push(Entry {
            module: entry.entity.module.as_str(),
            name: entry.entity.name.as_str(),
            scheme: KnownScheme::Lent(&entry.scheme),
        })?;
    }
    Ok(())
}

/// Returns how many constructors interfaces export.
fn count_of_constructors(interfaces: &[Arc<Interface>]) -> usize {
    let mut count: usize = 0;
    for interface in interfaces {
        count = count.saturating_add(interface.constructors().len());
    }
    count
}

/// Adds the constructors of interfaces.
fn add_imported<'a>(
    entries: &mut Vec<Entry<'a>>,
    interfaces: &'a [Arc<Interface>],
) -> Result<(), AllocError>
    ensures { OnOk result (schemes_of entries.new.items ≡ schemes_of entries.old.items ++ imported_schemes (map arc_value interfaces.now)) }
{
    entries.reserve(count_of_constructors(interfaces))?;
    'interfaces: for interface in interfaces {
        add_exported(entries, interface.constructors())?;
    }
    Ok(())
}

/// Returns the constructors of a core: those that it declares, then those of its interfaces.
pub fn known_constructors<'a>(alloc: Global, core: &'a Core) -> Result<Constructors<'a>, AllocError>
    requires { IsSomeCore core.now }
    ensures { IfOk result (λ constructors. known_of constructors ≡ known core.now) }
{
    let mut entries = Vec::new(alloc);
    add_declared(alloc, &mut entries, &core.name, core.decls.as_slice())?;
    add_imported(&mut entries, core.interfaces.as_slice())?;
    Ok(Constructors::new(alloc, core.name.copy()?, entries)?)
}
