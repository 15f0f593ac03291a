//! The pairs of a scope: of entities that the module declares, and of those that its imports bring in (Report, sections 5.3 and 5.5).

ghost use Rattle.std.specs.Prelude.{◌≡◌, true, false, OnOk, Contains};
ghost use Rattle.std.specs.Borrow.{Bor};
ghost use Rattle.hm_syntax.specs.Names.{Identifier};
ghost use Rattle.hm_syntax.specs.Trees.{DataConstructor};
ghost use Rattle.hm_names.specs.Bindings.{Pair, Adds, IsPairOf, IsDeclaredPair, IsOwnPair};
ghost use Rattle.hm_names.specs.Entities.{named, constructor_name};
ghost use Rattle.hm_names.specs.Variables.{pattern_variables};
ghost use Rattle.hm_names.specs.declared.namespace.Namespace.TheVariants.{Types, Constructors, Values};

use hm_names::{LentNames, Namespace, add_pattern};
use hm_scope_tables::{Binding, EntityRef};
use hm_syntax::{Constr, Decl, DeclKind, Module, Name, Pat};
use hm_types::Text;
use std::alloc::{AllocError, Global};

/// Adds an entity under its qualified name.
pub(crate) fn add_qualified<'a>(
    pairs: &mut Vec<Binding<'a>>,
    qualifier: &'a str,
    space: Namespace,
    text: &'a str,
    entity: EntityRef<'a>,
) -> Result<(), AllocError>
    ensures { OnOk result (Adds pairs.old.items pairs.new.items (IsPairOf true qualifier.now space text.now entity.entry)) }
{
    pairs.push(Binding::new(space, Some(qualifier), text, entity))?;
    Ok(())
}

/// Adds an entity under its bare name and under its qualified name.
pub(crate) fn add_both<'a>(
    pairs: &mut Vec<Binding<'a>>,
    qualifier: &'a str,
    space: Namespace,
    text: &'a str,
    entity: EntityRef<'a>,
) -> Result<(), AllocError>
    ensures { OnOk result (Adds pairs.old.items pairs.new.items (IsPairOf false qualifier.now space text.now entity.entry)) }
{
    pairs.push(Binding::new(space, None, text, entity.copy()))?;
    pairs.push(Binding::new(space, Some(qualifier), text, entity))?;
    Ok(())
}

/// Adds an entity of the module with this name.
fn add_own<'a>(
    pairs: &mut Vec<Binding<'a>>,
    module_name: &'a Text,
    space: Namespace,
    name: &'a Name,
) -> Result<(), AllocError>
    ensures { OnOk result (Adds pairs.old.items pairs.new.items (IsPairOf false module_name.now space name.now.text (named module_name.now name.now.text))) }
{
    let text = name.as_str();
    add_both(
        pairs,
        module_name.as_str(),
        space,
        text,
        EntityRef::new(module_name, name.as_text()),
    )?;
    Ok(())
}

/// Adds variables of the module with this name.
fn add_names<'a>(
    pairs: &mut Vec<Binding<'a>>,
    module_name: &'a Text,
    names: &[&'a Name],
) -> Result<(), AllocError>
    ensures { OnOk result (Adds pairs.old.items pairs.new.items (λ p. (n : Bor Identifier)
        × (Contains names.now n × IsPairOf false module_name.now Values n.now.text (named module_name.now n.now.text) p))) }
{
    for name in names {
        add_own(pairs, module_name, Namespace::Values, name)?;
    }
    Ok(())
}

/// Adds the variables of a pattern.
fn add_variables<'a>(
    alloc: Global,
    pairs: &mut Vec<Binding<'a>>,
    module_name: &'a Text,
    pat: &'a Pat,
) -> Result<(), AllocError>
    ensures { OnOk result (Adds pairs.old.items pairs.new.items (λ p. (n : Identifier)
        × (Contains (pattern_variables pat.now) n × IsPairOf false module_name.now Values n.text (named module_name.now n.text) p))) }
{
    let mut names = LentNames::new(alloc);
    add_pattern(&mut names, pat)?;
    add_names(pairs, module_name, names.as_slice())?;
    Ok(())
}

/// Adds constructors of the module with this name.
fn add_constructors<'a>(
    pairs: &mut Vec<Binding<'a>>,
    module_name: &'a Text,
    constrs: &'a [Constr],
) -> Result<(), AllocError>
    ensures { OnOk result (Adds pairs.old.items pairs.new.items (λ p. (c : DataConstructor)
        × (Contains constrs.now c × IsPairOf false module_name.now Constructors (constructor_name c).text
        (named module_name.now (constructor_name c).text) p))) }
{
    for constr in constrs {
        add_own(pairs, module_name, Namespace::Constructors, &constr.name)?;
    }
    Ok(())
}

/// Adds the entities that a declaration declares.
fn add_declaration<'a>(
    alloc: Global,
    pairs: &mut Vec<Binding<'a>>,
    module_name: &'a Text,
    decl: &'a Decl,
) -> Result<(), AllocError>
    ensures { OnOk result (Adds pairs.old.items pairs.new.items (IsDeclaredPair module_name.now decl.now)) }
{
    match &decl.kind {
        DeclKind::DataType { name, constrs, .. } => {
            add_own(pairs, module_name, Namespace::Types, name)?;
            add_constructors(pairs, module_name, constrs)?;
            Ok(())
        }
        DeclKind::Newtype { name, constr, .. } => {
            add_own(pairs, module_name, Namespace::Types, name)?;
            add_own(pairs, module_name, Namespace::Constructors, &constr.name)?;
            Ok(())
        }
        DeclKind::Synonym { name, .. } => Ok(add_own(pairs, module_name, Namespace::Types, name)?),
        DeclKind::Signature { .. } => Ok(()),
        DeclKind::Clause { name, .. } => Ok(add_own(pairs, module_name, Namespace::Values, name)?),
        DeclKind::Pattern { pat, .. } => Ok(add_variables(alloc, pairs, module_name, pat)?),
    }
}

/// Adds the entities that a module declares.
pub fn add_declared<'a>(
    alloc: Global,
    pairs: &mut Vec<Binding<'a>>,
    program: &'a Module,
) -> Result<(), AllocError>
    ensures { OnOk result (Adds pairs.old.items pairs.new.items (IsOwnPair program.now)) }
{
    let module_name = program.header.name.as_text();
    pairs.reserve(program.decls.as_slice().len())?;
    for decl in program.decls.as_slice() {
        add_declaration(alloc, pairs, module_name, decl)?;
    }
    Ok(())
}
