//! Names with which types are shown.
ghost use Rattle.std.specs.Prelude.{◌≡◌, ◌∷◌, ◌++◌, All, IfOk, IfSome, List, None, OnOk, map, option_to_list, string_bytes};
ghost use Rattle.std.specs.Arc.{arc_value};
ghost use Rattle.hm_types.specs.Interfaces.{Exports as Interfaces};
ghost use Rattle.hm_types.specs.StandardPrelude.{prelude_interface};
ghost use Rattle.hm_types_display.specs.Texts.{original_text};
ghost use Rattle.hm_syntax.specs.declared.ast.Module.{Module as Program};
ghost use Rattle.hm_names.specs.Bindings.{IsScopeOf};
ghost use Rattle.hm_names.specs.Imports.{AreImportsOf};
ghost use Rattle.hm_messages_types.specs.Aliases.{alias_of as named_type};
ghost use Rattle.hm_messages_type_names.specs.TypeNames.{IsBareName, IsTypeName};

use crate::entities::add_entities;
use crate::prelude::is_free;
use hm_lex::Place;
use hm_messages_outline::Lexed;
use hm_messages_types::{Alias, Question, aliases_in};
use hm_names::Namespace;
use hm_scope_imports::scope_of;
use hm_scope_tables::{EntityRef, Meaning, Scope};
use hm_syntax::{Module, Name};
use hm_types::{Entity, Interface, Ty};
use std::alloc::{AllocError, Global};

/// Returns the name of a type, bare.
fn bare(entity: &Entity) -> Result<Name, AllocError>
    ensures { IfOk result (λ n. (n.qualifier ≡ None) × (n.text ≡ entity.now.name)) }
{
    let text = entity.name.copy()?;
    Ok(Name {
        qualifier: None,
        text,
        place: Place { line: 0, column: 0 },
    })
}

/// Returns the name of a type after its module.
fn qualified(alloc: Global, entity: &Entity) -> Result<String, AllocError>
    ensures { IfOk result (λ text. string_bytes text ≡ original_text entity.now) }
{
    let mut text = String::from_str(alloc, entity.module.as_str())?;
    text.push_str(".")?;
    text.push_str(entity.name.as_str())?;
    Ok(text)
}

/// Returns the bare name of a type, if it means this type in the scope, and no type of Prelude has it.
fn bare_name(
    alloc: Global,
    scope: &Scope<'_>,
    prelude: &Interface,
    entity: &Entity,
) -> Result<Option<Alias>, AllocError>
    requires { prelude.now ≡ prelude_interface }
    ensures { (m : Program) (fs : List Interfaces) → IsScopeOf m fs scope.now → IfOk result (λ found. IfSome found (λ a. IsBareName m fs (named_type a))) }
{
    let name = entity.name.as_str();
    if !is_free(prelude, name) {
        return Ok(None);
    }
    let written = bare(entity)?;
    let Meaning::Entity(meant) = scope.meaning(Namespace::Types, &written) else {
        return Ok(None);
    };
    if !meant.is_same(&EntityRef::of(entity)) {
        return Ok(None);
    }
    let text = qualified(alloc, entity)?;
    let name = String::from_str(alloc, name)?;
    Ok(Some(Alias::new(name, text)))
}

/// Adds a name, if there is one.
fn add_name(names: &mut Vec<Alias>, found: Option<Alias>) -> Result<(), AllocError>
    ensures { OnOk result (names.new.items ≡ names.old.items ++ option_to_list found) }
{
    match found {
        Some(name) => Ok(names.push(name)?),
        None => Ok(()),
    }
}

/// Returns the bare names of these types.
fn bare_names(
    alloc: Global,
    scope: &Scope<'_>,
    prelude: &Interface,
    entities: &[&Entity],
) -> Result<Vec<Alias>, AllocError>
    requires { prelude.now ≡ prelude_interface }
    ensures { (m : Program) (fs : List Interfaces) → IsScopeOf m fs scope.now → IfOk result (λ names. All (λ a. IsBareName m fs (named_type a)) names.items) }
{
    let mut names = Vec::new(alloc);
    for entity in entities {
        let found = bare_name(alloc, scope, prelude, entity)?;
        add_name(&mut names, found)?;
    }
    Ok(names)
}

/// The module in which a type is shown.
#[derive(Clone, Copy)]
pub struct Home<'a, 'q> {
    pub question: &'a Question<'q>,
    pub lexed: &'a Lexed<'a>,
    pub module: &'a Module,
}

// Why: docs/DECISIONS.md, "Bare names of types".
/// Returns the names with which a type is shown in a module with this interface: its own and Prelude's synonyms that its signatures have, and bare names of
/// the type constructors in the type.
pub fn type_names(
    alloc: Global,
    home: &Home<'_, '_>,
    interface: &Interface,
    ty: &Ty,
) -> Result<Vec<Alias>, AllocError>
    requires { AreImportsOf home.now.«module».now (map arc_value home.now.question.now.imports.now) }
    ensures { IfOk result (λ names. All (λ a. IsTypeName home.now.«module».now (prelude_interface ∷ map arc_value home.now.question.now.imports.now)
        home.now.question.now.name.now interface.now (named_type a)) names.items) }
{
    let question = home.question;
    let mut names = aliases_in(alloc, question, home.lexed, interface)?;
    let mut entities = Vec::new(alloc);
    add_entities(&mut entities, ty)?;
    if entities.is_empty() {
        return Ok(names);
    }
    let prelude: &Interface = question.prelude.interface();
    let scope = scope_of(alloc, home.module, prelude, question.imports)?;
    let mut bare = bare_names(alloc, &scope, prelude, entities.as_slice())?;
    names.append(&mut bare)?;
    Ok(names)
}
