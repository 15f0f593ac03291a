//! Copies of names and literals.
ghost use Rattle.std.specs.Prelude.{◌≡◌, map, IfOk, Some, None, option_map};
ghost use Rattle.hm_names.specs.Special.{special_of, special_arity};
ghost use Rattle.hm_names.specs.Expansion.{as_entity};
ghost use Rattle.hm_names.specs.Found.{no_qualifier, is_special, binder_of};

use hm_names::{LentNames, tuple_arity};
use hm_scope_tables::EntityRef;
use hm_syntax::{Literal, LiteralKind, Name};
use hm_types::Text;
use std::alloc::{AllocError, Global};

/// Returns the same name at the same place.
pub fn copy_name(name: &Name) -> Result<Name, AllocError>
    ensures { IfOk result (λ copy. copy ≡ name.now) }
{
    name.copy()
}

/// Returns owned copies of borrowed names.
pub fn owned_names(alloc: Global, names: &LentNames<'_>) -> Result<Vec<Name>, AllocError>
    ensures { IfOk result (λ copies. copies.items ≡ names.now) }
{
    let row = names.as_slice();
    let mut copies = Vec::with_capacity(alloc, row.len())?;
    'names: for name in row {
        copies.push(copy_name(name)?)?;
    }
    Ok(copies)
}

/// Returns copies of names.
pub fn copy_names(alloc: Global, names: &[Name]) -> Result<Vec<Name>, AllocError>
    ensures { IfOk result (λ copies. copies.items ≡ names.now) }
{
    let mut copies = Vec::with_capacity(alloc, names.len())?;
    'names: for name in names {
        copies.push(copy_name(name)?)?;
    }
    Ok(copies)
}

/// Returns the name of an entity, at the place of a name.
pub fn entity_name(alloc: Global, name: &Name, entity: &EntityRef<'_>) -> Result<Name, AllocError>
    ensures { IfOk result (λ copy. copy ≡ as_entity name.now entity.now) }
{
    Ok(Name {
        qualifier: Some(entity.module_text().copy()?),
        text: entity.name_text().copy()?,
        place: name.place,
    })
}

// Why: docs/DECISIONS.md, "Local binders".
/// Returns the replacement of a name that is bound in the list of this module, or in another list: an entity, or the bare name.
pub fn bound_name(alloc: Global, home: &Option<Text>, name: &Name) -> Result<Name, AllocError>
    ensures { IfOk result (λ copy. copy ≡ binder_of home.now name.now) }
{
    match home {
        None => Ok(Name {
            qualifier: None,
            text: name.text.copy()?,
            place: name.place,
        }),
        Some(module) => Ok(Name {
            qualifier: Some(module.copy()?),
            text: name.text.copy()?,
            place: name.place,
        }),
    }
}

/// Returns the replacements of a row of names.
pub fn bound_names(
    alloc: Global,
    home: &Option<Text>,
    names: &[Name],
) -> Result<Vec<Name>, AllocError>
    ensures { IfOk result (λ copies. copies.items ≡ map (binder_of home.now) names.now) }
{
    let mut copies = Vec::with_capacity(alloc, names.len())?;
    'names: for name in names {
        copies.push(bound_name(alloc, home, name)?)?;
    }
    Ok(copies)
}

/// Returns a copy of a literal.
pub fn copy_literal(literal: &Literal) -> Result<Literal, AllocError>
    ensures { IfOk result (λ copy. copy ≡ literal.now) }
{
    match &literal.kind {
        LiteralKind::Integer(text) => Ok(Literal {
            kind: LiteralKind::Integer(text.copy()?),
        }),
        LiteralKind::Character(text) => Ok(Literal {
            kind: LiteralKind::Character(text.copy()?),
        }),
        LiteralKind::Text(text) => Ok(Literal {
            kind: LiteralKind::Text(text.copy()?),
        }),
    }
}

/// Returns whether a name has no qualifier.
pub fn is_unqualified(name: &Name) -> bool
    ensures { result ≡ no_qualifier name.now.qualifier }
{
    match &name.qualifier {
        None => true,
        Some(_) => false,
    }
}

/// Returns whether a name is that of a special constructor.
pub fn is_special(name: &Name) -> bool
    ensures { result ≡ is_special name.now }
{
    match special_arity(name) {
        None => false,
        Some(_) => true,
    }
}

/// Returns the number of arguments of a special constructor.
pub fn special_arity(name: &Name) -> Option<usize>
    ensures { result ≡ option_map special_arity (special_of name.now) }
{
    if !is_unqualified(name) {
        return None;
    }
    let text = name.as_str();
    if text == "()" || text == "[]" {
        return Some(0);
    }
    if text == ":" {
        return Some(2);
    }
    tuple_arity(text.as_bytes())
}
