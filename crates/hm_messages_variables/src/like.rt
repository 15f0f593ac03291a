//! Type variables that are named like types in scope.
ghost use Rattle.std.specs.Prelude.{◌≡◌, ◌++◌, ◌∷◌, [], IfOk, None, OnOk, Some, cond, option_map};
ghost use Rattle.hm_syntax.specs.Lists.{declarations};
ghost use Rattle.hm_names.specs.Texts.{same_text};
ghost use Rattle.hm_messages_variables.specs.LikeTypes.{capitalized, has_type, is_type_called, like_types, likes_among};

use crate::firsts::firsts_of;
use crate::signed::signed_variables;
use hm_lex::Place;
use hm_names::Namespace;
use hm_scope_tables::{Binding, Scope};
use hm_syntax::{Decl, Name};
use std::alloc::{AllocError, Global};
use std::marker::Model;

/// A type variable, and the name of the type in scope that it is named like.
#[derive(Drop)]
pub struct LikeType<'a> {
    place: Place,
    variable: &'a str,
    type_name: &'a str,
}

impl<'a> Model for LikeType<'a> {
    ghost use Rattle.hm_messages_variables.specs.LikeTypes.{Likeness};

    ghost Value = { Likeness };

    ghost view = { λ l. record { place = l.place; variable = l.variable.now; type_name = l.type_name.now } };
}

impl<'a> LikeType<'a> {
    /// Returns the place of the variable.
    pub fn place(&self) -> Place
        ensures { result ≡ self.now.place }
    {
        self.place
    }

    /// Returns the name of the variable.
    pub fn variable(&self) -> &'a str
        ensures { result.now ≡ self.now.variable }
    {
        self.variable
    }

    /// Returns the name of the type.
    pub fn type_name(&self) -> &'a str
        ensures { result.now ≡ self.now.type_name }
    {
        self.type_name
    }
}

/// Returns whether a name is that of a variable with a capital in front.
fn is_capitalized(name: &str, variable: &str) -> bool
    ensures { result ≡ same_text (capitalized variable.now) name.now }
{
    let name = name.as_bytes();
    let variable = variable.as_bytes();
    let Some((first, rest)) = variable.split_first() else {
        return name.is_empty();
    };
    let Some((letter, others)) = name.split_first() else {
        return false;
    };
    first.to_ascii_uppercase() == *letter && rest == others
}

/// Returns whether a binding of a scope has a type without a qualifier, under the name of a variable with a capital in front.
fn is_type_like(binding: &Binding<'_>, variable: &str) -> bool
    ensures { result ≡ is_type_called (capitalized variable.now) binding.now }
{
    match binding.space() {
        Namespace::Types => {
            binding.qualifier().is_none() && is_capitalized(binding.text(), variable)
        }
        Namespace::Constructors => false,
        Namespace::Values => false,
    }
}

/// Returns the name of the type in scope that a variable is named like, if there is one.
fn type_like<'a>(bindings: &[Binding<'a>], variable: &str) -> Option<&'a str>
    ensures { option_map (λ t. t.now) result ≡ cond (has_type (capitalized variable.now) bindings.now) (Some (capitalized variable.now)) None }
{
    'bindings: for binding in bindings {
        if is_type_like(binding, variable) {
            return Some(binding.text());
        }
    }
    None
}

/// Adds a type variable, if it is named like a type.
fn add_like<'a>(
    out: &mut Vec<LikeType<'a>>,
    bindings: &[Binding<'a>],
    name: &'a Name,
) -> Result<(), AllocError>
    ensures { OnOk result (out.new.items ≡ out.old.items ++ likes_among bindings.now (name.now ∷ [])) }
{
    let variable = name.as_str();
    match type_like(bindings, variable) {
        Some(type_name) => Ok(out.push(LikeType {
            place: name.place,
            variable,
            type_name,
        })?),
        None => Ok(()),
    }
}

/// Returns the type variables in the signatures of a definition that are named like types in scope, each at its first place, in order. The bindings are those of the scope.
///
/// # Errors
///
/// Memory ran out.
pub fn like_types<'a>(
    alloc: Global,
    scope: &Scope<'a>,
    decls: &'a [Decl],
    definition: &str,
) -> Result<Vec<LikeType<'a>>, AllocError>
    ensures { IfOk result (λ found. found.items ≡ like_types scope.now definition.now (declarations decls.now)) }
{
    let bindings = scope.pairs();
    let all = signed_variables(alloc, decls, definition)?;
    let names = firsts_of(alloc, &all)?;
    let row = names.as_slice();
    let mut found = Vec::new(alloc);
    'row: for name in row {
        add_like(&mut found, bindings, name)?;
    }
    Ok(found)
}
