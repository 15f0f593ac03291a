//! The special constructors (), [], (:) and those of tuples (Haskell 98 Report, sections 3.2 and 6.1).

ghost use Rattle.std.specs.Prelude.{◌≡◌, IfOk, option_map};
ghost use Rattle.hm_types.specs.Shape.{type_of};
ghost use Rattle.hm_names.specs.Special.{Cons, Tuple, special_of, special_text};
ghost use Rattle.hm_names.specs.Types.{declared_scheme, program_of, special_type};

use crate::shapes::{function_type, list_of, tuple_type};
use hm_names::tuple_arity;
use hm_syntax::Name;
use hm_types::{Head, Scheme, Ty, Types};
use hm_types_subsumption::canonical;
use std::alloc::{AllocError, Global};

/// Returns the type of (:).
fn cons_type(alloc: Global) -> Result<Ty, AllocError>
    ensures { IfOk result (λ t. type_of t ≡ program_of (special_type Cons)) }
{
    let element = Ty::Var(0);
    let rest = list_of(alloc, Ty::Var(0))?;
    let whole = list_of(alloc, Ty::Var(0))?;
    let to_whole = Ty::function(alloc, rest, whole)?;
    Ok(Ty::function(alloc, element, to_whole)?)
}

/// Returns the type of the constructor of tuples with `count` components.
fn tuple_constructor_type(alloc: Global, count: usize) -> Result<Ty, AllocError>
    ensures { IfOk result (λ t. type_of t ≡ program_of (special_type (Tuple count))) }
{
    let outcome = tuple_type(alloc, 0, count)?;
    Ok(function_type(alloc, 0, count, &outcome)?)
}

/// Returns the type of the special constructor with this text, if there is one.
fn special_type(alloc: Global, text: &str) -> Result<Option<Ty>, AllocError>
    ensures { IfOk result (λ found. option_map type_of found ≡ option_map (λ s. program_of (special_type s)) (special_text text.now)) }
{
    if text == "()" {
        return Ok(Some(Ty::App(Head::Unit, Types::new(Vec::new(alloc)))));
    }
    if text == "[]" {
        return Ok(Some(list_of(alloc, Ty::Var(0))?));
    }
    if text == ":" {
        return Ok(Some(cons_type(alloc)?));
    }
    match tuple_arity(text.as_bytes()) {
        None => Ok(None),
        Some(count) => Ok(Some(tuple_constructor_type(alloc, count)?)),
    }
}

/// Returns the scheme of a special constructor, if the name is that of one.
pub(crate) fn special_scheme(alloc: Global, name: &Name) -> Result<Option<Scheme>, AllocError>
    ensures { IfOk result (λ found. found ≡ option_map (λ s. declared_scheme (special_type s)) (special_of name.now)) }
{
    match &name.qualifier {
        Some(_) => Ok(None),
        None => match special_type(alloc, name.as_str())? {
            None => Ok(None),
            Some(ty) => Ok(Some(canonical(alloc, &ty)?)),
        },
    }
}

/// Returns the scheme of the constructor ().
pub(crate) fn unit_scheme(alloc: Global) -> Result<Scheme, AllocError>
    ensures { IfOk result (λ scheme. scheme ≡ declared_scheme (special_type Rattle.hm_names.specs.Special.UnitValue)) }
{
    let ty = Ty::App(Head::Unit, Types::new(Vec::new(alloc)));
    Ok(canonical(alloc, &ty)?)
}
