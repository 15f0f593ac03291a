//! Written types as types of the type system (Report, section 4.1.2).

ghost use Rattle.std.specs.Prelude.{◌≡◌, IfOk, map};
ghost use Rattle.hm_types.specs.Shape.{type_of, types_of};
ghost use Rattle.hm_names.specs.Types.{entity_of, type_in, program_of};

use crate::type_variables::TypeVariables;
use hm_syntax::{Name, TypeExpr, TypeKind};
use hm_types::{Entity, Head, Text, Ty, Types};
use std::alloc::{AllocError, Global};

/// Returns the entity of a resolved name.
pub(crate) fn entity_of(alloc: Global, name: &Name) -> Result<Entity, AllocError>
    ensures { IfOk result (λ e. e ≡ entity_of name.now) }
{
    match &name.qualifier {
        None => Ok(Entity {
            module: Text::new(String::new(alloc))?,
            name: name.text.copy()?,
        }),
        Some(qualifier) => Ok(Entity {
            module: qualifier.copy()?,
            name: name.text.copy()?,
        }),
    }
}

/// Returns the type for a written type with resolved names. The number of a variable is its place in the list. Doesn't check the arities of
/// type constructors.
#[cycle(types)]
#[tactic(auto, using(crate::proofs::Rows::type_falls))]
pub fn monotype(
    alloc: Global,
    variables: &TypeVariables<'_>,
    ty: &TypeExpr,
) -> Result<Ty, AllocError>
    ensures { IfOk result (λ t. type_of t ≡ program_of (type_in variables.now ty.now)) }
{
    match &ty.kind {
        TypeKind::Var(name) => Ok(Ty::Var(variables.place(name.as_str()))),
        TypeKind::Con(name, args) => {
            let entity = entity_of(alloc, name)?;
            let args = monotypes(alloc, variables, args)?;
            Ok(Ty::App(Head::Named(entity), Types::new(args)))
        }
        TypeKind::Arrow(from, to) => {
            let from = monotype(alloc, variables, from)?;
            let to = monotype(alloc, variables, to)?;
            Ok(Ty::function(alloc, from, to)?)
        }
        TypeKind::Tuple(parts) => {
            let args = monotypes(alloc, variables, parts)?;
            Ok(Ty::App(Head::Tuple(parts.len()), Types::new(args)))
        }
        TypeKind::List(element) => {
            let element = monotype(alloc, variables, element)?;
            let mut args = Vec::new(alloc);
            args.push(element)?;
            Ok(Ty::App(Head::List, Types::new(args)))
        }
        TypeKind::Unit => Ok(Ty::App(Head::Unit, Types::new(Vec::new(alloc)))),
    }
}

/// Returns the types for a row of written types.
#[cycle(types)]
#[tactic(auto, using(crate::proofs::Rows::type_falls))]
pub(crate) fn monotypes(
    alloc: Global,
    variables: &TypeVariables<'_>,
    row: &[TypeExpr],
) -> Result<Vec<Ty>, AllocError>
    ensures { IfOk result (λ ts. types_of ts.items ≡ map (λ t. program_of (type_in variables.now t)) row.now) }
{
    let mut types = Vec::new(alloc);
    'row: for ty in row {
        types.push(monotype(alloc, variables, ty)?)?;
    }
    Ok(types)
}
