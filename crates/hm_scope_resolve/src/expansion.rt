//! The expansion of type synonyms (Haskell 98 Report, section 4.2.2).
ghost use Rattle.std.specs.Prelude.{◌≡◌, IfOk, map};
ghost use Rattle.hm_syntax.specs.Lists.{types};
ghost use Rattle.hm_types.specs.Monotypes.{arguments_of};
ghost use Rattle.hm_types.specs.Shape.{type_of};
ghost use Rattle.hm_names.specs.Expansion.{argument, applied_at, filled_at, as_entity};

use crate::copies::copy_name;
use hm_syntax::{Name, TypeExpr, TypeKind};
use hm_types::{Entity, Head, Ty};
use std::alloc::{AllocError, Global};
use std::cell::Cell;

/// Limits for a type in which synonyms are expanded. A larger type is refused like a failed allocation.
#[derive(Clone, Copy)]
pub struct Room<'r> {
    /// The number of levels that it may have.
    pub levels: usize,
    /// The number of nodes that may still be made, for this type and all others.
    pub nodes: &'r Cell<usize>,
}

impl<'r> Room<'r> {
    /// Counts a node with a name of this many bytes: one, and one more for each 64 bytes of the name. Returns the limits for the parts below it.
    fn below(self, bytes: usize) -> Result<Room<'r>, AllocError> {
        let needed = bytes / 64 + 1;
        let left = self.nodes.get();
        if self.levels == 0 || left < needed {
            return Err(AllocError);
        }
        self.nodes.set(left - needed);
        Ok(Room {
            levels: self.levels - 1,
            nodes: self.nodes,
        })
    }
}

/// Returns the number of bytes in the name of a type constructor.
fn head_bytes(head: &Head) -> usize {
    match head {
        Head::Named(entity) => {
            let home = entity.module.as_str().len();
            home.saturating_add(entity.name.as_str().len())
        }
        _ => 0,
    }
}

/// Returns the number of bytes in a name.
fn name_bytes(name: &Name) -> usize {
    match &name.qualifier {
        None => name.as_str().len(),
        Some(qualifier) => qualifier.as_str().len().saturating_add(name.as_str().len()),
    }
}

/// Returns the number of bytes in the name at a node of a type.
fn node_bytes(ty: &TypeExpr) -> usize {
    match &ty.kind {
        TypeKind::Var(name) => name_bytes(name),
        TypeKind::Con(name, _) => name_bytes(name),
        _ => 0,
    }
}

/// Returns a copy of a type, if it is within the limits.
#[cycle(copies)]
#[tactic(auto, using(hm_names::proofs::Rows::type_falls))]
fn copy_type(alloc: Global, room: Room<'_>, ty: &TypeExpr) -> Result<TypeExpr, AllocError>
    ensures { IfOk result (λ copy. copy ≡ ty.now) }
{
    let deeper = room.below(node_bytes(ty))?;
    match &ty.kind {
        TypeKind::Var(name) => Ok(TypeExpr {
            kind: TypeKind::Var(copy_name(name)?),
        }),
        TypeKind::Con(name, args) => {
            let name = copy_name(name)?;
            let args = copy_types(alloc, deeper, args)?;
            Ok(TypeExpr {
                kind: TypeKind::Con(name, args),
            })
        }
        TypeKind::Arrow(from, to) => {
            let from = Box::new(alloc, copy_type(alloc, deeper, from)?)?;
            let to = Box::new(alloc, copy_type(alloc, deeper, to)?)?;
            Ok(TypeExpr {
                kind: TypeKind::Arrow(from, to),
            })
        }
        TypeKind::Tuple(parts) => {
            let parts = copy_types(alloc, deeper, parts)?;
            Ok(TypeExpr {
                kind: TypeKind::Tuple(parts),
            })
        }
        TypeKind::List(element) => {
            let element = Box::new(alloc, copy_type(alloc, deeper, element)?)?;
            Ok(TypeExpr {
                kind: TypeKind::List(element),
            })
        }
        TypeKind::Unit => Ok(TypeExpr {
            kind: TypeKind::Unit,
        }),
    }
}

/// Returns copies of a row of types, if each is within the limits.
#[cycle(copies)]
#[tactic(auto, using(hm_names::proofs::Rows::type_falls))]
fn copy_types(alloc: Global, room: Room<'_>, row: &[TypeExpr]) -> Result<Vec<TypeExpr>, AllocError>
    ensures { IfOk result (λ copies. copies.items ≡ row.now) }
{
    let mut copies = Vec::new(alloc);
    'row: for ty in row {
        copies.push(copy_type(alloc, room, ty)?)?;
    }
    Ok(copies)
}

/// Returns a copy of the argument with this number, if it is within the limits. A well-formed use of a synonym has one for each parameter.
#[tactic(auto, using(crate::proofs::Expanded::argument_at, crate::proofs::Expanded::argument_past))]
fn argument(
    alloc: Global,
    room: Room<'_>,
    args: &[TypeExpr],
    number: usize,
) -> Result<TypeExpr, AllocError>
    ensures { IfOk result (λ t. t ≡ argument number (types args.now)) }
{
    if number < args.len() {
        return Ok(copy_type(alloc, room, &args[number])?);
    }
    Ok(TypeExpr {
        kind: TypeKind::Unit,
    })
}

/// Returns the name of an entity, at the place of a name.
fn name_of_entity(alloc: Global, name: &Name, entity: &Entity) -> Result<Name, AllocError>
    ensures { IfOk result (λ copy. copy ≡ as_entity name.now entity.now) }
{
    Ok(Name {
        qualifier: Some(entity.module.copy()?),
        text: entity.name.copy()?,
        place: name.place,
    })
}

/// Returns a type constructor with its arguments, with names at the place of a name.
fn applied(
    alloc: Global,
    name: &Name,
    head: &Head,
    parts: Vec<TypeExpr>,
) -> Result<TypeExpr, AllocError>
    ensures { IfOk result (λ t. t ≡ applied_at name.now head.now (types parts.items)) }
{
    match head {
        Head::Named(entity) => Ok(TypeExpr {
            kind: TypeKind::Con(name_of_entity(alloc, name, entity)?, parts),
        }),
        Head::Arrow => {
            if parts.len() < 2 {
                return Ok(TypeExpr {
                    kind: TypeKind::Unit,
                });
            }
            let mut parts = parts;
            let result = parts.remove(1);
            let from = Box::new(alloc, parts.remove(0))?;
            let to = Box::new(alloc, result)?;
            Ok(TypeExpr {
                kind: TypeKind::Arrow(from, to),
            })
        }
        Head::List => {
            if parts.is_empty() {
                return Ok(TypeExpr {
                    kind: TypeKind::Unit,
                });
            }
            let mut parts = parts;
            let element = Box::new(alloc, parts.remove(0))?;
            Ok(TypeExpr {
                kind: TypeKind::List(element),
            })
        }
        Head::Unit => Ok(TypeExpr {
            kind: TypeKind::Unit,
        }),
        Head::Tuple(_) => Ok(TypeExpr {
            kind: TypeKind::Tuple(parts),
        }),
    }
}

// Why: docs/DECISIONS.md, "Places in expanded types".
/// Returns the right side of a synonym with the arguments in place of its parameters, if it is within the limits.
#[tactic(auto, using(crate::proofs::Expanded::all_filled))]
pub fn filled(
    alloc: Global,
    room: Room<'_>,
    name: &Name,
    args: &[TypeExpr],
    body: &Ty,
) -> Result<TypeExpr, AllocError>
    ensures { IfOk result (λ t. t ≡ filled_at name.now (types args.now) (type_of body.now)) }
{
    match body {
        Ty::Var(number) => Ok(argument(alloc, room, args, *number)?),
        Ty::Rigid(_) => Ok(TypeExpr {
            kind: TypeKind::Unit,
        }),
        Ty::App(head, parts) => {
            let deeper = room.below(head_bytes(head))?;
            let mut resolved = Vec::new(alloc);
            'parts: for part in parts.as_slice() {
                resolved.push(filled(alloc, deeper, name, args, part)?)?;
            }
            Ok(applied(alloc, name, head, resolved)?)
        }
    }
}
