//! Types, and constructors of data types.

ghost use Rattle.std.specs.Prelude.{◌≡◌, ◌↔◌, IsTrue};
ghost use Rattle.hm_syntax.specs.Lists.{types, constructors};

use crate::names::is_same_name;
use crate::rows::{Part, are_same};
use hm_syntax::{Constr, TypeExpr, TypeKind};

/// Returns whether two types are the same.
#[cycle(types)]
#[tactic(auto, using(crate::proofs::Falls::type_falls, crate::proofs::SameRows::types_same))]
pub(crate) fn is_same_type(ty: &TypeExpr, other: &TypeExpr) -> bool
    ensures { IsTrue result ↔ (ty.now ≡ other.now) }
{
    match (&ty.kind, &other.kind) {
        (TypeKind::Var(name), TypeKind::Var(with)) => is_same_name(name, with),
        (TypeKind::Con(name, args), TypeKind::Con(with, others)) => {
            is_same_name(name, with) && are_same_types(args, others)
        }
        (TypeKind::Arrow(from, to), TypeKind::Arrow(start, end)) => {
            is_same_type(from, start) && is_same_type(to, end)
        }
        (TypeKind::Tuple(parts), TypeKind::Tuple(others)) => are_same_types(parts, others),
        (TypeKind::List(element), TypeKind::List(with)) => is_same_type(element, with),
        (TypeKind::Unit, TypeKind::Unit) => true,
        _ => false,
    }
}

/// Returns whether two rows of types are the same.
#[cycle(types)]
#[tactic(auto, using(crate::proofs::Falls::type_falls, crate::proofs::SameRows::types_same))]
pub(crate) fn are_same_types(lefts: &[TypeExpr], rights: &[TypeExpr]) -> bool
    ensures { IsTrue result ↔ (types lefts.now ≡ types rights.now) }
{
    if lefts.len() != rights.len() {
        return false;
    }
    'row: for i in 0..lefts.len() {
        if !is_same_type(&lefts[i], &rights[i]) {
            return false;
        }
    }
    true
}

impl Part for Constr {
    fn is_same(&self, other: &Constr) -> bool {
        is_same_name(&self.name, &other.name) && are_same_types(&self.args, &other.args)
    }
}

/// Returns whether two rows of constructors are the same.
#[tactic(auto, using(crate::proofs::SameRows::constructors_same))]
pub(crate) fn are_same_constructors(lefts: &[Constr], rights: &[Constr]) -> bool
    ensures { IsTrue result ↔ (constructors lefts.now ≡ constructors rights.now) }
{
    are_same(lefts, rights)
}
