//! The types of signatures and of typed expressions (Report, sections 3.16 and 4.4.1).

ghost use Rattle.std.specs.Prelude.{◌≡◌, IfOk};
ghost use Rattle.hm_types.specs.Shape.{type_of};
ghost use Rattle.hm_types.specs.Schemes.{HasArities};
ghost use Rattle.hm_typing.specs.Problems.{IsBelow};
ghost use Rattle.hm_names.specs.Types.{declared_type, program_of};

use crate::monotypes::monotype;
use crate::type_variables::TypeVariables;
use crate::variables::{LentNames, add_type};
use hm_syntax::TypeExpr;
use hm_types::Ty;
use std::alloc::{AllocError, Global};

// Why: docs/DECISIONS.md, "Declared types".
/// A declared type. Each variable has the number of the place where it occurs first. `count` is the number of places at which variables
/// occur, so it is above all these numbers.
#[derive(Drop)]
pub struct DeclaredType {
    pub body: Ty,
    pub count: usize,
}

/// Returns the declared type for a type of a core.
pub fn declared_type(alloc: Global, ty: &TypeExpr) -> Result<DeclaredType, AllocError>
    ensures body { IfOk result (λ d. type_of d.body ≡ program_of (declared_type ty.now)) }
    ensures below { IfOk result (λ d. IsBelow d.count (declared_type ty.now)) }
    ensures arities { IfOk result (λ d. HasArities (type_of d.body)) }
{
    let mut names = LentNames::new(alloc);
    add_type(&mut names, ty)?;
    let variables = TypeVariables::of(alloc, &names)?;
    let body = monotype(alloc, &variables, ty)?;
    let count = variables.len();
    Ok(DeclaredType { body, count })
}
