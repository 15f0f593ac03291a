//! The type constructors in types, borrowed, in order.

ghost use Rattle.std.specs.Prelude.{◌≡◌, ◌++◌, OnOk};
ghost use Rattle.hm_syntax.specs.Lists.{types};
ghost use Rattle.hm_names.specs.Variables.{constructors_in, constructors_in_all};

use hm_names::LentNames;
use hm_syntax::{TypeExpr, TypeKind};
use std::alloc::AllocError;

/// Adds the type constructors in a type.
#[cycle(types)]
#[tactic(auto, using(hm_names::proofs::Rows::type_falls))]
pub(crate) fn add_type<'a>(out: &mut LentNames<'a>, ty: &'a TypeExpr) -> Result<(), AllocError>
    ensures { OnOk result (out.new ≡ out.old ++ constructors_in ty.now) }
{
    match &ty.kind {
        TypeKind::Var(_) => Ok(()),
        TypeKind::Con(name, args) => {
            out.push(name)?;
            add_types(out, args)?;
            Ok(())
        }
        TypeKind::Arrow(from, to) => {
            add_type(out, from)?;
            add_type(out, to)?;
            Ok(())
        }
        TypeKind::Tuple(parts) => Ok(add_types(out, parts)?),
        TypeKind::List(element) => Ok(add_type(out, element)?),
        TypeKind::Unit => Ok(()),
    }
}

/// Adds the type constructors in a row of types.
#[cycle(types)]
#[tactic(auto, using(hm_names::proofs::Rows::type_falls))]
pub(crate) fn add_types<'a>(out: &mut LentNames<'a>, row: &'a [TypeExpr]) -> Result<(), AllocError>
    ensures { OnOk result (out.new ≡ out.old ++ constructors_in_all (types row.now)) }
{
    'row: for ty in row {
        add_type(out, ty)?;
    }
    Ok(())
}
