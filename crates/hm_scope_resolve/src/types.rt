//! Types (Haskell 98 Report, section 4.1.2).
ghost use Rattle.std.specs.Prelude.{◌≡◌, IfOk, OnOk, map};
ghost use Rattle.hm_syntax.specs.Lists.{types};
ghost use Rattle.hm_names.specs.Resolved.{type_with};
ghost use Rattle.hm_names.specs.Found.{noting, resolver_of, type_faults, types_faults};

use crate::copies::copy_name;
use crate::resolving::Resolving;
use hm_syntax::{TypeExpr, TypeKind};
use std::alloc::{AllocError, Global};

impl Resolving<'_> {
    /// Returns a type with its names resolved and its synonyms expanded.
    #[cycle(types)]
    #[tactic(auto, using(hm_names::proofs::Rows::types_map, hm_names::proofs::Rows::type_falls))]
    pub fn type_expr(&mut self, alloc: Global, ty: &TypeExpr) -> Result<TypeExpr, AllocError>
        ensures tree { IfOk result (λ t. t ≡ type_with (resolver_of self.old.known) ty.now) }
        ensures state { OnOk result (self.new ≡ noting (type_faults self.old.known ty.now) self.old) }
    {
        match &ty.kind {
            TypeKind::Var(name) => Ok(TypeExpr {
                kind: TypeKind::Var(copy_name(name)?),
            }),
            TypeKind::Con(name, args) => {
                let name = self.type_name(alloc, name, args)?;
                let args = self.type_row(alloc, args)?;
                Ok(self.constructed(alloc, name, args)?)
            }
            TypeKind::Arrow(from, to) => {
                let from = Box::new(alloc, self.type_expr(alloc, from)?)?;
                let to = Box::new(alloc, self.type_expr(alloc, to)?)?;
                Ok(TypeExpr {
                    kind: TypeKind::Arrow(from, to),
                })
            }
            TypeKind::Tuple(parts) => {
                let parts = self.type_row(alloc, parts)?;
                Ok(TypeExpr {
                    kind: TypeKind::Tuple(parts),
                })
            }
            TypeKind::List(element) => {
                let element = Box::new(alloc, self.type_expr(alloc, element)?)?;
                Ok(TypeExpr {
                    kind: TypeKind::List(element),
                })
            }
            TypeKind::Unit => Ok(TypeExpr {
                kind: TypeKind::Unit,
            }),
        }
    }

    /// Returns a row of types with their names resolved and their synonyms expanded.
    #[cycle(types)]
    #[tactic(auto, using(hm_names::proofs::Rows::types_map, hm_names::proofs::Rows::type_falls))]
    pub(crate) fn type_row(
        &mut self,
        alloc: Global,
        row: &[TypeExpr],
    ) -> Result<Vec<TypeExpr>, AllocError>
        ensures trees { IfOk result (λ ts. ts.items ≡ map (type_with (resolver_of self.old.known)) row.now) }
        ensures state { OnOk result (self.new ≡ noting (types_faults self.old.known (types row.now)) self.old) }
    {
        let mut resolved = Vec::with_capacity(alloc, row.len())?;
        'row: for ty in row {
            resolved.push(self.type_expr(alloc, ty)?)?;
        }
        Ok(resolved)
    }
}
