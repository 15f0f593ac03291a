//! Declarations without expressions.

ghost use Rattle.std.specs.Prelude.{◌≡◌, ◌↔◌, IsTrue};
ghost use Rattle.hm_syntax.specs.Lists.{constructors};
ghost use Rattle.hm_syntax.specs.Trees.{data_declaration, newtype_declaration, synonym_declaration, signature};

use crate::names::is_same_name;
use crate::rows::{Part, are_same};
use crate::types::{are_same_constructors, is_same_type};
use hm_syntax::{Constr, Decl, DeclKind, Name, TypeExpr};

/// Returns whether a declaration is that of a data type with these parts.
pub(crate) fn is_data_type(decl: &Decl, name: &Name, params: &[Name], constrs: &[Constr]) -> bool
    ensures { IsTrue result ↔ (decl.now ≡ data_declaration name.now params.now (constructors constrs.now)) }
{
    match &decl.kind {
        DeclKind::DataType {
            name: with,
            params: others,
            constrs: rest,
        } => {
            is_same_name(name, with)
                && are_same(params, others)
                && are_same_constructors(constrs, rest)
        }
        _ => false,
    }
}

/// Returns whether a declaration is that of a newtype with these parts.
pub(crate) fn is_newtype(decl: &Decl, name: &Name, params: &[Name], constr: &Constr) -> bool
    ensures { IsTrue result ↔ (decl.now ≡ newtype_declaration name.now params.now constr.now) }
{
    match &decl.kind {
        DeclKind::Newtype {
            name: with,
            params: others,
            constr: single,
        } => is_same_name(name, with) && are_same(params, others) && constr.is_same(single),
        _ => false,
    }
}

/// Returns whether a declaration is that of a type synonym with these parts.
pub(crate) fn is_synonym(decl: &Decl, name: &Name, params: &[Name], ty: &TypeExpr) -> bool
    ensures { IsTrue result ↔ (decl.now ≡ synonym_declaration name.now params.now ty.now) }
{
    match &decl.kind {
        DeclKind::Synonym {
            name: with,
            params: others,
            ty: meant,
        } => is_same_name(name, with) && are_same(params, others) && is_same_type(ty, meant),
        _ => false,
    }
}

/// Returns whether a declaration is the signature of these variables with this type.
pub(crate) fn is_signature(decl: &Decl, names: &[Name], ty: &TypeExpr) -> bool
    ensures { IsTrue result ↔ (decl.now ≡ signature names.now ty.now) }
{
    match &decl.kind {
        DeclKind::Signature {
            names: others,
            ty: told,
        } => are_same(names, others) && is_same_type(ty, told),
        _ => false,
    }
}
