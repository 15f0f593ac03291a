//! The trees of Haskell 98 modules (Report, chapters 3, 4 and 5), and how contracts see them.
#![tactic(auto)]

mod ast;

pub use crate::ast::{
    Alt, Constr, Decl, DeclKind, Export, Expr, ExprKind, Header, Import, ImportItem, ImportList,
    Literal, LiteralKind, Module, Name, Pat, PatKind, Rhs, Row, SubItems, TypeExpr, TypeKind,
};
