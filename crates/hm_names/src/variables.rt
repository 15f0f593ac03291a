//! The variables of patterns, types and declarations, borrowed, in order.

ghost use Rattle.std.specs.Prelude.{◌≡◌, ◌++◌, ◌∷◌, [], OnOk, map};
ghost use Rattle.hm_syntax.specs.Lists.{patterns, types, constructors, declarations};
ghost use Rattle.hm_names.specs.Variables.{pattern_variables, patterns_variables, type_variables, types_variables, constructor_variables, constructors_variables, bound_names};

use hm_syntax::{Constr, Decl, DeclKind, Name, Pat, PatKind, TypeExpr, TypeKind};
use std::alloc::{AllocError, Global};
use std::marker::Model;

/// Borrowed names.
pub struct LentNames<'a> {
    names: Vec<&'a Name>,
}

impl Drop for LentNames<'_> {
    fn drop(self) {
        let LentNames { names: _names } = self;
    }
}

impl<'a> Model for LentNames<'a> {
    ghost use Rattle.std.specs.Prelude.{List, map};
    ghost use Rattle.hm_syntax.specs.Names.{Identifier};

    ghost Value = { List Identifier };

    ghost view = { λ n. map (λ x. x.now) n.names.items };
}

impl<'a> LentNames<'a> {
    /// Returns an empty list.
    pub fn new(alloc: Global) -> LentNames<'a>
        ensures { result ≡ [] }
    {
        LentNames {
            names: Vec::new(alloc),
        }
    }

    /// Adds a name.
    pub fn push(&mut self, name: &'a Name) -> Result<(), AllocError>
        ensures { OnOk result (self.new ≡ self.old ++ name.now ∷ []) }
    {
        self.names.push(name)?;
        Ok(())
    }

    /// Returns the names in order.
    pub fn as_slice(&self) -> &[&'a Name]
        ensures { map (λ x. x.now) result.now ≡ self.now }
    {
        &self.names
    }
}

/// Adds the variables of a pattern.
#[cycle(patterns)]
#[tactic(auto, using(crate::proofs::Rows::pattern_falls))]
pub fn add_pattern<'a>(out: &mut LentNames<'a>, pat: &'a Pat) -> Result<(), AllocError>
    ensures { OnOk result (out.new ≡ out.old ++ pattern_variables pat.now) }
{
    match &pat.kind {
        PatKind::Var(name) => Ok(out.push(name)?),
        PatKind::Bound(name, inner) => {
            out.push(name)?;
            add_pattern(out, inner)?;
            Ok(())
        }
        PatKind::Con(_, args) => Ok(add_patterns(out, args)?),
        PatKind::Literal(_) => Ok(()),
        PatKind::Wild => Ok(()),
        PatKind::Tuple(parts) => Ok(add_patterns(out, parts)?),
        PatKind::List(elements) => Ok(add_patterns(out, elements)?),
        PatKind::Lazy(inner) => Ok(add_pattern(out, inner)?),
    }
}

/// Adds the variables of a row of patterns.
#[cycle(patterns)]
#[tactic(auto, using(crate::proofs::Rows::pattern_falls))]
pub fn add_patterns<'a>(out: &mut LentNames<'a>, row: &'a [Pat]) -> Result<(), AllocError>
    ensures { OnOk result (out.new ≡ out.old ++ patterns_variables (patterns row.now)) }
{
    'row: for pat in row {
        add_pattern(out, pat)?;
    }
    Ok(())
}

/// Adds the variables of a type.
#[cycle(types)]
#[tactic(auto, using(crate::proofs::Rows::type_falls))]
pub fn add_type<'a>(out: &mut LentNames<'a>, ty: &'a TypeExpr) -> Result<(), AllocError>
    ensures { OnOk result (out.new ≡ out.old ++ type_variables ty.now) }
{
    match &ty.kind {
        TypeKind::Var(name) => {
            out.push(name)?;
            Ok(())
        }
        TypeKind::Con(_, args) => Ok(add_types(out, args)?),
        TypeKind::Arrow(from, to) => {
            add_type(out, from)?;
            add_type(out, to)?;
            Ok(())
        }
        TypeKind::Tuple(parts) => Ok(add_types(out, parts)?),
        TypeKind::List(element) => Ok(add_type(out, element)?),
        TypeKind::Unit => Ok(()),
    }
}

/// Adds the variables of a row of types.
#[cycle(types)]
#[tactic(auto, using(crate::proofs::Rows::type_falls))]
pub(crate) fn add_types<'a>(out: &mut LentNames<'a>, row: &'a [TypeExpr]) -> Result<(), AllocError>
    ensures { OnOk result (out.new ≡ out.old ++ types_variables (types row.now)) }
{
    'row: for ty in row {
        add_type(out, ty)?;
    }
    Ok(())
}

/// Adds the type variables of a constructor's arguments.
pub fn add_constructor<'a>(out: &mut LentNames<'a>, constr: &'a Constr) -> Result<(), AllocError>
    ensures { OnOk result (out.new ≡ out.old ++ constructor_variables constr.now) }
{
    Ok(add_types(out, &constr.args)?)
}

/// Adds the type variables of a row of constructors.
pub fn add_constructors<'a>(out: &mut LentNames<'a>, row: &'a [Constr]) -> Result<(), AllocError>
    ensures { OnOk result (out.new ≡ out.old ++ constructors_variables (constructors row.now)) }
{
    'row: for constr in row {
        add_constructor(out, constr)?;
    }
    Ok(())
}

/// Adds the names that a declaration binds.
fn add_bound<'a>(out: &mut LentNames<'a>, decl: &'a Decl) -> Result<(), AllocError>
    ensures { OnOk result (out.new ≡ out.old ++ bound_names (declarations (decl.now ∷ []))) }
{
    match &decl.kind {
        DeclKind::DataType { .. } => Ok(()),
        DeclKind::Newtype { .. } => Ok(()),
        DeclKind::Synonym { .. } => Ok(()),
        DeclKind::Signature { .. } => Ok(()),
        DeclKind::Clause { name, .. } => {
            out.push(name)?;
            Ok(())
        }
        DeclKind::Pattern { pat, .. } => Ok(add_pattern(out, pat)?),
    }
}

/// Adds the names that a list of declarations binds.
pub fn add_all_bound<'a>(out: &mut LentNames<'a>, decls: &'a [Decl]) -> Result<(), AllocError>
    ensures { OnOk result (out.new ≡ out.old ++ bound_names (declarations decls.now)) }
{
    'row: for decl in decls {
        add_bound(out, decl)?;
    }
    Ok(())
}
