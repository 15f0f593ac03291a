//! The uses of names in types and in declarations of types.
ghost use Rattle.std.specs.Prelude.{◌≡◌, OnOk, IfOk, ◌∷◌, [], ◌++◌};
ghost use Rattle.hm_syntax.specs.Lists.{types, constructors};
ghost use Rattle.hm_syntax.specs.Trees.{data_declaration, newtype_declaration, synonym_declaration, signature};
ghost use Rattle.hm_names.specs.Variables.{type_variables};
ghost use Rattle.hm_uses.specs.Found.{type_uses, types_uses, declared_constructor_uses, declared_constructors_uses, parameter_uses, signed_uses, declaration_uses};
ghost use Rattle.hm_uses_declarations.specs.Walking.{all_of, innermost, home_of, adding};

use crate::locals::Locals;
use crate::walking::Walk;
use hm_names::{LentNames, add_type};
use hm_syntax::{Constr, Name, TypeExpr, TypeKind};
use hm_uses::NameKind;
use std::alloc::{AllocError, Global};

/// Returns the binders of a type's declaration.
fn parameters_of<'a>(alloc: Global, params: &'a [Name]) -> Result<Locals<'a>, AllocError>
    ensures { IfOk result (λ binders. binders ≡ params.now ∷ []) }
{
    let mut names = LentNames::new(alloc);
    'params: for param in params {
        names.push(param)?;
    }
    let mut binders = Locals::new(alloc);
    binders.enter(names)?;
    Ok(binders)
}

/// Returns the binders of a signature's type.
fn variables_of<'a>(alloc: Global, ty: &'a TypeExpr) -> Result<Locals<'a>, AllocError>
    ensures { IfOk result (λ binders. binders ≡ type_variables ty.now ∷ []) }
{
    let mut names = LentNames::new(alloc);
    add_type(&mut names, ty)?;
    let mut binders = Locals::new(alloc);
    binders.enter(names)?;
    Ok(binders)
}

impl<'s, 'a> Walk<'s, 'a> {
    /// Adds the names of a type, whose variables these bind.
    #[cycle(types)]
    #[tactic(auto, using(crate::proofs::Steps::adding_more, hm_names::proofs::Rows::type_falls))]
    fn type_uses(&mut self, binders: &Locals<'a>, ty: &'a TypeExpr) -> Result<(), AllocError>
        ensures { OnOk result (self.new ≡ adding (type_uses self.old.known (innermost binders.now) ty.now) self.old) }
    {
        match &ty.kind {
            TypeKind::Var(name) => Ok(self.type_variable(binders, name, false)?),
            TypeKind::Con(name, args) => {
                self.type_constructor(name)?;
                self.type_row(binders, args)?;
                Ok(())
            }
            TypeKind::Arrow(from, to) => {
                self.type_uses(binders, from)?;
                self.type_uses(binders, to)?;
                Ok(())
            }
            TypeKind::Tuple(parts) => Ok(self.type_row(binders, parts)?),
            TypeKind::List(element) => Ok(self.type_uses(binders, element)?),
            TypeKind::Unit => Ok(()),
        }
    }

    /// Adds the names of a row of types.
    #[cycle(types)]
    #[tactic(auto, using(crate::proofs::Steps::adding_more, hm_names::proofs::Rows::type_falls))]
    fn type_row(&mut self, binders: &Locals<'a>, row: &'a [TypeExpr]) -> Result<(), AllocError>
        ensures { OnOk result (self.new ≡ adding (types_uses self.old.known (innermost binders.now) (types row.now)) self.old) }
    {
        'row: for ty in row {
            self.type_uses(binders, ty)?;
        }
        Ok(())
    }

    /// Adds the names of a signature's type, which binds its own variables.
    pub(crate) fn signature_type(
        &mut self,
        alloc: Global,
        ty: &'a TypeExpr,
    ) -> Result<(), AllocError>
        ensures { OnOk result (self.new ≡ adding (type_uses self.old.known (type_variables ty.now) ty.now) self.old) }
    {
        let binders = variables_of(alloc, ty)?;
        Ok(self.type_uses(&binders, ty)?)
    }

    /// Adds the name of a declared constructor and those of its arguments.
    #[tactic(auto, using(crate::proofs::Steps::adding_more))]
    fn constr(&mut self, binders: &Locals<'a>, constr: &'a Constr) -> Result<(), AllocError>
        ensures { OnOk result (self.new ≡ adding (declared_constructor_uses self.old.known (innermost binders.now) constr.now) self.old) }
    {
        self.own(&constr.name, NameKind::Constructor)?;
        self.type_row(binders, &constr.args)?;
        Ok(())
    }

    /// Adds the names of a row of declared constructors.
    #[tactic(auto, using(crate::proofs::Steps::adding_more))]
    fn constr_row(&mut self, binders: &Locals<'a>, row: &'a [Constr]) -> Result<(), AllocError>
        ensures { OnOk result (self.new ≡ adding (declared_constructors_uses self.old.known (innermost binders.now) (constructors row.now)) self.old) }
    {
        'row: for constr in row {
            self.constr(binders, constr)?;
        }
        Ok(())
    }

    /// Adds the parameters of a type's declaration.
    #[tactic(auto, using(crate::proofs::Steps::adding_more))]
    fn parameters(&mut self, binders: &Locals<'a>, params: &'a [Name]) -> Result<(), AllocError>
        ensures { OnOk result (self.new ≡ adding (parameter_uses (innermost binders.now) params.now) self.old) }
    {
        'row: for param in params {
            self.type_variable(binders, param, true)?;
        }
        Ok(())
    }

    /// Adds the names of a `data` declaration.
    #[tactic(auto, using(crate::proofs::Steps::adding_more))]
    pub(crate) fn data_type(
        &mut self,
        alloc: Global,
        name: &'a Name,
        params: &'a [Name],
        constrs: &'a [Constr],
    ) -> Result<(), AllocError>
        ensures { OnOk result (self.new ≡ adding (declaration_uses self.old.known (all_of self.old.groups) (home_of self.old.groups)
            (data_declaration name.now params.now (constructors constrs.now))) self.old) }
    {
        let binders = parameters_of(alloc, params)?;
        self.own(name, NameKind::TypeConstructor)?;
        self.parameters(&binders, params)?;
        self.constr_row(&binders, constrs)?;
        Ok(())
    }

    /// Adds the names of a `newtype` declaration.
    #[tactic(auto, using(crate::proofs::Steps::adding_more))]
    pub(crate) fn newtype(
        &mut self,
        alloc: Global,
        name: &'a Name,
        params: &'a [Name],
        constr: &'a Constr,
    ) -> Result<(), AllocError>
        ensures { OnOk result (self.new ≡ adding (declaration_uses self.old.known (all_of self.old.groups) (home_of self.old.groups)
            (newtype_declaration name.now params.now constr.now)) self.old) }
    {
        let binders = parameters_of(alloc, params)?;
        self.own(name, NameKind::TypeConstructor)?;
        self.parameters(&binders, params)?;
        self.constr(&binders, constr)?;
        Ok(())
    }

    /// Adds the names of a type synonym's declaration.
    #[tactic(auto, using(crate::proofs::Steps::adding_more))]
    pub(crate) fn synonym(
        &mut self,
        alloc: Global,
        name: &'a Name,
        params: &'a [Name],
        ty: &'a TypeExpr,
    ) -> Result<(), AllocError>
        ensures { OnOk result (self.new ≡ adding (declaration_uses self.old.known (all_of self.old.groups) (home_of self.old.groups)
            (synonym_declaration name.now params.now ty.now)) self.old) }
    {
        let binders = parameters_of(alloc, params)?;
        self.own(name, NameKind::TypeConstructor)?;
        self.parameters(&binders, params)?;
        self.type_uses(&binders, ty)?;
        Ok(())
    }

    /// Adds the variables that a signature is for.
    #[tactic(auto, using(crate::proofs::Steps::adding_more))]
    fn signed(&mut self, names: &'a [Name]) -> Result<(), AllocError>
        ensures { OnOk result (self.new ≡ adding (signed_uses self.old.known (home_of self.old.groups) names.now) self.old) }
    {
        'row: for name in names {
            self.binder(name, false)?;
        }
        Ok(())
    }

    /// Adds the names of a signature.
    #[tactic(auto, using(crate::proofs::Steps::adding_more))]
    pub(crate) fn signature(
        &mut self,
        alloc: Global,
        names: &'a [Name],
        ty: &'a TypeExpr,
    ) -> Result<(), AllocError>
        ensures { OnOk result (self.new ≡ adding (declaration_uses self.old.known (all_of self.old.groups) (home_of self.old.groups)
            (signature names.now ty.now)) self.old) }
    {
        self.signed(names)?;
        self.signature_type(alloc, ty)?;
        Ok(())
    }
}
