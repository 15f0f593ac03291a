//! Declarations of types (Haskell 98 Report, section 4.2).
ghost use Rattle.std.specs.Prelude.{◌≡◌, IfOk, OnOk, map};
ghost use Rattle.hm_syntax.specs.Lists.{constructors};
ghost use Rattle.hm_syntax.specs.Trees.{data_declaration, newtype_declaration, synonym_declaration, signature, more_constructors, no_constructors};
ghost use Rattle.hm_names.specs.Variables.{type_variables, constructor_variables, constructors_variables};
ghost use Rattle.hm_names.specs.Resolved.{constructor_with, declaration_with};
ghost use Rattle.hm_names.specs.Found.{noting, locals_of, resolver_of, binder_of, constructor_faults, constructors_faults, declaration_faults, parameter_faults, duplicates, outside};

use crate::copies::{bound_name, bound_names, copy_names};
use crate::list_names::add_names;
use crate::resolving::Resolving;
use hm_names::{Kind, LentNames, add_constructor, add_constructors, add_type};
use hm_syntax::{Constr, Decl, DeclKind, Name, TypeExpr};
use hm_types::Text;
use std::alloc::{AllocError, Global};

/// The part of a type's declaration before its `=`, and the module that declares it.
#[derive(Clone, Copy)]
pub(crate) struct TypeHead<'t> {
    pub(crate) home: &'t Option<Text>,
    pub(crate) name: &'t Name,
    pub(crate) params: &'t [Name],
}

impl Resolving<'_> {
    /// Adds a fault for each second parameter, and for each type variable that isn't a parameter.
    #[tactic(auto, using(hm_names::proofs::Rows::noting_more))]
    fn parameters(
        &mut self,
        alloc: Global,
        params: &[Name],
        variables: &LentNames<'_>,
    ) -> Result<(), AllocError>
        ensures { OnOk result (self.new ≡ noting (parameter_faults params.now variables.now) self.old) }
    {
        let mut lent = LentNames::new(alloc);
        add_names(&mut lent, params)?;
        self.repeated(alloc, Kind::Duplicate, &lent)?;
        Ok(self.outside(alloc, Kind::Unbound, &lent, variables)?)
    }

    /// Adds the faults of the parameters of a data type.
    fn data_parameters(
        &mut self,
        alloc: Global,
        params: &[Name],
        constrs: &[Constr],
    ) -> Result<(), AllocError>
        ensures { OnOk result (self.new ≡ noting (parameter_faults params.now (constructors_variables (constructors constrs.now))) self.old) }
    {
        let mut variables = LentNames::new(alloc);
        add_constructors(&mut variables, constrs)?;
        Ok(self.parameters(alloc, params, &variables)?)
    }

    /// Adds the faults of the parameters of a newtype.
    fn newtype_parameters(
        &mut self,
        alloc: Global,
        params: &[Name],
        constr: &Constr,
    ) -> Result<(), AllocError>
        ensures { OnOk result (self.new ≡ noting (parameter_faults params.now (constructor_variables constr.now)) self.old) }
    {
        let mut variables = LentNames::new(alloc);
        add_constructor(&mut variables, constr)?;
        Ok(self.parameters(alloc, params, &variables)?)
    }

    /// Adds the faults of the parameters of a synonym.
    fn synonym_parameters(
        &mut self,
        alloc: Global,
        params: &[Name],
        ty: &TypeExpr,
    ) -> Result<(), AllocError>
        ensures { OnOk result (self.new ≡ noting (parameter_faults params.now (type_variables ty.now)) self.old) }
    {
        let mut variables = LentNames::new(alloc);
        add_type(&mut variables, ty)?;
        Ok(self.parameters(alloc, params, &variables)?)
    }

    /// Returns a constructor with the names in its types resolved.
    #[tactic(auto, using(hm_names::proofs::Rows::types_map))]
    fn constr(
        &mut self,
        alloc: Global,
        home: &Option<Text>,
        constr: &Constr,
    ) -> Result<Constr, AllocError>
        ensures tree { IfOk result (λ c. c ≡ constructor_with (resolver_of self.old.known) (binder_of home.now) constr.now) }
        ensures state { OnOk result (self.new ≡ noting (constructor_faults self.old.known constr.now) self.old) }
    {
        let args = self.type_row(alloc, &constr.args)?;
        Ok(Constr {
            name: bound_name(alloc, home, &constr.name)?,
            args,
        })
    }

    fn constr_row(
        &mut self,
        alloc: Global,
        home: &Option<Text>,
        row: &[Constr],
    ) -> Result<Vec<Constr>, AllocError>
        ensures trees { IfOk result (λ cs. cs.items ≡ map (constructor_with (resolver_of self.old.known) (binder_of home.now)) row.now) }
        ensures state { OnOk result (self.new ≡ noting (constructors_faults self.old.known (constructors row.now)) self.old) }
    {
        let mut resolved = Vec::with_capacity(alloc, row.len())?;
        'row: for constr in row {
            resolved.push(self.constr(alloc, home, constr)?)?;
        }
        Ok(resolved)
    }

    /// Returns a `data` declaration with its names resolved.
    #[inline(never)]
    #[tactic(auto, using(hm_names::proofs::Rows::constructors_map, hm_names::proofs::Rows::noting_more))]
    pub(crate) fn data_type(
        &mut self,
        alloc: Global,
        head: &TypeHead<'_>,
        constrs: &[Constr],
    ) -> Result<Decl, AllocError>
        ensures tree { IfOk result (λ d. d ≡ declaration_with (resolver_of self.old.known) (binder_of head.now.home.now) (locals_of self.old)
            (data_declaration head.now.name.now head.now.params.now (constructors constrs.now))) }
        ensures state { OnOk result (self.new ≡ noting
            (declaration_faults self.old.known (locals_of self.old)
            (data_declaration head.now.name.now head.now.params.now (constructors constrs.now))) self.old) }
    {
        self.data_parameters(alloc, head.params, constrs)?;
        let name = bound_name(alloc, head.home, head.name)?;
        let params = copy_names(alloc, head.params)?;
        let constrs = self.constr_row(alloc, head.home, constrs)?;
        Ok(Decl {
            kind: DeclKind::DataType {
                name,
                params,
                constrs,
            },
        })
    }

    /// Returns a `newtype` declaration with its names resolved.
    #[inline(never)]
    #[tactic(auto, using(hm_names::proofs::Rows::noting_more))]
    pub(crate) fn newtype(
        &mut self,
        alloc: Global,
        head: &TypeHead<'_>,
        constr: &Constr,
    ) -> Result<Decl, AllocError>
        ensures tree { IfOk result (λ d. d ≡ declaration_with (resolver_of self.old.known) (binder_of head.now.home.now) (locals_of self.old)
            (newtype_declaration head.now.name.now head.now.params.now constr.now)) }
        ensures state { OnOk result (self.new ≡ noting
            (declaration_faults self.old.known (locals_of self.old) (newtype_declaration head.now.name.now head.now.params.now constr.now)) self.old) }
    {
        self.newtype_parameters(alloc, head.params, constr)?;
        let name = bound_name(alloc, head.home, head.name)?;
        let params = copy_names(alloc, head.params)?;
        let constr = self.constr(alloc, head.home, constr)?;
        Ok(Decl {
            kind: DeclKind::Newtype {
                name,
                params,
                constr,
            },
        })
    }

    /// Returns a `type` declaration with its names resolved.
    #[inline(never)]
    #[tactic(auto, using(hm_names::proofs::Rows::noting_more))]
    pub(crate) fn synonym(
        &mut self,
        alloc: Global,
        head: &TypeHead<'_>,
        ty: &TypeExpr,
    ) -> Result<Decl, AllocError>
        ensures tree { IfOk result (λ d. d ≡ declaration_with (resolver_of self.old.known) (binder_of head.now.home.now) (locals_of self.old)
            (synonym_declaration head.now.name.now head.now.params.now ty.now)) }
        ensures state { OnOk result (self.new ≡ noting
            (declaration_faults self.old.known (locals_of self.old) (synonym_declaration head.now.name.now head.now.params.now ty.now)) self.old) }
    {
        self.synonym_parameters(alloc, head.params, ty)?;
        let name = bound_name(alloc, head.home, head.name)?;
        let params = copy_names(alloc, head.params)?;
        let ty = self.type_expr(alloc, ty)?;
        Ok(Decl {
            kind: DeclKind::Synonym { name, params, ty },
        })
    }

    /// Returns a signature with its names resolved.
    #[inline(never)]
    pub(crate) fn signature(
        &mut self,
        alloc: Global,
        home: &Option<Text>,
        names: &[Name],
        ty: &TypeExpr,
    ) -> Result<Decl, AllocError>
        ensures tree { IfOk result (λ d. d ≡ declaration_with (resolver_of self.old.known) (binder_of home.now) (locals_of self.old)
            (signature names.now ty.now)) }
        ensures state { OnOk result (self.new ≡ noting (declaration_faults self.old.known (locals_of self.old) (signature names.now ty.now)) self.old) }
    {
        let names = bound_names(alloc, home, names)?;
        let before = self.nodes_left();
        let ty = self.type_expr(alloc, ty)?;
        self.count_again(before, names.len())?;
        Ok(Decl {
            kind: DeclKind::Signature { names, ty },
        })
    }
}
