//! The schemes of constructors and the synonyms that a core declares (Report, sections 4.2.1 to 4.2.3).

ghost use Rattle.std.specs.Prelude.{◌≡◌, IfOk, map};
ghost use Rattle.hm_types.specs.Monotypes.{arguments_of};
ghost use Rattle.hm_types.specs.Shape.{type_of, types_of};
ghost use Rattle.hm_types.specs.Types.{App};
ghost use Rattle.hm_types.specs.declared.Head.TheVariants.{Named};
ghost use Rattle.hm_syntax.specs.Names.{Identifier};
ghost use Rattle.hm_names.specs.DeclaredSchemes.{functions_to, numbered};
ghost use Rattle.hm_names.specs.Entities.{named};
ghost use Rattle.hm_names.specs.Faults.Lists.{Repeats};
ghost use Rattle.hm_names.specs.DeclaredSchemes.{fact_in};
ghost use Rattle.hm_names.specs.DeclaredSynonyms.{IsSound};
ghost use Rattle.hm_names.specs.Types.{program_of, synonym_of, type_in};
ghost use Rattle.hm_names.specs.Variables.{texts};

use crate::monotypes::{monotype, monotypes};
use crate::type_variables::TypeVariables;
use crate::variables::LentNames;
use hm_syntax::{Constr, Name, TypeExpr};
use hm_types::{Entity, Head, Scheme, Synonym, Text, Ty, Types};
use hm_types_subsumption::canonical;
use std::alloc::{AllocError, Global};

/// Returns the parameters of a declaration as type variables.
pub fn parameters_of<'a>(alloc: Global, params: &'a [Name]) -> Result<TypeVariables<'a>, AllocError>
    ensures { IfOk result (λ set. ((n : Identifier) → ¬ Repeats params.now n) → set ≡ texts params.now) }
{
    let mut names = LentNames::new(alloc);
    'params: for param in params {
        names.push(param)?;
    }
    Ok(TypeVariables::of(alloc, &names)?)
}

/// Returns the synonym of a declaration with a resolved right side.
pub fn declared_synonym(
    alloc: Global,
    params: &[Name],
    ty: &TypeExpr,
) -> Result<Synonym, AllocError>
    requires { IsSound params.now ty.now }
    ensures { IfOk result (λ s. s ≡ synonym_of params.now ty.now) }
{
    let variables = parameters_of(alloc, params)?;
    let body = monotype(alloc, &variables, ty)?;
    Ok(Synonym::new(variables.len(), body))
}

/// Returns the variables below a number, in order.
fn variables_below(alloc: Global, count: usize) -> Result<Types, AllocError>
    ensures { IfOk result (λ ts. ts ≡ numbered 0 count) }
{
    let mut variables = Vec::new(alloc);
    for n in 0..count {
        variables.push(Ty::Var(n))?;
    }
    Ok(Types::new(variables))
}

/// Returns the entity of a name that the module `home` declares.
pub fn own_entity(home: &Text, name: &Name) -> Result<Entity, AllocError>
    ensures { IfOk result (λ e. e ≡ named home.now name.now.text) }
{
    Ok(Entity {
        module: home.copy()?,
        name: name.text.copy()?,
    })
}

/// Returns the type of a curried function with these arguments.
fn function_from(alloc: Global, arguments: Vec<Ty>, outcome: Ty) -> Result<Ty, AllocError>
    ensures { IfOk result (λ t. type_of t ≡ functions_to (types_of arguments.items) (type_of outcome)) }
{
    let mut left = arguments;
    let mut ty = outcome;
    while let Some(argument) = left.pop() {
        ty = Ty::function(alloc, argument, ty)?;
    }
    Ok(ty)
}

/// Returns the type that a constructor belongs to, applied to `count` parameters.
fn owner_type(alloc: Global, home: &Text, owner: &Name, count: usize) -> Result<Ty, AllocError>
    ensures { IfOk result (λ t. type_of t ≡ App (Named (named home.now owner.now.text)) (arguments_of (numbered 0 count))) }
{
    let head = Head::Named(own_entity(home, owner)?);
    let parameters = variables_below(alloc, count)?;
    Ok(Ty::App(head, parameters))
}

/// Returns the type of a constructor with arguments of these types.
fn constructor_type(
    alloc: Global,
    variables: &TypeVariables<'_>,
    arguments: &[TypeExpr],
    outcome: Ty,
) -> Result<Ty, AllocError>
    ensures { IfOk result (λ t. type_of t ≡ functions_to (map (λ u. program_of (type_in variables.now u)) arguments.now) (type_of outcome)) }
{
    let arguments = monotypes(alloc, variables, arguments)?;
    Ok(function_from(alloc, arguments, outcome)?)
}

/// Returns the scheme of a constructor that the core declares.
pub fn declared_scheme(
    alloc: Global,
    home: &Text,
    owner: &Name,
    params: &[Name],
    constr: &Constr,
) -> Result<Scheme, AllocError>
    ensures { IfOk result (λ s. ((n : Identifier) → ¬ (Repeats params.now n)) → s ≡ (fact_in home.now owner.now params.now constr.now).scheme) }
{
    let variables = parameters_of(alloc, params)?;
    let outcome = owner_type(alloc, home, owner, params.len())?;
    let ty = constructor_type(alloc, &variables, &constr.args, outcome)?;
    Ok(canonical(alloc, &ty)?)
}
