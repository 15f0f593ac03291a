//! What a module declares, as objects.
ghost use Rattle.std.specs.Prelude.{◌≡◌, IfOk, None, codes, map, option_map};
ghost use Rattle.serde_json.specs.Data.{array, item, no_items, null, string};
ghost use Rattle.serde_json.specs.View.{items_of, view};
ghost use Rattle.hm_syntax.specs.Lists.{constructors, declarations, types};
ghost use Rattle.hm_syntax.specs.Trees.{data_constructor};
ghost use Rattle.hm_names.specs.Variables.{bound_names};
ghost use Rattle.hm_build_objects.specs.Objects.{arguments_data, constr_data, constrs_data, declared_data, declared_type, declared_types, is_repeated, list_data, name_data, runs};
ghost use Rattle.hm_build_objects.specs.TypeTexts.{written_text};
ghost use Rattle.hm_build_objects.specs.declared.type_texts.Side.TheVariants.{Whole as whole};

use crate::type_texts::type_text;
use crate::written::{Written, array_of};
use hm_names::{Fault, LentNames, add_all_bound};
use hm_syntax::{Constr, Decl, DeclKind, Import, Name, TypeExpr};
use hm_verdicts::kind_word;
use serde_json::{Value, json};
use std::alloc::{AllocError, Global};

impl Written for Name {
    ghost use Rattle.hm_build_objects.specs.Objects.{name_data};

    ghost data_of = { name_data };

    fn value(&self, alloc: Global) -> Result<Value, AllocError> {
        let line = self.place.line as u64;
        let column = self.place.column as u64;
        let text = self.as_str();
        json!(in alloc; {"column": column, "line": line, "name": text})
    }
}

impl Written for Import {
    ghost use Rattle.hm_build_objects.specs.Objects.{name_data};

    ghost data_of = { λ i. name_data i.name };

    fn value(&self, alloc: Global) -> Result<Value, AllocError> {
        Ok(self.name.value(alloc)?)
    }
}

impl Written for Fault {
    ghost use Rattle.hm_build_objects.specs.Objects.{fault_data};

    ghost data_of = { fault_data };

    fn value(&self, alloc: Global) -> Result<Value, AllocError> {
        let line = self.place.line as u64;
        let column = self.place.column as u64;
        let kind = kind_word(self.kind);
        let text = self.name.as_str();
        json!(in alloc; {"column": column, "kind": kind, "line": line, "name": text})
    }
}

/// Returns a constructor with so many arguments as an object.
fn arguments_value(alloc: Global, name: &Name, count: usize) -> Result<Value, AllocError>
    ensures { IfOk result (λ value. view value ≡ arguments_data name.now count) }
{
    let name = name.value(alloc)?;
    let name = &name;
    let arguments = count as u64;
    json!(in alloc; {"arguments": arguments, "name": name})
}

/// Returns a constructor as an object.
fn constr_value(alloc: Global, name: &Name, args: &[TypeExpr]) -> Result<Value, AllocError>
    ensures { IfOk result (λ value. view value ≡ constr_data (data_constructor name.now (types args.now))) }
{
    let count = args.len();
    arguments_value(alloc, name, count)
}

impl Written for Constr {
    ghost use Rattle.hm_build_objects.specs.Objects.{constr_data};

    ghost data_of = { constr_data };

    fn value(&self, alloc: Global) -> Result<Value, AllocError> {
        Ok(constr_value(alloc, &self.name, &self.args)?)
    }
}

/// The parts of a declaration of a type.
#[derive(Clone, Copy)]
struct TypeParts<'a> {
    kind: &'a str,
    name: &'a Name,
    params: &'a [Name],
    constructors: &'a Value,
    written: &'a Value,
}

/// Returns a declaration of a type as an object.
fn declared_value(alloc: Global, parts: TypeParts<'_>) -> Result<Value, AllocError>
    ensures { IfOk result (λ value. view value ≡ declared_data parts.entry.kind.now parts.entry.name.now parts.entry.params.now
        (view parts.entry.constructors.now) (view parts.entry.written.now)) }
{
    let name = parts.name.value(alloc)?;
    let parameters = array_of(alloc, parts.params)?;
    let (name, parameters) = (&name, &parameters);
    let TypeParts {
        kind,
        constructors,
        written,
        ..
    } = parts;
    json!(in alloc; {
        "constructors": constructors,
        "kind": kind,
        "name": name,
        "parameters": parameters,
        "type": written,
    })
}

/// Returns constructors as an array, in order.
fn constrs_value(alloc: Global, constrs: &[Constr]) -> Result<Value, AllocError>
    ensures { IfOk result (λ value. view value ≡ list_data (constrs_data (constructors constrs.now))) }
{
    array_of(alloc, constrs)
}

/// Returns a data type as an object.
fn data_value(
    alloc: Global,
    name: &Name,
    params: &[Name],
    constrs: &[Constr],
) -> Result<Value, AllocError>
    ensures { IfOk result (λ value. view value ≡ declared_data (codes "data") name.now params.now (list_data (constrs_data (constructors constrs.now))) null) }
{
    let constructors = constrs_value(alloc, constrs)?;
    let written = Value::Null;
    let parts = TypeParts {
        kind: "data",
        name,
        params,
        constructors: &constructors,
        written: &written,
    };
    declared_value(alloc, parts)
}

/// Returns a newtype as an object.
fn newtype_value(
    alloc: Global,
    name: &Name,
    params: &[Name],
    constr: &Constr,
) -> Result<Value, AllocError>
    ensures { IfOk result (λ value. view value ≡ declared_data (codes "newtype") name.now params.now (array (item (constr_data constr.now) no_items)) null) }
{
    let only = constr.value(alloc)?;
    let only = &only;
    let constructors = json!(in alloc; [only])?;
    let written = Value::Null;
    let parts = TypeParts {
        kind: "newtype",
        name,
        params,
        constructors: &constructors,
        written: &written,
    };
    declared_value(alloc, parts)
}

/// Returns a type synonym as an object.
fn synonym_value(
    alloc: Global,
    name: &Name,
    params: &[Name],
    ty: &TypeExpr,
) -> Result<Value, AllocError>
    ensures { IfOk result (λ value. view value ≡ declared_data (codes "synonym") name.now params.now (array no_items) (string (written_text whole ty.now))) }
{
    let constructors = json!(in alloc; [])?;
    let written = Value::String(type_text(alloc, ty)?);
    let parts = TypeParts {
        kind: "synonym",
        name,
        params,
        constructors: &constructors,
        written: &written,
    };
    declared_value(alloc, parts)
}

/// Returns the type that a declaration declares, if it declares one.
fn type_value(alloc: Global, decl: &Decl) -> Result<Option<Value>, AllocError>
    ensures { IfOk result (λ value. option_map view value ≡ declared_type decl.now) }
{
    match &decl.kind {
        DeclKind::DataType {
            name,
            params,
            constrs,
        } => Ok(Some(data_value(alloc, name, params, constrs)?)),
        DeclKind::Newtype {
            name,
            params,
            constr,
        } => Ok(Some(newtype_value(alloc, name, params, constr)?)),
        DeclKind::Synonym { name, params, ty } => {
            Ok(Some(synonym_value(alloc, name, params, ty)?))
        }
        DeclKind::Signature { .. } => Ok(None),
        DeclKind::Clause { .. } => Ok(None),
        DeclKind::Pattern { .. } => Ok(None),
    }
}

/// Returns the types that a list declares, in order.
pub(crate) fn types_value(alloc: Global, decls: &[Decl]) -> Result<Value, AllocError>
    ensures { IfOk result (λ value. view value ≡ array (items_of (declared_types decls.now))) }
{
    let mut items = Vec::new(alloc);
    for decl in decls {
        if let Some(value) = type_value(alloc, decl)? {
            items.push(value)?;
        }
    }
    Ok(Value::Array(items))
}

/// Returns whether a name follows itself.
fn repeats(before: Option<&str>, name: &Name) -> bool
    ensures { result ≡ is_repeated (option_map (λ t. t.now) before.entry) name.now }
{
    match before {
        Some(text) => text == name.as_str(),
        None => false,
    }
}

/// Returns the names without those that follow themselves.
fn once_each<'a>(alloc: Global, names: &[&'a Name]) -> Result<LentNames<'a>, AllocError>
    ensures { IfOk result (λ out. out ≡ runs None (map (λ n. n.now) names.entry.now)) }
{
    let mut out = LentNames::new(alloc);
    let mut before = None;
    for name in names {
        if !repeats(before, name) {
            out.push(name)?;
        }
        before = Some(name.as_str());
    }
    Ok(out)
}

/// Returns names with their places, in order.
fn names_value(alloc: Global, names: &[&Name]) -> Result<Value, AllocError>
    ensures { IfOk result (λ value. view value ≡ array (items_of (map name_data (map (λ n. n.now) names.now)))) }
{
    let mut items = Vec::new(alloc);
    for name in names {
        items.push(name.value(alloc)?)?;
    }
    Ok(Value::Array(items))
}

/// Returns the variables that a list binds, in order.
pub(crate) fn values_value(alloc: Global, decls: &[Decl]) -> Result<Value, AllocError>
    ensures { IfOk result (λ value. view value ≡ array (items_of (map name_data (runs None (bound_names (declarations decls.now)))))) }
{
    let mut bound = LentNames::new(alloc);
    add_all_bound(&mut bound, decls)?;
    let names = once_each(alloc, bound.as_slice())?;
    names_value(alloc, names.as_slice())
}
