//! The entries of an interface, as objects.
ghost use Rattle.std.specs.Prelude.{◌≡◌, IfOk};
ghost use Rattle.serde_json.specs.View.{view};
ghost use Rattle.hm_build_objects.specs.Objects.{constructor_data, entity_data, interface_data, synonym_data, type_data, value_data};

use crate::written::{Written, array_of};
use hm_types::{ConstructorEntry, Entity, Interface, SynonymEntry, TypeEntry, ValueEntry};
use hm_types_display::scheme_text;
use serde_json::{Value, json};
use std::alloc::{AllocError, Global};

/// Returns an entity as an object.
fn entity_value(alloc: Global, entity: &Entity) -> Result<Value, AllocError>
    ensures { IfOk result (λ value. view value ≡ entity_data entity.now) }
{
    let home = entity.module.as_str();
    let name = entity.name.as_str();
    json!(in alloc; {"module": home, "name": name})
}

impl Written for TypeEntry {
    ghost use Rattle.hm_build_objects.specs.Objects.{type_data};

    ghost data_of = { type_data };

    fn value(&self, alloc: Global) -> Result<Value, AllocError> {
        let entity = entity_value(alloc, &self.entity)?;
        let entity = &entity;
        let name = self.name.as_str();
        let parameters = self.arity as u64;
        json!(in alloc; {"entity": entity, "name": name, "parameters": parameters})
    }
}

impl Written for SynonymEntry {
    ghost use Rattle.hm_build_objects.specs.Objects.{synonym_data};

    ghost data_of = { synonym_data };

    fn value(&self, alloc: Global) -> Result<Value, AllocError> {
        let entity = entity_value(alloc, &self.entity)?;
        let entity = &entity;
        let name = self.name.as_str();
        let parameters = self.synonym.parameters() as u64;
        json!(in alloc; {"entity": entity, "name": name, "parameters": parameters})
    }
}

impl Written for ConstructorEntry {
    ghost use Rattle.hm_build_objects.specs.Objects.{constructor_data};

    ghost data_of = { constructor_data };

    fn value(&self, alloc: Global) -> Result<Value, AllocError> {
        let entity = entity_value(alloc, &self.entity)?;
        let owner = entity_value(alloc, &self.owner)?;
        let text = scheme_text(alloc, &self.scheme)?;
        let (entity, owner, text) = (&entity, &owner, text.as_str());
        let name = self.name.as_str();
        let arguments = self.arguments as u64;
        let variables = self.scheme.vars() as u64;
        json!(in alloc; {
            "arguments": arguments,
            "entity": entity,
            "name": name,
            "owner": owner,
            "type": text,
            "variables": variables,
        })
    }
}

impl Written for ValueEntry {
    ghost use Rattle.hm_build_objects.specs.Objects.{value_data};

    ghost data_of = { value_data };

    fn value(&self, alloc: Global) -> Result<Value, AllocError> {
        let entity = entity_value(alloc, &self.entity)?;
        let text = scheme_text(alloc, &self.scheme)?;
        let (entity, text) = (&entity, text.as_str());
        let name = self.name.as_str();
        let variables = self.scheme.vars() as u64;
        json!(in alloc; {"entity": entity, "name": name, "type": text, "variables": variables})
    }
}

/// Returns the exports of a module as an object.
pub(crate) fn interface_value(alloc: Global, interface: &Interface) -> Result<Value, AllocError>
    ensures { IfOk result (λ value. view value ≡ interface_data interface.now) }
{
    let constructors = array_of(alloc, interface.constructors())?;
    let synonyms = array_of(alloc, interface.synonyms())?;
    let types = array_of(alloc, interface.types())?;
    let values = array_of(alloc, interface.values())?;
    json!(in alloc; {
        "constructors": constructors,
        "synonyms": synonyms,
        "types": types,
        "values": values,
    })
}
