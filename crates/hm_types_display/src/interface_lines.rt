//! The text of an interface.

ghost use Rattle.std.specs.Prelude.{◌≡◌, ◌++◌, IfOk, OnOk, codes, string_bytes};
ghost use Rattle.std.specs.List.{flat_map};
ghost use Rattle.hm_types.specs.Shape.{type_of};
ghost use Rattle.hm_types_display.specs.InterfaceTexts.{constructor_line, counted, interface_text_of, meaning, synonym_line, type_line, typed, value_line};

use crate::printing::{write_original, write_whole};
use hm_types::{ConstructorEntry, Entity, Interface, SynonymEntry, Ty, TypeEntry, ValueEntry};
use std::alloc::{AllocError, Global};

/// Returns the text of an interface: the module's name, then a line for each type, synonym, constructor and
/// variable, ordered by name.
pub fn interface_text(alloc: Global, interface: &Interface) -> Result<String, AllocError>
    ensures { IfOk result (λ text. string_bytes text ≡ interface_text_of interface.now) }
{
    let mut out = String::new(alloc);
    let name = interface.name();
    write!(out, "module {name}\n")?;
    write_types(&mut out, interface.types())?;
    write_synonyms(alloc, &mut out, interface.synonyms())?;
    write_constructors(alloc, &mut out, interface.constructors())?;
    write_values(alloc, &mut out, interface.values())?;
    Ok(out)
}

fn write_types(out: &mut String, entries: &[TypeEntry]) -> Result<(), AllocError>
    ensures { OnOk result (string_bytes out.new ≡ string_bytes out.old ++ flat_map type_line entries.now) }
{
    for entry in entries {
        write_type(out, entry)?;
    }
    Ok(())
}

fn write_type(out: &mut String, entry: &TypeEntry) -> Result<(), AllocError>
    ensures { OnOk result (string_bytes out.new ≡ string_bytes out.old ++ type_line entry.now) }
{
    out.push_str("  type ")?;
    write_counted(out, entry.name.as_str(), entry.arity)?;
    write_meaning(out, &entry.entity)?;
    out.push_str("\n")
}

fn write_synonyms(
    alloc: Global,
    out: &mut String,
    entries: &[SynonymEntry],
) -> Result<(), AllocError>
    ensures { OnOk result (string_bytes out.new ≡ string_bytes out.old ++ flat_map synonym_line entries.now) }
{
    for entry in entries {
        write_synonym(alloc, out, entry)?;
    }
    Ok(())
}

fn write_synonym(alloc: Global, out: &mut String, entry: &SynonymEntry) -> Result<(), AllocError>
    ensures { OnOk result (string_bytes out.new ≡ string_bytes out.old ++ synonym_line entry.now) }
{
    out.push_str("  syn ")?;
    write_counted(out, entry.name.as_str(), entry.synonym.parameters())?;
    write_meaning(out, &entry.entity)?;
    write_typed(alloc, out, entry.synonym.body())?;
    out.push_str("\n")
}

fn write_constructors(
    alloc: Global,
    out: &mut String,
    entries: &[ConstructorEntry],
) -> Result<(), AllocError>
    ensures { OnOk result (string_bytes out.new ≡ string_bytes out.old ++ flat_map constructor_line entries.now) }
{
    for entry in entries {
        write_constructor(alloc, out, entry)?;
    }
    Ok(())
}

fn write_constructor(
    alloc: Global,
    out: &mut String,
    entry: &ConstructorEntry,
) -> Result<(), AllocError>
    ensures { OnOk result (string_bytes out.new ≡ string_bytes out.old ++ constructor_line entry.now) }
{
    out.push_str("  con ")?;
    out.push_str(entry.name.as_str())?;
    write_meaning(out, &entry.entity)?;
    write_typed(alloc, out, entry.scheme.body())?;
    out.push_str("\n")
}

fn write_values(alloc: Global, out: &mut String, entries: &[ValueEntry]) -> Result<(), AllocError>
    ensures { OnOk result (string_bytes out.new ≡ string_bytes out.old ++ flat_map value_line entries.now) }
{
    for entry in entries {
        write_value(alloc, out, entry)?;
    }
    Ok(())
}

fn write_value(alloc: Global, out: &mut String, entry: &ValueEntry) -> Result<(), AllocError>
    ensures { OnOk result (string_bytes out.new ≡ string_bytes out.old ++ value_line entry.now) }
{
    out.push_str("  val ")?;
    out.push_str(entry.name.as_str())?;
    write_meaning(out, &entry.entity)?;
    write_typed(alloc, out, entry.scheme.body())?;
    out.push_str("\n")
}

/// Appends a name and its number of parameters.
fn write_counted(out: &mut String, name: &str, parameters: usize) -> Result<(), AllocError>
    ensures { OnOk result (string_bytes out.new ≡ string_bytes out.old ++ counted name.now parameters) }
{
    write!(out, "{name}/{parameters}")
}

/// Appends ` = ` and the entity of a name.
fn write_meaning(out: &mut String, entity: &Entity) -> Result<(), AllocError>
    ensures { OnOk result (string_bytes out.new ≡ string_bytes out.old ++ meaning entity.now) }
{
    out.push_str(" = ")?;
    write_original(out, entity)
}

/// Appends ` :: ` and a type.
fn write_typed(alloc: Global, out: &mut String, t: &Ty) -> Result<(), AllocError>
    ensures { OnOk result (string_bytes out.new ≡ string_bytes out.old ++ typed (type_of t.now)) }
{
    out.push_str(" :: ")?;
    write_whole(alloc, out, t)
}
