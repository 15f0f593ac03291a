//! The object of a module, on a line of its own.
ghost use Rattle.std.specs.Prelude.{◌≡◌, IfOk, map, string_bytes};
ghost use Rattle.serde_json.specs.Data.{string};
ghost use Rattle.serde_json.specs.View.{view};
ghost use Rattle.hm_build_objects.specs.Objects.{defines_data, faults_of, interface_of, joined_data, list_data, module_data, module_text, verdict_word};
ghost use Rattle.hm_build_objects.specs.Stating.{names_of, status_of};

use crate::declared::{types_value, values_value};
use crate::entries::interface_value;
use crate::lines::line_of;
use crate::written::array_of;
use hm_names::Fault;
use hm_syntax::{Decl, Module};
use hm_types::Interface;
use serde_json::{Value, json};
use std::alloc::{AllocError, Global};

/// A verdict, with what an object states for it.
#[derive(Clone, Copy)]
pub enum Stated<'a> {
    /// It is good. Has its interface.
    Good(&'a Interface),
    /// It has these faults.
    Faulty(&'a [Fault]),
    /// It is skipped because of these imports, which are ordered by name.
    Skipped(&'a [&'a str]),
}

/// Returns the word of a verdict.
fn verdict_word(stated: Stated<'_>) -> &'static str
    ensures { result.now ≡ verdict_word (status_of stated.entry) }
{
    match stated {
        Stated::Good(_) => "good",
        Stated::Faulty(_) => "faulty",
        Stated::Skipped(_) => "skipped",
    }
}

/// Returns the interface of a good module, else null.
fn interface_or_null(alloc: Global, stated: Stated<'_>) -> Result<Value, AllocError>
    ensures { IfOk result (λ value. view value ≡ interface_of (status_of stated.entry)) }
{
    match stated {
        Stated::Good(interface) => Ok(interface_value(alloc, interface)?),
        Stated::Faulty(_) => Ok(Value::Null),
        Stated::Skipped(_) => Ok(Value::Null),
    }
}

/// Returns the faults of a module.
fn faults_value(alloc: Global, stated: Stated<'_>) -> Result<Value, AllocError>
    ensures { IfOk result (λ value. view value ≡ faults_of (status_of stated.entry)) }
{
    match stated {
        Stated::Good(_) => json!(in alloc; []),
        Stated::Faulty(faults) => Ok(array_of(alloc, faults)?),
        Stated::Skipped(_) => json!(in alloc; []),
    }
}

/// Returns names as an array of strings.
fn texts_value(alloc: Global, names: &[&str]) -> Result<Value, AllocError>
    ensures { IfOk result (λ value. view value ≡ list_data (map string (map (λ n. n.now) names.now))) }
{
    let mut items = Vec::new(alloc);
    for name in names {
        items.push(Value::String(String::from_str(alloc, name)?))?;
    }
    Ok(Value::Array(items))
}

/// Returns the imports because of which a module is skipped.
fn blame_value(alloc: Global, stated: Stated<'_>) -> Result<Value, AllocError>
    ensures { IfOk result (λ value. view value ≡ list_data (map string (names_of stated.entry))) }
{
    match stated {
        Stated::Good(_) => json!(in alloc; []),
        Stated::Faulty(_) => json!(in alloc; []),
        Stated::Skipped(names) => Ok(texts_value(alloc, names)?),
    }
}

/// Returns what a list of declarations declares, as an object.
fn defines_value(alloc: Global, decls: &[Decl]) -> Result<Value, AllocError>
    ensures { IfOk result (λ value. view value ≡ defines_data decls.now) }
{
    let types = types_value(alloc, decls)?;
    let values = values_value(alloc, decls)?;
    json!(in alloc; {"types": types, "values": values})
}

/// The members of a module's object that are short lists.
#[derive(Clone, Copy)]
struct Lists<'a> {
    faults: &'a Value,
    imports: &'a Value,
    blamed: &'a Value,
}

/// The members of a module's object that are texts.
#[derive(Clone, Copy)]
struct Words<'a> {
    file: &'a str,
    name: &'a str,
    verdict: &'a str,
}

// Why: docs/DECISIONS.md, "Reports as objects".
/// Returns the object of a module with these members.
fn joined(
    alloc: Global,
    words: Words<'_>,
    lists: Lists<'_>,
    defines: Value,
    interface: Value,
) -> Result<Value, AllocError>
    ensures { IfOk result (λ value. view value ≡ joined_data words.entry.file.now words.entry.name.now words.entry.verdict.now
        (view defines) (view lists.entry.faults.now) (view lists.entry.imports.now) (view interface) (view lists.entry.blamed.now)) }
{
    let Words {
        file,
        name,
        verdict,
    } = words;
    let Lists {
        faults,
        imports,
        blamed,
    } = lists;
    json!(in alloc; {
        "interface": interface,
        "defines": defines,
        "faults": faults,
        "file": file,
        "imports": imports,
        "kind": "module",
        "module": name,
        "skippedBy": blamed,
        "verdict": verdict,
    })
}

/// Returns the object of a module.
fn module_value(
    alloc: Global,
    file: &str,
    program: &Module,
    stated: Stated<'_>,
) -> Result<Value, AllocError>
    ensures { IfOk result (λ value. view value ≡ module_data file.now program.now (status_of stated.entry) (names_of stated.entry)) }
{
    let words = Words {
        file,
        name: program.header.name.as_str(),
        verdict: verdict_word(stated),
    };
    let faults = faults_value(alloc, stated)?;
    let imports = array_of(alloc, program.header.imports.as_slice())?;
    let blamed = blame_value(alloc, stated)?;
    let lists = Lists {
        faults: &faults,
        imports: &imports,
        blamed: &blamed,
    };
    let defines = defines_value(alloc, program.decls.as_slice())?;
    let interface = interface_or_null(alloc, stated)?;
    joined(alloc, words, lists, defines, interface)
}

// Why: docs/DECISIONS.md, "Reports as objects".
/// Returns the object of a module of this file, with its verdict, and a line end.
pub fn module_line(
    alloc: Global,
    file: &str,
    program: &Module,
    stated: Stated<'_>,
) -> Result<String, AllocError>
    ensures { IfOk result (λ text. string_bytes text ≡ module_text file.now program.now (status_of stated.entry) (names_of stated.entry)) }
{
    let value = module_value(alloc, file, program, stated)?;
    line_of(alloc, &value)
}
