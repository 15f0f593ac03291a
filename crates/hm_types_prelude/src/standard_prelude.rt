//! The interface of Prelude: a selection from the Haskell 98 Report, chapter 8.

ghost use Rattle.std.specs.Prelude.{◌≡◌, All, IfOk, map};
ghost use Rattle.hm_types_prelude.specs.Polish.{IsNumbered, WriteSchemes, read_as};
ghost use Rattle.hm_types.specs.Schemes.{HasArities, HasNoRigid, canonical_of};
ghost use Rattle.hm_types.specs.Synonyms.{IsSynonym};
ghost use Rattle.hm_types.specs.StandardPrelude.{constructor_entry, prelude_interface, synonym_entry, type_entry, value_entry};

use crate::polish::Part::{
    A, B, Bool, C, Char, Either, Function, Int, List, Maybe, Ordering, Pair,
};
use crate::polish::{Part, in_prelude, read};
use hm_types::{
    ConstructorEntry, Interface, Scheme, Synonym, SynonymEntry, Text, TypeEntry, ValueEntry,
};
use std::alloc::{AllocError, Global};

/// The types, with their numbers of parameters.
const TYPES: [(&str, usize); 6] = [
    ("Bool", 0),
    ("Char", 0),
    ("Either", 2),
    ("Int", 0),
    ("Maybe", 1),
    ("Ordering", 0),
];

/// The synonyms, which have no parameters.
const SYNONYMS: [(&str, &[Part]); 1] = [("String", &[List, Char])];

/// The constructors, with their type constructors, their numbers of arguments, the numbers of type
/// variables in their types, and these types.
const CONSTRUCTORS: [(&str, &str, usize, usize, &[Part]); 9] = [
    ("EQ", "Ordering", 0, 0, &[Ordering]),
    ("False", "Bool", 0, 0, &[Bool]),
    ("GT", "Ordering", 0, 0, &[Ordering]),
    ("Just", "Maybe", 1, 1, &[Function, A, Maybe, A]),
    ("LT", "Ordering", 0, 0, &[Ordering]),
    ("Left", "Either", 1, 2, &[Function, A, Either, A, B]),
    ("Nothing", "Maybe", 0, 1, &[Maybe, A]),
    ("Right", "Either", 1, 2, &[Function, A, Either, B, A]),
    ("True", "Bool", 0, 0, &[Bool]),
];

/// The variables, with the numbers of type variables in their types, and these types.
const VALUES: [(&str, usize, &[Part]); 55] = [
    (
        "all",
        1,
        &[Function, Function, A, Bool, Function, List, A, Bool],
    ),
    ("and", 0, &[Function, List, Bool, Bool]),
    (
        "any",
        1,
        &[Function, Function, A, Bool, Function, List, A, Bool],
    ),
    ("asTypeOf", 1, &[Function, A, Function, A, A]),
    (
        "break",
        1,
        &[
            Function, Function, A, Bool, Function, List, A, Pair, List, A, List, A,
        ],
    ),
    ("concat", 1, &[Function, List, List, A, List, A]),
    (
        "concatMap",
        2,
        &[Function, Function, A, List, B, Function, List, A, List, B],
    ),
    ("const", 2, &[Function, A, Function, B, A]),
    (
        "curry",
        3,
        &[
            Function, Function, Pair, A, B, C, Function, A, Function, B, C,
        ],
    ),
    ("cycle", 1, &[Function, List, A, List, A]),
    ("drop", 1, &[Function, Int, Function, List, A, List, A]),
    (
        "dropWhile",
        1,
        &[Function, Function, A, Bool, Function, List, A, List, A],
    ),
    (
        "either",
        3,
        &[
            Function, Function, A, B, Function, Function, C, B, Function, Either, A, C, B,
        ],
    ),
    ("error", 1, &[Function, List, Char, A]),
    (
        "filter",
        1,
        &[Function, Function, A, Bool, Function, List, A, List, A],
    ),
    (
        "flip",
        3,
        &[
            Function, Function, A, Function, B, C, Function, B, Function, A, C,
        ],
    ),
    (
        "foldl",
        2,
        &[
            Function, Function, A, Function, B, A, Function, A, Function, List, B, A,
        ],
    ),
    (
        "foldl1",
        1,
        &[Function, Function, A, Function, A, A, Function, List, A, A],
    ),
    (
        "foldr",
        2,
        &[
            Function, Function, A, Function, B, B, Function, B, Function, List, A, B,
        ],
    ),
    (
        "foldr1",
        1,
        &[Function, Function, A, Function, A, A, Function, List, A, A],
    ),
    ("fst", 2, &[Function, Pair, A, B, A]),
    ("head", 1, &[Function, List, A, A]),
    ("id", 1, &[Function, A, A]),
    ("init", 1, &[Function, List, A, List, A]),
    (
        "iterate",
        1,
        &[Function, Function, A, A, Function, A, List, A],
    ),
    ("last", 1, &[Function, List, A, A]),
    ("length", 1, &[Function, List, A, Int]),
    ("lines", 0, &[Function, List, Char, List, List, Char]),
    (
        "map",
        2,
        &[Function, Function, A, B, Function, List, A, List, B],
    ),
    (
        "maybe",
        2,
        &[Function, A, Function, Function, B, A, Function, Maybe, B, A],
    ),
    ("not", 0, &[Function, Bool, Bool]),
    ("null", 1, &[Function, List, A, Bool]),
    ("or", 0, &[Function, List, Bool, Bool]),
    ("otherwise", 0, &[Bool]),
    ("repeat", 1, &[Function, A, List, A]),
    ("replicate", 1, &[Function, Int, Function, A, List, A]),
    ("reverse", 1, &[Function, List, A, List, A]),
    (
        "scanl",
        2,
        &[
            Function, Function, A, Function, B, A, Function, A, Function, List, B, List, A,
        ],
    ),
    (
        "scanr",
        2,
        &[
            Function, Function, A, Function, B, B, Function, B, Function, List, A, List, B,
        ],
    ),
    ("seq", 2, &[Function, A, Function, B, B]),
    ("snd", 2, &[Function, Pair, A, B, B]),
    (
        "span",
        1,
        &[
            Function, Function, A, Bool, Function, List, A, Pair, List, A, List, A,
        ],
    ),
    (
        "splitAt",
        1,
        &[Function, Int, Function, List, A, Pair, List, A, List, A],
    ),
    ("tail", 1, &[Function, List, A, List, A]),
    ("take", 1, &[Function, Int, Function, List, A, List, A]),
    (
        "takeWhile",
        1,
        &[Function, Function, A, Bool, Function, List, A, List, A],
    ),
    (
        "uncurry",
        3,
        &[
            Function, Function, A, Function, B, C, Function, Pair, A, B, C,
        ],
    ),
    ("undefined", 1, &[A]),
    ("unlines", 0, &[Function, List, List, Char, List, Char]),
    (
        "until",
        1,
        &[
            Function, Function, A, Bool, Function, Function, A, A, Function, A, A,
        ],
    ),
    ("unwords", 0, &[Function, List, List, Char, List, Char]),
    (
        "unzip",
        2,
        &[Function, List, Pair, A, B, Pair, List, A, List, B],
    ),
    ("words", 0, &[Function, List, Char, List, List, Char]),
    (
        "zip",
        2,
        &[Function, List, A, Function, List, B, List, Pair, A, B],
    ),
    (
        "zipWith",
        3,
        &[
            Function, Function, A, Function, B, C, Function, List, A, Function, List, B, List, C,
        ],
    ),
];

/// Returns the interface of Prelude.
pub fn prelude(alloc: Global) -> Result<Interface, AllocError>
    ensures { IfOk result (λ interface. interface ≡ prelude_interface) }
{
    let name = Text::new(String::from_str(alloc, "Prelude")?)?;
    let types = types(alloc, &TYPES)?;
    let synonyms = synonyms(alloc, &SYNONYMS)?;
    let constructors = constructors(alloc, &CONSTRUCTORS)?;
    let values = values(alloc, &VALUES)?;
    Ok(Interface::new(name, types, synonyms, constructors, values))
}

fn types(alloc: Global, table: &[(&str, usize)]) -> Result<Vec<TypeEntry>, AllocError>
    ensures { IfOk result (λ entries. entries.items ≡ map (λ row. type_entry row.0.now row.1) table.now) }
{
    let mut entries = Vec::with_capacity(alloc, table.len())?;
    for (name, arity) in table {
        entries.push(type_entry(alloc, name, *arity)?)?;
    }
    Ok(entries)
}

fn synonyms(alloc: Global, table: &[(&str, &[Part])]) -> Result<Vec<SynonymEntry>, AllocError>
    requires { All (λ row. IsSynonym (record { parameters = 0; body = read_as row.1.now })) table.now }
    ensures { IfOk result (λ entries. entries.items ≡ map (λ row. synonym_entry row.0.now (read_as row.1.now)) table.now) }
{
    let mut entries = Vec::with_capacity(alloc, table.len())?;
    for (name, parts) in table {
        entries.push(synonym_entry(alloc, name, parts)?)?;
    }
    Ok(entries)
}

fn constructors(
    alloc: Global,
    table: &[(&str, &str, usize, usize, &[Part])],
) -> Result<Vec<ConstructorEntry>, AllocError>
    requires { WriteSchemes (map (λ row. (row.3, row.4.now)) table.now) }
    ensures { IfOk result (λ entries. entries.items ≡ map (λ row. constructor_entry row.0.now row.1.now row.2 (read_as row.4.now)) table.now) }
{
    let mut entries = Vec::with_capacity(alloc, table.len())?;
    for row in table {
        entries.push(constructor_entry(alloc, row)?)?;
    }
    Ok(entries)
}

fn values(alloc: Global, table: &[(&str, usize, &[Part])]) -> Result<Vec<ValueEntry>, AllocError>
    requires { WriteSchemes (map (λ row. (row.1, row.2.now)) table.now) }
    ensures { IfOk result (λ entries. entries.items ≡ map (λ row. value_entry row.0.now (read_as row.2.now)) table.now) }
{
    let mut entries = Vec::with_capacity(alloc, table.len())?;
    for (name, variables, parts) in table {
        entries.push(value_entry(alloc, name, *variables, parts)?)?;
    }
    Ok(entries)
}

fn type_entry(alloc: Global, name: &str, arity: usize) -> Result<TypeEntry, AllocError>
    ensures { IfOk result (λ entry. entry ≡ type_entry name.now arity) }
{
    let text = Text::new(String::from_str(alloc, name)?)?;
    let entity = in_prelude(alloc, name)?;
    Ok(TypeEntry {
        name: text,
        entity,
        arity,
    })
}

fn synonym_entry(alloc: Global, name: &str, parts: &[Part]) -> Result<SynonymEntry, AllocError>
    requires { IsSynonym (record { parameters = 0; body = read_as parts.now }) }
    ensures { IfOk result (λ entry. entry ≡ synonym_entry name.now (read_as parts.now)) }
{
    let text = Text::new(String::from_str(alloc, name)?)?;
    let entity = in_prelude(alloc, name)?;
    let body = read(alloc, parts)?;
    Ok(SynonymEntry {
        name: text,
        entity,
        synonym: Synonym::new(0, body),
    })
}

/// Returns the entry of a constructor from a row of the table.
fn constructor_entry(
    alloc: Global,
    row: &(&str, &str, usize, usize, &[Part]),
) -> Result<ConstructorEntry, AllocError>
    requires not_rigid { HasNoRigid (read_as row.now.4.now) }
    requires arities { HasArities (read_as row.now.4.now) }
    requires numbered { IsNumbered row.now.3 (read_as row.now.4.now) }
    ensures { IfOk result (λ entry. entry ≡ constructor_entry row.now.0.now row.now.1.now row.now.2 (read_as row.now.4.now)) }
{
    let owner = in_prelude(alloc, row.1)?;
    let value = value_entry(alloc, row.0, row.3, row.4)?;
    Ok(ConstructorEntry {
        name: value.name,
        entity: value.entity,
        owner,
        arguments: row.2,
        scheme: value.scheme,
    })
}

fn value_entry(
    alloc: Global,
    name: &str,
    variables: usize,
    parts: &[Part],
) -> Result<ValueEntry, AllocError>
    requires not_rigid { HasNoRigid (read_as parts.now) }
    requires arities { HasArities (read_as parts.now) }
    requires numbered { IsNumbered variables (read_as parts.now) }
    ensures { IfOk result (λ entry. entry ≡ value_entry name.now (read_as parts.now)) }
{
    let text = Text::new(String::from_str(alloc, name)?)?;
    let entity = in_prelude(alloc, name)?;
    let scheme = scheme(alloc, variables, parts)?;
    Ok(ValueEntry {
        name: text,
        entity,
        scheme,
    })
}

/// Returns the scheme of a type that is written in parts. Its variables are numbered in order.
fn scheme(alloc: Global, variables: usize, parts: &[Part]) -> Result<Scheme, AllocError>
    requires not_rigid { HasNoRigid (read_as parts.now) }
    requires arities { HasArities (read_as parts.now) }
    requires numbered { IsNumbered variables (read_as parts.now) }
    ensures { IfOk result (λ scheme. scheme ≡ canonical_of (read_as parts.now)) }
{
    let body = read(alloc, parts)?;
    Ok(Scheme::new(variables, body))
}
