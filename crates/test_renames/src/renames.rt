//! Renames in sets of two sources.
use hm_service::check;
use hm_service_places::Checked;
use hm_service_rename::{
    CheckedSet, Prepared, Rename, RenameRefusal, Renamed, SourcePlace, prepare_rename, rename_of,
};
use hm_service_sources::{HeldSource, change};
use std::alloc::{AllocError, Global};
use std::sync::Wait;
use std::test::Fail;
use std::thread::Threads;

/// What a rename returns: references, or a refusal.
#[derive(Clone, Copy, PartialEq, Eq)]
enum Outcome {
    Edits(usize),
    Refused(RenameRefusal),
}

/// A rename of the name at a place of line 1 of the first source.
struct Row {
    what: &'static str,
    first: &'static [u8],
    second: &'static [u8],
    column: usize,
    name: &'static str,
    outcome: Outcome,
}

const EXPORTS_X: &[u8] = b"module A (x) where { x = 1 ; y = x }";

const IMPORTS_X: &[u8] = b"module B where { import A (x) ; z = A.x ; w x = x }";

const ROWS: [Row; 39] = [
    Row {
        what: "to a name that isn't in scope elsewhere, which gets a note on this module",
        first: b"module A where { x = 1 }",
        second: b"module B where { y = total }",
        column: 18,
        name: "total",
        outcome: Outcome::Edits(1),
    },
    Row {
        what: "through lists and a qualified use",
        first: EXPORTS_X,
        second: IMPORTS_X,
        column: 22,
        name: "x1",
        outcome: Outcome::Edits(5),
    },
    Row {
        what: "at a use",
        first: EXPORTS_X,
        second: IMPORTS_X,
        column: 34,
        name: "name",
        outcome: Outcome::Edits(5),
    },
    Row {
        what: "a taken name",
        first: EXPORTS_X,
        second: b"module B where { import A }",
        column: 22,
        name: "y",
        outcome: Outcome::Refused(RenameRefusal::NotSame),
    },
    Row {
        what: "a name that an importer declares",
        first: EXPORTS_X,
        second: b"module B where { import A ; z = 1 ; v = x }",
        column: 22,
        name: "z",
        outcome: Outcome::Refused(RenameRefusal::NotSame),
    },
    Row {
        what: "a name that a local binding captures",
        first: EXPORTS_X,
        second: b"module B where { import A ; v w = x }",
        column: 22,
        name: "w",
        outcome: Outcome::Refused(RenameRefusal::NotSame),
    },
    Row {
        what: "a name that captures nothing",
        first: EXPORTS_X,
        second: b"module B where { import A ; v w = w ; u = x }",
        column: 22,
        name: "w",
        outcome: Outcome::Edits(4),
    },
    Row {
        what: "a qualified use that isn't captured",
        first: EXPORTS_X,
        second: b"module B where { import A ; v w = A.x }",
        column: 22,
        name: "w",
        outcome: Outcome::Edits(4),
    },
    Row {
        what: "a hidden name",
        first: EXPORTS_X,
        second: b"module B where { import A hiding (x) ; x = 2 }",
        column: 22,
        name: "q",
        outcome: Outcome::Edits(4),
    },
    Row {
        what: "a name that isn't hidden any more",
        first: EXPORTS_X,
        second: b"module B where { import A hiding (x) ; q = 2 ; v = q }",
        column: 22,
        name: "q",
        outcome: Outcome::Edits(4),
    },
    Row {
        what: "a reserved word",
        first: EXPORTS_X,
        second: b"",
        column: 22,
        name: "of",
        outcome: Outcome::Refused(RenameRefusal::NotAName),
    },
    Row {
        what: "two words",
        first: EXPORTS_X,
        second: b"",
        column: 22,
        name: "x y",
        outcome: Outcome::Refused(RenameRefusal::NotAName),
    },
    Row {
        what: "a qualified name",
        first: EXPORTS_X,
        second: b"",
        column: 22,
        name: "A.y",
        outcome: Outcome::Refused(RenameRefusal::NotAName),
    },
    Row {
        what: "a name and a comment",
        first: EXPORTS_X,
        second: b"",
        column: 22,
        name: "q{- -}",
        outcome: Outcome::Refused(RenameRefusal::NotAName),
    },
    Row {
        what: "what is no lexeme",
        first: EXPORTS_X,
        second: b"",
        column: 22,
        name: "\"",
        outcome: Outcome::Refused(RenameRefusal::NotAName),
    },
    Row {
        what: "no text",
        first: EXPORTS_X,
        second: b"",
        column: 22,
        name: "",
        outcome: Outcome::Refused(RenameRefusal::NotAName),
    },
    Row {
        what: "a name of another kind",
        first: EXPORTS_X,
        second: b"",
        column: 22,
        name: "X",
        outcome: Outcome::Refused(RenameRefusal::NotSame),
    },
    Row {
        what: "no name there",
        first: EXPORTS_X,
        second: b"",
        column: 15,
        name: "q",
        outcome: Outcome::Refused(RenameRefusal::NoName),
    },
    Row {
        what: "the same name",
        first: EXPORTS_X,
        second: IMPORTS_X,
        column: 22,
        name: "x",
        outcome: Outcome::Edits(5),
    },
    Row {
        what: "a name of Prelude",
        first: b"module A where { y = not True }",
        second: b"",
        column: 22,
        name: "q",
        outcome: Outcome::Refused(RenameRefusal::NotBound),
    },
    Row {
        what: "a name that isn't bound",
        first: b"module A where { y = q }",
        second: b"",
        column: 22,
        name: "z",
        outcome: Outcome::Refused(RenameRefusal::NotBound),
    },
    Row {
        what: "a module",
        first: b"module A where { y = 1 }",
        second: b"",
        column: 8,
        name: "C",
        outcome: Outcome::Refused(RenameRefusal::NotSame),
    },
    Row {
        what: "a local variable",
        first: b"module A where { f x = \\y -> x }",
        second: b"",
        column: 20,
        name: "z",
        outcome: Outcome::Edits(2),
    },
    Row {
        what: "a local variable that another one captures",
        first: b"module A where { f x = \\y -> x }",
        second: b"",
        column: 20,
        name: "y",
        outcome: Outcome::Refused(RenameRefusal::NotSame),
    },
    Row {
        what: "a local variable that another one hides",
        first: b"module A where { f x = \\y -> y }",
        second: b"",
        column: 20,
        name: "y",
        outcome: Outcome::Edits(1),
    },
    Row {
        what: "a type",
        first: b"module A where { data T = T Int ; f :: T -> T ; f t = t }",
        second: b"module B where { import A (T (T)) ; g = f1 (T 1) ; f1 t = t }",
        column: 23,
        name: "Tree",
        outcome: Outcome::Edits(4),
    },
    Row {
        what: "a constructor",
        first: b"module A where { data T = T Int ; f :: T -> T ; f t = t }",
        second: b"module B where { import A (T (T)) ; g = f1 (T 1) ; f1 t = t }",
        column: 27,
        name: "Leaf",
        outcome: Outcome::Edits(3),
    },
    Row {
        what: "a parameter of a type",
        first: b"module A where { data T a = T a }",
        second: b"",
        column: 25,
        name: "b",
        outcome: Outcome::Edits(2),
    },
    Row {
        what: "in a set with a skipped module",
        first: b"module A where { y = q ; x = 1 }",
        second: b"module B where { import A }",
        column: 26,
        name: "z",
        outcome: Outcome::Refused(RenameRefusal::NotWhole),
    },
    Row {
        what: "a hidden type whose name a constructor doesn't have",
        first: b"module A where { data T = C }",
        second: b"module B where { import A hiding (T) ; f = C }",
        column: 23,
        name: "S",
        outcome: Outcome::Edits(2),
    },
    Row {
        what: "a type to the name of a variable",
        first: b"module A where { data T = C }",
        second: b"",
        column: 23,
        name: "t",
        outcome: Outcome::Refused(RenameRefusal::NotRead),
    },
    Row {
        what: "in a faulty module that nothing imports",
        first: b"module A where { y = q ; x = 1 }",
        second: b"module B where { z = 1 }",
        column: 26,
        name: "x1",
        outcome: Outcome::Edits(1),
    },
    Row {
        what: "two definitions of a faulty module",
        first: b"module A where { y = q ; x = 1 ; z = 2 }",
        second: b"",
        column: 26,
        name: "z",
        outcome: Outcome::Refused(RenameRefusal::NotSame),
    },
    Row {
        what: "a name that was unbound",
        first: b"module A where { y = q ; x = 1 }",
        second: b"",
        column: 26,
        name: "q",
        outcome: Outcome::Refused(RenameRefusal::NotSame),
    },
    Row {
        what: "beside a source that can't be read",
        first: EXPORTS_X,
        second: b"module B where { y = }",
        column: 22,
        name: "q",
        outcome: Outcome::Refused(RenameRefusal::NotWhole),
    },
    Row {
        what: "beside a source that is left out",
        first: EXPORTS_X,
        second: b"module B where { import C }",
        column: 22,
        name: "q",
        outcome: Outcome::Refused(RenameRefusal::NotWhole),
    },
    Row {
        what: "with its signature",
        first: b"module A where { x :: Char ; x = 'c' }",
        second: b"",
        column: 18,
        name: "x'",
        outcome: Outcome::Edits(2),
    },
    Row {
        what: "to the name of a function of Prelude",
        first: EXPORTS_X,
        second: b"",
        column: 22,
        name: "not",
        outcome: Outcome::Refused(RenameRefusal::NotSame),
    },
    Row {
        what: "with two modules of one name exported",
        first: b"module A (module A, x) where { x = 1 }",
        second: b"module B where { import qualified A as C ; y = C.x }",
        column: 32,
        name: "z",
        outcome: Outcome::Edits(3),
    },
];

/// Returns a source with a text.
fn source_with<T: Threads>(rt: &T, alloc: Global, text: &[u8]) -> Result<HeldSource, Fail> {
    let mut source = HeldSource::new(alloc);
    let copy = Vec::from_slice(alloc, text)?;
    change(rt, alloc, &mut source, copy).map_err(|_| "no source")?;
    Ok(source)
}

/// Returns sources with the two texts of a row.
fn held_by<T: Threads>(rt: &T, alloc: Global, row: &Row) -> Result<Vec<HeldSource>, Fail> {
    let mut held = Vec::new(alloc);
    held.push(source_with(rt, alloc, row.first)?)?;
    held.push(source_with(rt, alloc, row.second)?)?;
    Ok(held)
}

/// Returns what a rename returned.
fn outcome_of(renamed: &Renamed) -> Outcome {
    match renamed {
        Renamed::Edits(references) => Outcome::Edits(references.len()),
        Renamed::Refused(refusal) => Outcome::Refused(*refusal),
    }
}

/// Returns the outcome of the rename of a row in a held set.
fn outcome_in<T: Threads + Wait + Sync>(
    rt: &T,
    alloc: Global,
    held: &[HeldSource],
    row: &Row,
) -> Result<Outcome, Fail> {
    let checked = check(rt, alloc, held, &[], 2).map_err(|_| "no check")?;
    let set = CheckedSet {
        held,
        checked: &checked,
        workers: 2,
    };
    let rename = Rename {
        source: 0,
        line: 1,
        column: row.column,
        name: row.name,
    };
    let renamed = rename_of(rt, alloc, &set, &rename).map_err(|_| "no rename")?;
    Ok(outcome_of(&renamed))
}

#[test]
fn renames_have_their_outcomes(rt: HostRuntime) -> Result<(), Fail> {
    let alloc = rt.alloc();
    for row in ROWS.as_slice() {
        let held = held_by(&rt, alloc, row)?;
        if outcome_in(&rt, alloc, held.as_slice(), row)? != row.outcome {
            return Err(Fail::from(row.what));
        }
    }
    Ok(())
}

/// What is found for a rename: the name's column and the number of its bytes, or a refusal.
#[derive(Clone, Copy, PartialEq, Eq)]
enum Found {
    Name(usize, usize),
    Refused(RenameRefusal),
}

/// The name that a rename at a place of line 1 of the first source is of.
struct PreparedRow {
    what: &'static str,
    first: &'static [u8],
    second: &'static [u8],
    column: usize,
    found: Found,
}

const PREPARED: [PreparedRow; 6] = [
    PreparedRow {
        what: "a name before a rename",
        first: EXPORTS_X,
        second: IMPORTS_X,
        column: 22,
        found: Found::Name(22, 1),
    },
    PreparedRow {
        what: "a qualifier before a rename",
        first: IMPORTS_X,
        second: EXPORTS_X,
        column: 37,
        found: Found::Name(39, 1),
    },
    PreparedRow {
        what: "after a qualifier before a rename",
        first: IMPORTS_X,
        second: EXPORTS_X,
        column: 39,
        found: Found::Name(39, 1),
    },
    PreparedRow {
        what: "Prelude's before a rename",
        first: b"module A where { x = not True }",
        second: IMPORTS_X,
        column: 22,
        found: Found::Refused(RenameRefusal::NotBound),
    },
    PreparedRow {
        what: "no name before a rename",
        first: EXPORTS_X,
        second: IMPORTS_X,
        column: 20,
        found: Found::Refused(RenameRefusal::NoName),
    },
    PreparedRow {
        what: "a text that can't be read before a rename",
        first: EXPORTS_X,
        second: b"module B where {",
        column: 22,
        found: Found::Refused(RenameRefusal::NotWhole),
    },
];

/// Returns what was found for a rename.
fn found_by(prepared: &Prepared) -> Found {
    match prepared {
        Prepared::Renamable(target) => {
            Found::Name(target.reference.column, target.reference.length)
        }
        Prepared::Refused(refusal) => Found::Refused(*refusal),
    }
}

/// Returns what is found for a rename at the place of a row.
fn found_in<T: Threads + Wait + Sync>(
    rt: &T,
    alloc: Global,
    row: &PreparedRow,
) -> Result<Found, Fail> {
    let mut held = Vec::new(alloc);
    held.push(source_with(rt, alloc, row.first)?)?;
    held.push(source_with(rt, alloc, row.second)?)?;
    let checked = check(rt, alloc, held.as_slice(), &[], 2).map_err(|_| "no check")?;
    let set = CheckedSet {
        held: held.as_slice(),
        checked: &checked,
        workers: 2,
    };
    let place = SourcePlace {
        source: 0,
        line: 1,
        column: row.column,
    };
    let prepared = prepare_rename(rt, alloc, &set, &place).map_err(|_| "nothing prepared")?;
    Ok(found_by(&prepared))
}

#[test]
fn names_are_found_before_renames(rt: HostRuntime) -> Result<(), Fail> {
    let alloc = rt.alloc();
    for row in PREPARED.as_slice() {
        if found_in(&rt, alloc, row)? != row.found {
            return Err(Fail::from(row.what));
        }
    }
    Ok(())
}
