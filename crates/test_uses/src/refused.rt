//! The uses of worked modules, for `tests/refuse_allocations.py --tests`, which fails each of the test's allocations in turn.
//!
//! With enough memory each use has its meaning. If the call itself runs out of memory, its test ends with an error of its own; before the call, the
//! error is "no memory". The test has no other end.
mod headers;

// Why: docs/DECISIONS.md, "Refusals of single calls".
use hm_lex::{LexFault, lex};
use hm_names::Namespace;
use hm_parse::{ParseFault, parse};
use hm_scope_imports::scope_of;
use hm_scope_tables::{EntityRef, Scope};
use hm_syntax::{Module, Name};
use hm_types::Interface;
use hm_types_prelude::SharedPrelude;
use hm_uses_declarations::{Meaning, Use, candidates_of, declaration_uses};
use std::alloc::{AllocError, Global};
use std::test::Fail;

/// The error of a test that runs out of memory before its call.
const NO_MEMORY: &str = "no memory";

/// The error of a test whose call runs out of memory.
const REFUSED: &str = "the call is refused";

/// What a name is expected to mean. Places are columns, because each module is one line.
#[derive(Clone, Copy)]
enum Expected {
    Local(u32),
    TypeVariable(u32),
    Own(&'static str),
    Prelude(&'static str),
    Unbound,
    Ambiguous,
}

use Expected::{Ambiguous, Local, Own, Prelude, TypeVariable, Unbound};

/// A module named `A`, with the column and the meaning of each name in its declarations.
struct Row {
    source: &'static [u8],
    uses: &'static [(u32, Expected)],
}

const ROWS: [Row; 9] = [
    // An inner variable hides an outer one.
    Row {
        source: b"module A where { f x = \\x -> x }",
        uses: &[
            (18, Own("f")),
            (20, Local(20)),
            (25, Local(25)),
            (30, Local(25)),
        ],
    },
    // A `where` scopes over its guards.
    Row {
        source: b"module A where { f x | x = 1 where { x = f } }",
        uses: &[
            (18, Own("f")),
            (20, Local(20)),
            (24, Local(38)),
            (38, Local(38)),
            (42, Own("f")),
        ],
    },
    // The variable of an alternative isn't bound in what is matched.
    Row {
        source: b"module A where { f x = case x of { x -> x } }",
        uses: &[
            (18, Own("f")),
            (20, Local(20)),
            (29, Local(20)),
            (36, Local(36)),
            (41, Local(36)),
        ],
    },
    // A local function is bound at its first clause.
    Row {
        source: b"module A where { f = let { g 1 = 1 ; g x = x } in g }",
        uses: &[
            (18, Own("f")),
            (28, Local(28)),
            (38, Local(28)),
            (40, Local(40)),
            (44, Local(40)),
            (51, Local(28)),
        ],
    },
    // A type variable is a parameter, or unbound.
    Row {
        source: b"module A where { type T a = a -> b }",
        uses: &[
            (23, Own("T")),
            (25, TypeVariable(25)),
            (29, TypeVariable(25)),
            (34, Unbound),
        ],
    },
    // A signature has its own type variables, and is for a variable of its list.
    Row {
        source: b"module A where { f :: a -> a ; f x = y }",
        uses: &[
            (18, Own("f")),
            (23, TypeVariable(23)),
            (28, TypeVariable(23)),
            (32, Own("f")),
            (34, Local(34)),
            (38, Unbound),
        ],
    },
    Row {
        source: b"module A where { f x = let { x :: a ; y = x } in y }",
        uses: &[
            (18, Own("f")),
            (20, Local(20)),
            (30, Unbound),
            (35, TypeVariable(35)),
            (39, Local(39)),
            (43, Local(20)),
            (50, Local(39)),
        ],
    },
    // A name of this module and of Prelude is ambiguous, and what declares it isn't.
    Row {
        source: b"module A where { not x = not (A.not x) ; id = A.id }",
        uses: &[
            (18, Own("not")),
            (22, Local(22)),
            (26, Ambiguous),
            (31, Own("not")),
            (37, Local(22)),
            (42, Own("id")),
            (47, Own("id")),
        ],
    },
    // Special constructors are syntax.
    Row {
        source: b"module A where { data T = C T ; f (C x) = (True, x : [], ()) }",
        uses: &[
            (23, Own("T")),
            (27, Own("C")),
            (29, Own("T")),
            (33, Own("f")),
            (36, Own("C")),
            (38, Local(38)),
            (44, Prelude("True")),
            (50, Local(38)),
        ],
    },
];

/// Returns the only module of a source.
fn module_of(alloc: Global, source: &[u8]) -> Result<Module, Fail> {
    let tokens = match lex(alloc, source) {
        Ok(tokens) => tokens,
        Err(LexFault::Memory) => return Err(Fail::from(NO_MEMORY)),
        Err(_) => return Err(Fail::from("the text is refused")),
    };
    match parse(alloc, source, &tokens) {
        Ok(modules) => only(modules),
        Err(ParseFault::Memory) => Err(Fail::from(NO_MEMORY)),
        Err(ParseFault::Syntax(_)) => Err(Fail::from("syntax is refused")),
    }
}

/// Returns the only one of some modules.
fn only(modules: Vec<Module>) -> Result<Module, Fail> {
    let mut modules = modules;
    let Some(module) = modules.pop() else {
        return Err(Fail::from("no module"));
    };
    Ok(module)
}

/// Returns whether a name means what is expected.
fn is_expected(meaning: &Meaning<'_>, expected: Expected) -> bool {
    match (meaning, expected) {
        (Meaning::Local(place), Local(column)) => place.column == column,
        (Meaning::TypeVariable(place), TypeVariable(column)) => place.column == column,
        (Meaning::Entity(entity), Own(name)) => entity.module() == "A" && entity.name() == name,
        (Meaning::Entity(entity), Prelude(name)) => {
            entity.module() == "Prelude" && entity.name() == name
        }
        (Meaning::Unbound, Unbound) => true,
        (Meaning::Ambiguous, Ambiguous) => true,
        _ => false,
    }
}

/// Returns whether the uses are the expected ones, in order.
fn are_expected(uses: &[Use<'_>], expected: &[(u32, Expected)]) -> bool {
    if uses.len() != expected.len() {
        return false;
    }
    for (number, one) in uses.iter().enumerate() {
        let Some((column, meaning)) = expected.get(number) else {
            return false;
        };
        let (column, meaning) = (*column, *meaning);
        if one.name().place.column != column || !is_expected(one.meaning(), meaning) {
            return false;
        }
    }
    true
}

/// Returns the scope of a module without imports.
#[tactic(auto, using(crate::proofs::Alone::one_apart))]
fn scope_alone<'a>(
    alloc: Global,
    module: &'a Module,
    prelude: &'a Interface,
) -> Result<Scope<'a>, AllocError> {
    Ok(scope_of(alloc, module, prelude, &[])?)
}

/// Returns whether the uses in a module without imports are the expected ones.
fn has_uses(
    alloc: Global,
    prelude: &SharedPrelude,
    module: &Module,
    expected: &[(u32, Expected)],
) -> Result<bool, Fail> {
    let scope = match scope_alone(alloc, module, prelude.interface()) {
        Ok(scope) => scope,
        Err(AllocError) => return Err(Fail::from(NO_MEMORY)),
    };
    match declaration_uses(alloc, module, &scope) {
        Ok(uses) => Ok(are_expected(&uses, expected)),
        Err(AllocError) => Err(Fail::from(REFUSED)),
    }
}

#[test]
fn declaration_uses_alone(rt: HostRuntime) -> Result<(), Fail> {
    let prelude = match SharedPrelude::new(rt.alloc()) {
        Ok(prelude) => prelude,
        Err(AllocError) => return Err(Fail::from(NO_MEMORY)),
    };
    for row in &ROWS {
        let module = module_of(rt.alloc(), row.source)?;
        assert!(rt; has_uses(rt.alloc(), &prelude, &module, row.uses)?);
    }
    Ok(())
}

/// Returns whether these are the `not` of this module and that of Prelude.
fn are_both(entities: &[EntityRef<'_>]) -> bool {
    match entities {
        [own, imported] => {
            own.module() == "A"
                && own.name() == "not"
                && imported.module() == "Prelude"
                && imported.name() == "not"
        }
        _ => false,
    }
}

/// Returns whether a name has these two entities in a scope.
fn has_both(alloc: Global, scope: &Scope<'_>, name: &Name) -> Result<bool, Fail> {
    match candidates_of(alloc, scope, Namespace::Values, name) {
        Ok(entities) => Ok(are_both(&entities)),
        Err(AllocError) => Err(Fail::from(REFUSED)),
    }
}

/// Returns whether the first ambiguous name of a module without imports has these two entities.
fn has_candidates(alloc: Global, prelude: &SharedPrelude, module: &Module) -> Result<bool, Fail> {
    let scope = match scope_alone(alloc, module, prelude.interface()) {
        Ok(scope) => scope,
        Err(AllocError) => return Err(Fail::from(NO_MEMORY)),
    };
    let uses = match declaration_uses(alloc, module, &scope) {
        Ok(uses) => uses,
        Err(AllocError) => return Err(Fail::from(NO_MEMORY)),
    };
    for one in &uses {
        if is_expected(one.meaning(), Ambiguous) {
            return has_both(alloc, &scope, one.name());
        }
    }
    Ok(false)
}

#[test]
fn candidates_of_alone(rt: HostRuntime) -> Result<(), Fail> {
    let prelude = match SharedPrelude::new(rt.alloc()) {
        Ok(prelude) => prelude,
        Err(AllocError) => return Err(Fail::from(NO_MEMORY)),
    };
    let module = module_of(rt.alloc(), b"module A where { not x = not x }")?;
    assert!(rt; has_candidates(rt.alloc(), &prelude, &module)?);
    Ok(())
}
