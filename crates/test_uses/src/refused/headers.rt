//! The uses of whole modules, with those of their headers. Its tests end as those of the module around do.
use crate::refused::{NO_MEMORY, REFUSED, module_of};
use hm_syntax::Module;
use hm_types::Interface;
use hm_types_prelude::SharedPrelude;
use hm_uses::NameKind;
use hm_uses_declarations::{Meaning, Use};
use hm_uses_header::uses_of;
use std::alloc::{AllocError, Global};
use std::test::Fail;

/// What a name is expected to mean.
#[derive(Clone, Copy)]
enum Expected {
    Entity(&'static str, &'static str),
    Module(&'static str),
    Prefix(&'static str),
    Unbound,
}

use Expected::{Entity, Module as AModule, Prefix, Unbound};

/// A module that imports Prelude alone, with the column, the kind and the meaning of each name.
struct Row {
    source: &'static [u8],
    uses: &'static [(u32, NameKind, Expected)],
}

const ROWS: [Row; 4] = [
    // An export list: variables, types with their constructors, and modules.
    Row {
        source: b"module A (x, T(C, D), module A, module B, Bool(True), A.y) where { data T = C }",
        uses: &[
            (8, NameKind::ModuleName, AModule("A")),
            (11, NameKind::Variable, Unbound),
            (14, NameKind::TypeConstructor, Entity("A", "T")),
            (16, NameKind::Constructor, Entity("A", "C")),
            (19, NameKind::Constructor, Unbound),
            (30, NameKind::ModuleName, Prefix("A")),
            (40, NameKind::ModuleName, Unbound),
            (43, NameKind::TypeConstructor, Entity("Prelude", "Bool")),
            (48, NameKind::Constructor, Entity("Prelude", "True")),
            (55, NameKind::Variable, Unbound),
            (73, NameKind::TypeConstructor, Entity("A", "T")),
            (77, NameKind::Constructor, Entity("A", "C")),
        ],
    },
    // The list of an import: what the imported module exports, and constructors of their type alone.
    Row {
        source: b"module A where { import Prelude as P (not, Bool(True, Just), Either(..), x) ; not = P.not }",
        uses: &[
            (8, NameKind::ModuleName, AModule("A")),
            (25, NameKind::ModuleName, AModule("Prelude")),
            (36, NameKind::ModuleName, Prefix("P")),
            (39, NameKind::Variable, Entity("Prelude", "not")),
            (44, NameKind::TypeConstructor, Entity("Prelude", "Bool")),
            (49, NameKind::Constructor, Entity("Prelude", "True")),
            (55, NameKind::Constructor, Unbound),
            (62, NameKind::TypeConstructor, Entity("Prelude", "Either")),
            (74, NameKind::Variable, Unbound),
            (79, NameKind::Variable, Entity("A", "not")),
            (85, NameKind::Variable, Entity("Prelude", "not")),
        ],
    },
    // After `hiding`, a name without a list is that of a type and of a constructor.
    Row {
        source: b"module A where { import Prelude hiding (Just, Maybe, Maybe(Nothing), not) ; x = not }",
        uses: &[
            (8, NameKind::ModuleName, AModule("A")),
            (25, NameKind::ModuleName, AModule("Prelude")),
            (41, NameKind::TypeConstructor, Unbound),
            (41, NameKind::Constructor, Entity("Prelude", "Just")),
            (47, NameKind::TypeConstructor, Entity("Prelude", "Maybe")),
            (47, NameKind::Constructor, Unbound),
            (54, NameKind::TypeConstructor, Entity("Prelude", "Maybe")),
            (60, NameKind::Constructor, Entity("Prelude", "Nothing")),
            (70, NameKind::Variable, Entity("Prelude", "not")),
            (77, NameKind::Variable, Entity("A", "x")),
            (81, NameKind::Variable, Unbound),
        ],
    },
    // A constructor of an export list may be in scope with a qualifier alone.
    Row {
        source: b"module A (P.Bool(True)) where { import qualified Prelude as P }",
        uses: &[
            (8, NameKind::ModuleName, AModule("A")),
            (11, NameKind::TypeConstructor, Entity("Prelude", "Bool")),
            (18, NameKind::Constructor, Entity("Prelude", "True")),
            (50, NameKind::ModuleName, AModule("Prelude")),
            (61, NameKind::ModuleName, Prefix("P")),
        ],
    },
];

/// Returns whether a name means what is expected.
fn is_expected(meaning: &Meaning<'_>, expected: Expected) -> bool {
    match (meaning, expected) {
        (Meaning::Entity(entity), Entity(module, name)) => {
            entity.module() == module && entity.name() == name
        }
        (Meaning::Module(found), AModule(name)) => found.as_str() == name,
        (Meaning::Prefix(found), Prefix(name)) => found.as_str() == name,
        (Meaning::Unbound, Unbound) => true,
        _ => false,
    }
}

/// Returns whether the uses are the expected ones, in order.
fn are_expected(uses: &[Use<'_>], expected: &[(u32, NameKind, Expected)]) -> bool {
    if uses.len() != expected.len() {
        return false;
    }
    for (number, one) in uses.iter().enumerate() {
        let Some((column, kind, meaning)) = expected.get(number) else {
            return false;
        };
        let (column, kind, meaning) = (*column, *kind, *meaning);
        if one.name().place.column != column || one.kind() != kind {
            return false;
        }
        if !is_expected(one.meaning(), meaning) {
            return false;
        }
    }
    true
}

/// Returns the uses of a module that imports Prelude alone.
#[tactic(auto, using(crate::proofs::Alone::one_apart))]
fn uses_alone<'a>(
    alloc: Global,
    module: &'a Module,
    prelude: &'a Interface,
) -> Result<Vec<Use<'a>>, AllocError> {
    Ok(uses_of(alloc, module, prelude, &[])?)
}

/// Returns whether the uses of a module are the expected ones.
fn has_uses(
    alloc: Global,
    prelude: &SharedPrelude,
    module: &Module,
    expected: &[(u32, NameKind, Expected)],
) -> Result<bool, Fail> {
    match uses_alone(alloc, module, prelude.interface()) {
        Ok(uses) => Ok(are_expected(&uses, expected)),
        Err(AllocError) => Err(Fail::from(REFUSED)),
    }
}

#[test]
fn uses_of_alone(rt: HostRuntime) -> Result<(), Fail> {
    let prelude = match SharedPrelude::new(rt.alloc()) {
        Ok(prelude) => prelude,
        Err(AllocError) => return Err(Fail::from(NO_MEMORY)),
    };
    for row in &ROWS {
        let module = module_of(rt.alloc(), row.source)?;
        assert!(rt; has_uses(rt.alloc(), &prelude, &module, row.uses)?);
    }
    Ok(())
}
