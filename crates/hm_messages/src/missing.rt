//! The imports of a set that name no module.
ghost use Rattle.std.specs.Prelude.{◌≡◌, ◌∷◌, ◌++◌, List, ℕ, IfOk, OnOk, false, filter, map, option_map, true};
ghost use Rattle.hm_names.specs.Scope.{prelude_name};
ghost use Rattle.hm_names.specs.Texts.{is_text_among};
ghost use Rattle.hm_run_sources.specs.Origins.{AreLocated};
ghost use Rattle.hm_messages.specs.Missing.{HasNearModule, HasNoImport, import_of, missing_imports, module_names, names_none, set_import, set_imports};

use hm_lex::Place;
use hm_messages_details::is_near;
use hm_run_sources::Located;
use hm_scope_tables::TextSet;
use std::alloc::{AllocError, Global};

/// An import that names no module of its set.
#[derive(Clone, Copy)]
pub(crate) struct MissingImport<'a> {
    /// The number of the source that it is in, counted from 0.
    pub source: usize,
    /// The place of the name in that source.
    pub place: Place,
    /// The name that it imports.
    pub name: &'a str,
}

/// The most imports of a set for which a near name is searched.
const MOST_NEAR: usize = 16;

/// Returns whether a module has an import of this name.
fn has_import(here: &Located, name: &str) -> bool
    ensures has { result ≡ true → ¬ (HasNoImport here.entry.now name.now) }
    ensures hasnt { result ≡ false → HasNoImport here.entry.now name.now }
{
    'imports: for import in here.header.imports.as_slice() {
        if import.name.as_str() == name {
            return true;
        }
    }
    false
}

// Why: docs/DECISIONS.md, "Near names of modules".
/// Returns the name of Prelude, or of a module without an import of this name, that is near to it.
fn near_module<'a>(
    alloc: Global,
    located: &'a [Located],
    name: &str,
) -> Result<Option<&'a str>, AllocError>
    ensures { IfOk result (λ near. (sources : List (List ℕ)) → AreLocated sources located.entry.now → HasNearModule sources name.now (option_map (λ y. y.now) near)) }
{
    if is_near(alloc, name, "Prelude")? {
        return Ok(Some("Prelude"));
    }
    'modules: for here in located {
        let other = here.header.name.as_str();
        if !is_near(alloc, name, other)? {
            continue;
        }
        if !has_import(here, name) {
            return Ok(Some(other));
        }
    }
    Ok(None)
}

/// Returns the near name for the import with this number among those that name no module. None is searched for a late one.
pub(crate) fn near_for<'a>(
    alloc: Global,
    located: &'a [Located],
    number: usize,
    name: &str,
) -> Result<Option<&'a str>, AllocError>
    ensures { IfOk result (λ near. (sources : List (List ℕ)) → AreLocated sources located.entry.now → HasNearModule sources name.now (option_map (λ y. y.now) near)) }
{
    if number >= MOST_NEAR {
        return Ok(None);
    }
    Ok(near_module(alloc, located, name)?)
}

/// Returns the names that an import may have: Prelude's, and those of these modules.
fn known_names<'a>(alloc: Global, located: &'a [Located]) -> Result<TextSet<'a>, AllocError>
    ensures { IfOk result (λ names. (x : List ℕ) → is_text_among x names ≡ is_text_among x (prelude_name ∷ module_names located.entry.now)) }
{
    let mut names = TextSet::new(alloc);
    names.insert("Prelude")?;
    for here in located {
        names.insert(here.header.name.as_str())?;
    }
    Ok(names)
}

/// Appends the imports of a module that have none of these names.
fn add_missing<'a>(
    found: &mut Vec<MissingImport<'a>>,
    here: &'a Located,
    names: &TextSet<'_>,
) -> Result<(), AllocError>
    ensures { OnOk result (map import_of found.new.items ≡ map import_of found.old.items
        ++ filter (names_none names.now) (map (set_import here.entry.now.source) here.entry.now.header.imports)) }
{
    for import in here.header.imports.as_slice() {
        if names.contains(import.name.as_str()) {
            continue;
        }
        found.push(MissingImport {
            source: here.source,
            place: import.name.place,
            name: import.name.as_str(),
        })?;
    }
    Ok(())
}

/// Returns the imports of these modules that name neither Prelude nor one of them, in order.
pub(crate) fn missing_imports<'a>(
    alloc: Global,
    located: &'a [Located],
) -> Result<Vec<MissingImport<'a>>, AllocError>
    ensures { IfOk result (λ found. map import_of found.items ≡ missing_imports located.entry.now) }
{
    let names = known_names(alloc, located)?;
    let mut found = Vec::new(alloc);
    for here in located {
        add_missing(&mut found, here, &names)?;
    }
    Ok(found)
}
