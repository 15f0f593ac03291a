//! The names of modules that an export list can name (Report, section 5.2).

ghost use Rattle.std.specs.Prelude.{◌≡◌, ◌↔◌, ℕ, List, IfOk, OnOk, Contains};
ghost use Rattle.hm_syntax.specs.declared.ast.Import.{Import};
ghost use Rattle.hm_names.specs.Bindings.{Adds};
ghost use Rattle.hm_names.specs.Exports.{IsModuleName};
ghost use Rattle.hm_names.specs.Scope.{known_as};

use crate::imports::{import_name, names_prelude};
use hm_scope_tables::TextSet;
use hm_syntax::{Import, Module};
use std::alloc::{AllocError, Global};

/// Adds a name.
fn add_name<'a>(names: &mut TextSet<'a>, name: &'a str) -> Result<(), AllocError>
    ensures { OnOk result (Adds names.old names.new (λ x. name.now ≡ x)) }
{
    names.insert(name)?;
    Ok(())
}

/// Adds the names under which modules are imported.
fn add_imports<'a>(names: &mut TextSet<'a>, imports: &'a [Import]) -> Result<(), AllocError>
    ensures { OnOk result (Adds names.old names.new (λ x. (i : Import) × (Contains imports.now i × (known_as i ≡ x)))) }
{
    for import in imports {
        add_name(names, import_name(import))?;
    }
    Ok(())
}

/// Returns the module's name, and the names under which it imports modules. The implicit import of Prelude counts.
pub fn module_names<'a>(alloc: Global, program: &'a Module) -> Result<TextSet<'a>, AllocError>
    ensures { IfOk result (λ names. (x : List ℕ) → Contains names x ↔ IsModuleName program.now x) }
{
    let imports = program.header.imports.as_slice();
    let mut names = TextSet::new(alloc);
    add_name(&mut names, program.header.name.as_str())?;
    add_imports(&mut names, imports)?;
    if names_prelude(imports) {
        return Ok(names);
    }
    add_name(&mut names, "Prelude")?;
    Ok(names)
}
