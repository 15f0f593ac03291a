//! The modules whose interfaces a module needs (Haskell 98 Report, section 5.3).

ghost use Rattle.std.specs.Prelude.{◌≡◌, ◌↔◌, IfOk, IsTrue, map};
ghost use Rattle.std.specs.Arc.{arc_value};
ghost use Rattle.hm_names.specs.Imports.{AreImportsOf, imported};

use hm_scope_tables::TextSet;
use hm_syntax::Module;
use hm_types::Interface;
use std::alloc::{AllocError, Global};
use std::sync::Arc;

/// Returns the names of the imported modules except Prelude, each once, in order of first import.
pub fn imported_names(alloc: Global, module: &Module) -> Result<Vec<&str>, AllocError>
    ensures { IfOk result (λ names. map (λ n. n.now) names.items ≡ imported «module».now) }
{
    let mut seen = TextSet::new(alloc);
    seen.insert("Prelude")?;
    let mut names = Vec::new(alloc);
    for import in module.header.imports.as_slice() {
        let name = import.name.as_str();
        if seen.insert(name)? {
            names.push(name)?;
        }
    }
    Ok(names)
}

/// Returns whether the interfaces have these names, in order.
fn have_names(interfaces: &[Arc<Interface>], names: &[&str]) -> bool
    ensures { IsTrue result ↔ (map (λ f. f.name) (map arc_value interfaces.now) ≡ map (λ n. n.now) names.now) }
{
    if interfaces.len() != names.len() {
        return false;
    }
    for i in 0..names.len() {
        let name = names[i];
        let interface = &interfaces[i];
        if interface.name() != name {
            return false;
        }
    }
    true
}

/// Returns whether these are the interfaces that a module needs, in order of first import.
pub fn are_imports_of(
    alloc: Global,
    module: &Module,
    interfaces: &[Arc<Interface>],
) -> Result<bool, AllocError>
    ensures { IfOk result (λ b. IsTrue b ↔ AreImportsOf «module».now (map arc_value interfaces.now)) }
{
    let names = imported_names(alloc, module)?;
    Ok(have_names(interfaces, &names))
}
