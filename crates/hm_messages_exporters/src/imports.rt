//! Finds an import that doesn't bring a name into scope, though its module exports the name.
ghost use Rattle.std.specs.Prelude.{◌≡◌, Contains, IfSome, map};
ghost use Rattle.hm_messages_exporters.specs.LeftOut.{CanBring};

use crate::exports::is_exported;
use crate::looks::Looks;
use crate::missing::Missing;
use hm_syntax::{Import, Module};
use hm_types::Interface;

/// Returns the first import of a module with this name.
fn import_named<'a>(imports: &'a [Import], name: &str) -> Option<&'a Import>
    ensures { IfSome result (λ i. Contains imports.now i.now × (i.now.name.text ≡ name.now)) }
{
    'imports: for import in imports {
        if import.name.as_str() == name {
            return Some(import);
        }
    }
    None
}

/// Returns an import of a module that exports a name which isn't in scope, if there is one. The interfaces are those of Prelude and of the imports.
pub fn left_out_by<'a>(
    program: &'a Module,
    interfaces: &[&Interface],
    missing: Missing<'_>,
    looks: &mut Looks,
) -> Option<&'a Import>
    ensures { IfSome result (λ i. CanBring program.now (map (λ f. f.now) interfaces.now) missing.entry.space missing.entry.name.now i.now) }
{
    let imports = program.header.imports.as_slice();
    'interfaces: for interface in interfaces {
        if !looks.take(1) {
            return None;
        }
        if !is_exported(interface, missing.space, missing.name) {
            continue;
        }
        match import_named(imports, interface.name()) {
            Some(import) => return Some(import),
            None => {}
        }
    }
    None
}
