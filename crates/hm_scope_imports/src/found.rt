//! The interface of an imported module, among those of all imports.

ghost use Rattle.std.specs.Prelude.{◌≡◌, ◌<◌, IfSome, IfNone, Contains, length};
ghost use Rattle.std.specs.Borrow.{Bor};
ghost use Rattle.hm_types.specs.Interfaces.{Exports as Interface};
ghost use Rattle.hm_scope_imports.specs.Apart.{IsNamedAt, AreNotNamed};

use hm_types::Interface;

/// Returns the place of an interface with this name, from this place on.
fn place_from(interfaces: &[&Interface], from: usize, name: &str) -> Option<usize>
    ensures within { IfSome result (λ place. place < length interfaces.now) }
    ensures named { IfSome result (λ place. IsNamedAt interfaces.now place name.now) }
    ensures none { IfNone result (AreNotNamed interfaces.now from (length interfaces.now) name.now) }
{
    for place in from..interfaces.len() {
        let interface = interfaces[place];
        if interface.name() == name {
            return Some(place);
        }
    }
    None
}

// Why: docs/DECISIONS.md, "Interfaces by place".
/// Returns the place of an interface with this name. The interface at `from` is compared first, then those after it.
pub(crate) fn place_of(interfaces: &[&Interface], from: usize, name: &str) -> Option<usize>
    ensures within { IfSome result (λ place. place < length interfaces.now) }
    ensures named { IfSome result (λ place. IsNamedAt interfaces.now place name.now) }
    ensures none { IfNone result ((f : Bor Interface) → Contains interfaces.now f → ¬ (f.now.name ≡ name.now)) }
{
    match place_from(interfaces, from, name) {
        Some(place) => Some(place),
        None => place_from(interfaces, 0, name),
    }
}
