//! The schemes that interfaces have for names.
ghost use Rattle.std.specs.Prelude.{◌≡◌, Contains, IfNone, IfSome, map};
ghost use Rattle.hm_types.specs.Interfaces.{AreOrdered};
ghost use Rattle.hm_types.specs.Schemes.{TypeScheme};
ghost use Rattle.hm_scope_typed_names.specs.Typed.{HasScheme, IsSchemeIn};

use hm_names::Namespace;
use hm_scope_tables::{Binding, EntityRef, Named, entry_named};
use hm_types::{Interface, Scheme};

/// Returns the entry with the name and the entity of a binding. The entries must be in the order of their names.
fn entry_of<'a, E: Named>(entries: &'a [E], binding: &Binding<'_>) -> Option<&'a E>
    requires { AreOrdered (map E.name_of entries.now) }
    ensures some { IfSome result (λ e. Contains entries.now e.now × ((E.name_of e.now ≡ binding.now.text) × (E.entity_of e.now ≡ binding.now.entity))) }
    ensures none { IfNone result ((e : E) → Contains entries.now e → E.name_of e ≡ binding.now.text → ¬ (E.entity_of e ≡ binding.now.entity)) }
{
    let Some(entry) = entry_named(entries, binding.text()) else {
        return None;
    };
    if !EntityRef::of(entry.entity()).is_same(binding.entity()) {
        return None;
    }
    Some(entry)
}

/// Returns the scheme that an interface has for the entity of a binding under its name.
fn scheme_in<'a>(interface: &'a Interface, binding: &Binding<'_>) -> Option<&'a Scheme>
    ensures some { IfSome result (λ s. HasScheme interface.now binding.now s.now) }
    ensures none { IfNone result ((s : TypeScheme) → ¬ (HasScheme interface.now binding.now s)) }
{
    match binding.space() {
        Namespace::Types => None,
        Namespace::Constructors => match entry_of(interface.constructors(), binding) {
            Some(entry) => Some(&entry.scheme),
            None => None,
        },
        Namespace::Values => match entry_of(interface.values(), binding) {
            Some(entry) => Some(&entry.scheme),
            None => None,
        },
    }
}

/// Returns the scheme that the first interface with one has for the entity of a binding under its name.
pub(crate) fn scheme_among<'a>(
    interfaces: &[&'a Interface],
    binding: &Binding<'_>,
) -> Option<&'a Scheme>
    ensures some { IfSome result (λ s. IsSchemeIn (map (λ f. f.now) interfaces.now) binding.now s.now) }
    ensures none { IfNone result ((s : TypeScheme) → ¬ (IsSchemeIn (map (λ f. f.now) interfaces.now) binding.now s)) }
{
    'interfaces: for interface in interfaces {
        if let Some(scheme) = scheme_in(interface, binding) {
            return Some(scheme);
        }
    }
    None
}
