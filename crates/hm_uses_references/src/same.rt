//! Whether two names mean the same.
ghost use Rattle.std.specs.Prelude.{◌≡◌, ◌↔◌, IsTrue, map};
ghost use Rattle.std.specs.List.{Any};
ghost use Rattle.hm_uses.specs.Uses.{a_module, a_prefix, ambiguous, an_entity, local_variable, type_variable, unbound};
ghost use Rattle.hm_uses_declarations.specs.Senses.{sense_of};
ghost use Rattle.hm_uses_references.specs.SetNames.{IsSame, IsShared};

use crate::set_uses::SetUse;
use hm_lex::Place;
use hm_scope_tables::EntityRef;
use hm_types::Text;
use hm_uses_declarations::Meaning;

/// Returns whether two places are one.
fn is_place(one: Place, other: Place) -> bool
    ensures { IsTrue result ↔ (one ≡ other) }
{
    one.line == other.line && one.column == other.column
}

/// Returns whether a name means the local variable that is bound at a place.
fn is_local(meaning: &Meaning<'_>, place: Place) -> bool
    ensures { IsTrue result ↔ (sense_of meaning.now ≡ local_variable place.line place.column) }
{
    match meaning {
        Meaning::Local(own) => is_place(*own, place),
        _ => false,
    }
}

/// Returns whether a name means the type variable that is bound at a place.
fn is_type_variable(meaning: &Meaning<'_>, place: Place) -> bool
    ensures { IsTrue result ↔ (sense_of meaning.now ≡ type_variable place.line place.column) }
{
    match meaning {
        Meaning::TypeVariable(own) => is_place(*own, place),
        _ => false,
    }
}

/// Returns whether a name means an entity.
fn is_entity(meaning: &Meaning<'_>, entity: &EntityRef<'_>) -> bool
    ensures { IsTrue result ↔ (sense_of meaning.now ≡ an_entity entity.now) }
{
    match meaning {
        Meaning::Entity(own) => own.is_same(entity),
        _ => false,
    }
}

/// Returns whether a name means the module with this name.
fn is_module(meaning: &Meaning<'_>, name: &Text) -> bool
    ensures { IsTrue result ↔ (sense_of meaning.now ≡ a_module name.now) }
{
    match meaning {
        Meaning::Module(own) => own.is_same(name),
        _ => false,
    }
}

/// Returns whether a name means this prefix.
fn is_prefix(meaning: &Meaning<'_>, name: &Text) -> bool
    ensures { IsTrue result ↔ (sense_of meaning.now ≡ a_prefix name.now) }
{
    match meaning {
        Meaning::Prefix(own) => own.is_same(name),
        _ => false,
    }
}

/// Returns whether a name means nothing.
fn is_unbound(meaning: &Meaning<'_>) -> bool
    ensures { IsTrue result ↔ (sense_of meaning.now ≡ unbound) }
{
    match meaning {
        Meaning::Unbound => true,
        _ => false,
    }
}

/// Returns whether a name means two or more entities.
fn is_ambiguous(meaning: &Meaning<'_>) -> bool
    ensures { IsTrue result ↔ (sense_of meaning.now ≡ ambiguous) }
{
    match meaning {
        Meaning::Ambiguous => true,
        _ => false,
    }
}

/// Returns whether names of two modules can have this meaning.
fn is_shared(one: usize, other: usize, meaning: &Meaning<'_>) -> bool
    ensures { IsTrue result ↔ IsShared one other (sense_of meaning.now) }
{
    match meaning {
        Meaning::Local(_) => one == other,
        Meaning::TypeVariable(_) => one == other,
        Meaning::Entity(_) => true,
        Meaning::Module(_) => true,
        Meaning::Prefix(_) => one == other,
        Meaning::Unbound => false,
        Meaning::Ambiguous => false,
    }
}

/// Returns whether two meanings are one.
pub fn is_meaning(one: &Meaning<'_>, other: &Meaning<'_>) -> bool
    ensures { IsTrue result ↔ (sense_of one.now ≡ sense_of other.now) }
{
    match other {
        Meaning::Local(place) => is_local(one, *place),
        Meaning::TypeVariable(place) => is_type_variable(one, *place),
        Meaning::Entity(entity) => is_entity(one, entity),
        Meaning::Module(name) => is_module(one, *name),
        Meaning::Prefix(name) => is_prefix(one, *name),
        Meaning::Unbound => is_unbound(one),
        Meaning::Ambiguous => is_ambiguous(one),
    }
}

/// Returns whether two names mean the same. One that isn't bound, or is ambiguous, means the same as no other.
pub fn is_same(one: &SetUse<'_>, other: &SetUse<'_>) -> bool
    ensures { IsTrue result ↔ IsSame one.now other.now }
{
    if one.used.kind() != other.used.kind() {
        return false;
    }
    if !is_meaning(one.used.meaning(), other.used.meaning()) {
        return false;
    }
    is_shared(one.number, other.number, one.used.meaning())
}

/// Returns whether a name means the same as one of these.
pub(crate) fn is_same_as_any(names: &[&SetUse<'_>], other: &SetUse<'_>) -> bool
    ensures { IsTrue result ↔ Any (λ n. IsSame n other.now) (map (λ n. n.now) names.now) }
{
    'names: for one in names {
        if is_same(*one, other) {
            return true;
        }
    }
    false
}
