//! The place where a module declares an entity.
ghost use Rattle.std.specs.Prelude.{◌≡◌, ◌↔◌, All, IfNone, IfSome, IsTrue};
ghost use Rattle.hm_uses_places.specs.Declarations.{Declares, IsDeclaredAt};
ghost use Rattle.hm_uses.specs.Uses.{an_entity};
ghost use Rattle.hm_uses_declarations.specs.Senses.{sense_of};

use hm_lex::Place;
use hm_scope_tables::EntityRef;
use hm_uses::NameKind;
use hm_uses_declarations::{Meaning, Use};

/// Returns whether a name means an entity.
fn means(meaning: &Meaning<'_>, entity: &EntityRef<'_>) -> bool
    ensures { IsTrue result ↔ (sense_of meaning.now ≡ an_entity entity.now) }
{
    match meaning {
        Meaning::Entity(own) => own.is_same(entity),
        _ => false,
    }
}

/// Returns whether a use declares an entity under a name of this kind.
fn declares(one: &Use<'_>, kind: NameKind, entity: &EntityRef<'_>) -> bool
    ensures { IsTrue result ↔ Declares kind entity.now one.now }
{
    if !one.binds() {
        return false;
    }
    if one.kind() != kind {
        return false;
    }
    means(one.meaning(), entity)
}

/// Returns the place of the first of these uses that declares the entity under a name of this kind. A function is declared at its first clause.
pub fn declared_at(uses: &[Use<'_>], kind: NameKind, entity: &EntityRef<'_>) -> Option<Place>
    ensures some { IfSome result (λ place. IsDeclaredAt kind entity.now uses.now place) }
    ensures none { IfNone result (All (λ u. ¬ (Declares kind entity.now u)) uses.now) }
{
    'uses: for one in uses {
        if declares(one, kind, entity) {
            return Some(one.name().place);
        }
    }
    None
}
