//! What names mean after a rename.
ghost use Rattle.std.specs.Prelude.{◌≡◌, IsTrue};
ghost use Rattle.hm_names.specs.Entities.{named};
ghost use Rattle.hm_uses.specs.Uses.{an_entity};
ghost use Rattle.hm_uses_declarations.specs.Senses.{sense_of};
ghost use Rattle.hm_uses_renames.specs.Renames.{IsRenamedTo, IsStill};
ghost use Rattle.hm_uses_renames.specs.Senses.{IsSomeLocal, IsSomeTypeVariable};

use hm_uses_declarations::Meaning;
use hm_uses_references::is_meaning;

/// Returns whether a meaning is a local variable.
fn is_some_local(meaning: &Meaning<'_>) -> bool
    ensures { IsTrue result → IsSomeLocal (sense_of meaning.now) }
{
    match meaning {
        Meaning::Local(_) => true,
        _ => false,
    }
}

/// Returns whether a meaning is a type variable.
fn is_some_type_variable(meaning: &Meaning<'_>) -> bool
    ensures { IsTrue result → IsSomeTypeVariable (sense_of meaning.now) }
{
    match meaning {
        Meaning::TypeVariable(_) => true,
        _ => false,
    }
}

/// Returns whether a meaning is the entity with this name in this module.
fn is_entity_named(meaning: &Meaning<'_>, module: &str, name: &str) -> bool
    ensures { IsTrue result → sense_of meaning.now ≡ an_entity (named «module».now name.now) }
{
    match meaning {
        Meaning::Entity(own) => own.module() == module && own.name() == name,
        _ => false,
    }
}

/// Returns whether a name that isn't renamed means what it meant.
pub(crate) fn is_still(before: &Meaning<'_>, after: &Meaning<'_>) -> bool
    ensures { IsTrue result → IsStill (sense_of before.now) (sense_of after.now) }
{
    match before {
        Meaning::Local(_) => is_some_local(after),
        Meaning::TypeVariable(_) => is_some_type_variable(after),
        Meaning::Entity(_) => is_meaning(after, before),
        Meaning::Module(_) => is_meaning(after, before),
        Meaning::Prefix(_) => is_meaning(after, before),
        Meaning::Unbound => is_meaning(after, before),
        Meaning::Ambiguous => is_meaning(after, before),
    }
}

/// Returns whether a renamed name means what it meant, with its new name.
pub(crate) fn is_renamed_to(name: &str, before: &Meaning<'_>, after: &Meaning<'_>) -> bool
    ensures { IsTrue result → IsRenamedTo name.now (sense_of before.now) (sense_of after.now) }
{
    match before {
        Meaning::Local(_) => is_some_local(after),
        Meaning::TypeVariable(_) => is_some_type_variable(after),
        Meaning::Entity(entity) => is_entity_named(after, entity.module(), name),
        Meaning::Module(_) => false,
        Meaning::Prefix(_) => false,
        Meaning::Unbound => false,
        Meaning::Ambiguous => false,
    }
}
