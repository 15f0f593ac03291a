//! The types of declared names.
ghost use Rattle.std.specs.Prelude.{◌≡◌, ◌++◌, All, Contains, IfNone, IfOk, IfSome, codes, string_bytes};
ghost use Rattle.hm_types.specs.declared.entries.ConstructorEntry.{ConstructorEntry as Constructor};
ghost use Rattle.hm_types.specs.declared.entries.ValueEntry.{ValueEntry as Value};
ghost use Rattle.hm_types.specs.Schemes.{TypeScheme};
ghost use Rattle.hm_uses_declarations.specs.Senses.{sense_of};
ghost use Rattle.hm_build_place_texts.specs.Facts.{declared_of};
ghost use Rattle.hm_build_places.specs.Typed.{HasNoInterface, HasScheme, IsDeclaredType, IsEntityType, IsInterfaceOf, IsTypeOf};
ghost use Rattle.hm_build_places.specs.TypesAt.{HasOwnScheme, IsOwnType};
ghost use Rattle.hm_build_places.specs.Views.{known_of};

use crate::read::{question_of, read_of};
use crate::views::{View, number_of};
use hm_build_place_texts::DeclaredType;
use hm_messages_here::scheme_here;
use hm_scope_tables::EntityRef;
use hm_types::{ConstructorEntry, Interface, Scheme, ValueEntry};
use hm_types_display::scheme_text;
use hm_uses::NameKind;
use hm_uses_declarations::Meaning;
use std::alloc::{AllocError, Global};

/// Returns the interface of the module with this name: that of Prelude, or of a good module of the set.
fn interface_of<'a>(view: &View<'a>, name: &str) -> Option<&'a Interface>
    ensures some { IfSome result (λ interface. IsInterfaceOf (known_of view.now) name.now interface.now) }
    ensures none { IfNone result (HasNoInterface (known_of view.now) name.now) }
{
    if name == "Prelude" {
        return Some(view.prelude.interface());
    }
    let number = number_of(view, name)?;
    match view.store.look(number) {
        Some(interface) => Some(interface),
        None => None,
    }
}

/// Returns the scheme of a variable, if it is among these entries.
fn value_scheme<'a>(values: &'a [ValueEntry], entity: &EntityRef<'_>) -> Option<&'a Scheme>
    ensures some { IfSome result (λ scheme. (v : Value) × (Contains values.now v × ((v.entity ≡ entity.now) × (scheme.now ≡ v.scheme)))) }
    ensures none { IfNone result (All (λ v. ¬ (v.entity ≡ entity.now)) values.now) }
{
    'values: for value in values {
        if EntityRef::of(&value.entity).is_same(entity) {
            return Some(&value.scheme);
        }
    }
    None
}

/// Returns the scheme of a constructor, if it is among these entries.
fn constructor_scheme<'a>(
    constructors: &'a [ConstructorEntry],
    entity: &EntityRef<'_>,
) -> Option<&'a Scheme>
    ensures some { IfSome result (λ scheme. (v : Constructor) × (Contains constructors.now v × ((v.entity ≡ entity.now) × (scheme.now ≡ v.scheme)))) }
    ensures none { IfNone result (All (λ v. ¬ (v.entity ≡ entity.now)) constructors.now) }
{
    'constructors: for constructor in constructors {
        if EntityRef::of(&constructor.entity).is_same(entity) {
            return Some(&constructor.scheme);
        }
    }
    None
}

/// Returns the scheme of an entity under a name of this kind, if the interface has it.
fn scheme_in<'a>(
    interface: &'a Interface,
    kind: NameKind,
    entity: &EntityRef<'_>,
) -> Option<&'a Scheme>
    ensures some { IfSome result (λ scheme. HasScheme interface.now entity.now scheme.now kind) }
    ensures none { IfNone result ((s : TypeScheme) → ¬ (HasScheme interface.now entity.now s kind)) }
{
    match kind {
        NameKind::Variable => value_scheme(interface.values(), entity),
        NameKind::Constructor => constructor_scheme(interface.constructors(), entity),
        NameKind::TypeVariable => None,
        NameKind::TypeConstructor => None,
        NameKind::ModuleName => None,
    }
}

/// Returns a name with its module.
fn qualified(alloc: Global, home: &str, name: &str) -> Result<String, AllocError>
    ensures { IfOk result (λ text. string_bytes text ≡ home.now ++ (codes "." ++ name.now)) }
{
    format!(in alloc; "{home}.{name}")
}

/// Returns the text of the scheme that an entity has in the source of its module, if one is found.
fn own_scheme(
    alloc: Global,
    view: &View<'_>,
    entity: &EntityRef<'_>,
) -> Result<Option<String>, AllocError>
    ensures { IfOk result (λ found. IfSome found (λ text. HasOwnScheme (known_of view.now) entity.now (string_bytes text))) }
{
    let Some(number) = number_of(view, entity.module()) else {
        return Ok(None);
    };
    let Some(read) = read_of(alloc, view, number)? else {
        return Ok(None);
    };
    if read.whole.hides_name(entity.name()) {
        return Ok(None);
    }
    let variable = qualified(alloc, entity.module(), entity.name())?;
    let question = question_of(view, number, &read);
    Ok(scheme_here(alloc, &question, variable.as_str())?)
}

/// Returns the type of an entity in the source of its module, or the reason why it has none.
fn own_type(
    alloc: Global,
    view: &View<'_>,
    entity: &EntityRef<'_>,
    unknown: DeclaredType,
) -> Result<DeclaredType, AllocError>
    ensures { IfOk result (λ declared. IsOwnType (known_of view.now) entity.now (declared_of unknown) (declared_of declared)) }
{
    match own_scheme(alloc, view, entity)? {
        Some(scheme) => Ok(DeclaredType::Principal(scheme)),
        None => Ok(unknown),
    }
}

/// Returns the type of an entity.
fn entity_type(
    alloc: Global,
    view: &View<'_>,
    kind: NameKind,
    entity: &EntityRef<'_>,
) -> Result<DeclaredType, AllocError>
    ensures { IfOk result (λ declared. IsTypeOf (known_of view.now) kind entity.now (declared_of declared)) }
{
    let Some(interface) = interface_of(view, entity.module()) else {
        let unknown = DeclaredType::NotGood(String::from_str(alloc, entity.module())?);
        return Ok(own_type(alloc, view, entity, unknown)?);
    };
    match scheme_in(interface, kind, entity) {
        Some(scheme) => Ok(DeclaredType::Principal(scheme_text(alloc, scheme)?)),
        None => {
            let unknown = DeclaredType::Hidden(String::from_str(alloc, entity.module())?);
            Ok(own_type(alloc, view, entity, unknown)?)
        }
    }
}

/// Returns the type of an entity, if names of this kind have types.
fn kind_type(
    alloc: Global,
    view: &View<'_>,
    kind: NameKind,
    entity: &EntityRef<'_>,
) -> Result<DeclaredType, AllocError>
    ensures { IfOk result (λ declared. IsEntityType (known_of view.now) kind entity.now (declared_of declared)) }
{
    match kind {
        NameKind::Variable => Ok(entity_type(alloc, view, NameKind::Variable, entity)?),
        NameKind::Constructor => Ok(entity_type(alloc, view, NameKind::Constructor, entity)?),
        NameKind::TypeVariable => Ok(DeclaredType::Untyped),
        NameKind::TypeConstructor => Ok(DeclaredType::Untyped),
        NameKind::ModuleName => Ok(DeclaredType::Untyped),
    }
}

/// Returns the type of a name in its module, if it has one by its kind and by what it means.
pub(crate) fn declared_type(
    alloc: Global,
    view: &View<'_>,
    kind: NameKind,
    meaning: &Meaning<'_>,
) -> Result<DeclaredType, AllocError>
    ensures { IfOk result (λ declared. IsDeclaredType (known_of view.now) kind (sense_of meaning.now) (declared_of declared)) }
{
    match meaning {
        Meaning::Entity(entity) => Ok(kind_type(alloc, view, kind, entity)?),
        Meaning::Local(_) => Ok(DeclaredType::Untyped),
        Meaning::TypeVariable(_) => Ok(DeclaredType::Untyped),
        Meaning::Module(_) => Ok(DeclaredType::Untyped),
        Meaning::Prefix(_) => Ok(DeclaredType::Untyped),
        Meaning::Unbound => Ok(DeclaredType::Untyped),
        Meaning::Ambiguous => Ok(DeclaredType::Untyped),
    }
}
