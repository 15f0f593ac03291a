//! The name at a place, if it isn't in scope.
ghost use Rattle.std.specs.Prelude.{◌≡◌, All, Contains, List, IfSome, true};
ghost use Rattle.hm_types.specs.Interfaces.{Exports as Interface};
ghost use Rattle.hm_syntax.specs.Lists.{declarations};
ghost use Rattle.hm_syntax.specs.declared.ast.Module.{Module as ModuleTree};
ghost use Rattle.hm_names.specs.Bindings.{IsScopeOf};
ghost use Rattle.hm_names.specs.Scope.{IsUnbound};
ghost use Rattle.hm_uses.specs.Mentions.{declarations_mentions};
ghost use Rattle.hm_messages_exporters.specs.Missing.{IsMissing, name_at, space_of};

use hm_lex::Place;
use hm_names::Namespace;
use hm_scope_tables::{Meaning, Scope};
use hm_syntax::Name;
use hm_uses::NameKind;
use hm_uses_declarations::Use;

/// A name without a qualifier that isn't in scope, and the namespace in which it is looked up.
#[derive(Clone, Copy)]
pub struct Missing<'a> {
    pub place: Place,
    pub space: Namespace,
    pub name: &'a str,
}

/// Returns the namespace in which a name of this kind is looked up.
fn space_of(kind: NameKind) -> Option<Namespace>
    ensures { result ≡ space_of kind }
{
    match kind {
        NameKind::Variable => Some(Namespace::Values),
        NameKind::Constructor => Some(Namespace::Constructors),
        NameKind::TypeVariable => None,
        NameKind::TypeConstructor => Some(Namespace::Types),
        NameKind::ModuleName => None,
    }
}

/// Returns whether a name has no qualifier and is at this place.
fn is_bare_at(place: Place, name: &Name) -> bool
    ensures { result ≡ true → name.now ≡ name_at place name.now.text }
{
    name.qualifier.is_none() && name.place == place
}

/// Returns whether a name has no entity in a scope.
fn is_unbound(scope: &Scope<'_>, space: Namespace, name: &Name) -> bool
    ensures { result ≡ true → (m : ModuleTree) (fs : List Interface) → IsScopeOf m fs scope.now → IsUnbound m fs space name.now }
{
    matches!(scope.meaning(space, name), Meaning::Unbound)
}

/// Returns the name at a place, if it is one of these names, without a qualifier, and isn't in scope. The uses are those of the module's declarations.
pub fn missing_at<'a>(uses: &[Use<'a>], scope: &Scope<'_>, place: Place) -> Option<Missing<'a>>
    ensures place { IfSome result (λ missing. missing.place ≡ place) }
    ensures missing { IfSome result (λ missing. (m : ModuleTree) (fs : List Interface) → All (λ u. Contains (declarations_mentions (declarations m.decls)) u.mention) uses.now
        → IsScopeOf m fs scope.now → IsMissing m fs place missing.space missing.name.now) }
{
    'uses: for one in uses {
        let name = one.name();
        if !is_bare_at(place, name) {
            continue;
        }
        let Some(space) = space_of(one.kind()) else {
            continue;
        };
        if is_unbound(scope, space, name) {
            let name = name.as_str();
            return Some(Missing { place, space, name });
        }
    }
    None
}
