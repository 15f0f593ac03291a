//! Whether a name has the counterpart of its place in another set.
ghost use Rattle.std.specs.Prelude.{◌≡◌, IsTrue};
ghost use Rattle.hm_uses_references.specs.SetNames.{IsSame};
ghost use Rattle.hm_uses_renames.specs.Renames.{Becomes, IsKept, IsRenamed, StandsAs};

use crate::meanings::{is_renamed_to, is_still};
use hm_types::Text;
use hm_uses_references::{SetUse, is_same};

/// Returns whether two qualifiers are one.
fn is_qualifier(one: &Option<Text>, other: &Option<Text>) -> bool
    ensures { IsTrue result → one.now ≡ other.now }
{
    match one {
        None => other.is_none(),
        Some(own) => match other {
            None => false,
            Some(text) => own.is_same(text),
        },
    }
}

/// Returns whether a name stands as another one did before.
fn stands_as(before: &SetUse<'_>, after: &SetUse<'_>) -> bool
    ensures { IsTrue result → StandsAs before.now after.now }
{
    if after.number() != before.number() || after.source() != before.source() {
        return false;
    }
    let (one, other) = (before.used(), after.used());
    if other.kind() != one.kind() || other.binds() != one.binds() {
        return false;
    }
    is_qualifier(&other.name().qualifier, &one.name().qualifier)
}

/// Returns whether a name is a renamed one.
fn is_renamed(name: &str, before: &SetUse<'_>, after: &SetUse<'_>) -> bool
    ensures { IsTrue result → IsRenamed name.now before.now after.now }
{
    if !stands_as(before, after) {
        return false;
    }
    if after.used().name().as_str() != name {
        return false;
    }
    is_renamed_to(name, before.used().meaning(), after.used().meaning())
}

/// Returns whether a name is one that wasn't renamed.
fn is_kept(name: &str, before: &SetUse<'_>, after: &SetUse<'_>) -> bool
    ensures { IsTrue result → IsKept name.now before.now after.now }
{
    if !stands_as(before, after) {
        return false;
    }
    let text = after.used().name().as_str();
    if text != before.used().name().as_str() && text != name {
        return false;
    }
    is_still(before.used().meaning(), after.used().meaning())
}

/// Returns whether a name is what another one becomes if the name `of` is renamed.
pub(crate) fn becomes(of: &SetUse<'_>, name: &str, before: &SetUse<'_>, after: &SetUse<'_>) -> bool
    ensures { IsTrue result → Becomes of.now name.now before.now after.now }
{
    if is_same(of, before) {
        return is_renamed(name, before, after);
    }
    is_kept(name, before, after)
}
