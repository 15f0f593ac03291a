//! Finds names in scope that are one edit away from a name, and the entities that a name means.
ghost use Rattle.std.specs.Prelude.{◌≡◌, Contains, IfOk, IfSome, true};
ghost use Rattle.hm_names.specs.Bindings.{Pair};
ghost use Rattle.hm_messages_details.specs.Details.{IsEntityFor, IsNearPair};
ghost use Rattle.hm_messages_details.specs.Nearness.{AreNear, IsSmallForm, begins_capital};
ghost use Rattle.hm_messages_details.specs.Roles.{CanStand, CanStandInCapitals};

use crate::role::Role;
use crate::written::after_qualifier;
use hm_names::Namespace;
use hm_scope_tables::{Binding, EntityRef};
use std::alloc::{AllocError, Global};
use strsim::osa_distance;

/// The shortest and the longest names for which a near one is searched, in bytes. A name of one or two letters is near dozens.
const SHORTEST: usize = 3;

const LONGEST: usize = 64;

/// Returns whether a name begins with a capital letter, as those of types and constructors do.
fn begins_capital(text: &str) -> bool
    ensures { result ≡ begins_capital text.now }
{
    match text.as_bytes().first() {
        Some(byte) => matches!(*byte, b'A'..=b'Z'),
        None => false,
    }
}

/// Returns the number of bytes at the front that are the same.
fn same_front(text: &[u8], other: &[u8]) -> usize {
    text.iter()
        .zip(other.iter())
        .take_while(|(one, two)| **one == **two)
        .count()
}

/// Returns the number of bytes at the end that are the same.
fn same_back(text: &[u8], other: &[u8]) -> usize {
    text.iter()
        .rev()
        .zip(other.iter().rev())
        .take_while(|(one, two)| **one == **two)
        .count()
}

/// Returns whether two texts differ in one place by two bytes at most. It has no contract: it saves computing the distance of most texts.
fn are_alike(text: &[u8], other: &[u8]) -> bool {
    let longest = text.len().max(other.len());
    if longest > LONGEST || longest.saturating_sub(text.len().min(other.len())) > 1 {
        return false;
    }
    let same = same_front(text, other).saturating_add(same_back(text, other));
    longest.saturating_sub(same) <= 2
}

/// Returns whether two texts are one edit apart, and both or neither begin with a capital letter.
pub fn is_near(alloc: Global, text: &str, other: &str) -> Result<bool, AllocError>
    ensures { IfOk result (λ is. is ≡ true → AreNear text.now other.now) }
{
    if text.len() < SHORTEST || !are_alike(text.as_bytes(), other.as_bytes()) {
        return Ok(false);
    }
    if begins_capital(text) != begins_capital(other) {
        return Ok(false);
    }
    Ok(osa_distance(alloc, text, other)? == 1)
}

/// Returns whether the first name is the second one with a small letter in place of the capital.
fn is_small_form(text: &[u8], name: &[u8]) -> bool
    ensures { result ≡ true → IsSmallForm text.now name.now }
{
    let Some((small, rest)) = text.split_first() else {
        return false;
    };
    let Some((capital, others)) = name.split_first() else {
        return false;
    };
    if !matches!(*capital, b'A'..=b'Z') {
        return false;
    }
    *small == *capital + 32 && rest == others
}

/// Returns whether a name of this namespace fits a place.
fn can_stand(role: Role, space: Namespace) -> bool
    ensures { result ≡ true → CanStand role space }
{
    match role {
        Role::Variable | Role::ExportedVariable => space == Namespace::Values,
        Role::Constructor => space == Namespace::Constructors,
        Role::TypeConstructor => space == Namespace::Types,
        Role::TypeVariable => false,
    }
}

/// Returns whether a name of this namespace fits a place if it begins with a capital letter in place of a small one.
fn can_stand_in_capitals(role: Role, space: Namespace) -> bool
    ensures { result ≡ true → CanStandInCapitals role space }
{
    match role {
        Role::Variable => space == Namespace::Constructors,
        Role::TypeVariable => space == Namespace::Types,
        Role::ExportedVariable | Role::Constructor | Role::TypeConstructor => false,
    }
}

/// Returns whether a pair's name can stand for a name with this role, and is one edit away from it after the same qualifier, or has it as its small form.
fn is_near_pair(
    alloc: Global,
    name: &str,
    role: Role,
    pair: &Binding<'_>,
) -> Result<bool, AllocError>
    ensures { IfOk result (λ is. is ≡ true → IsNearPair role name.now pair.now) }
{
    let Some(text) = after_qualifier(name, pair.qualifier()) else {
        return Ok(false);
    };
    if can_stand_in_capitals(role, pair.space()) {
        return Ok(is_small_form(text.as_bytes(), pair.text().as_bytes()));
    }
    if !can_stand(role, pair.space()) {
        return Ok(false);
    }
    is_near(alloc, text, pair.text())
}

/// Returns whether a name without a qualifier means one thing. Any other name counts as one that does.
fn is_clear(pair: &Binding<'_>, pairs: &[Binding<'_>]) -> bool {
    match pair.qualifier() {
        Some(_) => true,
        None => other_entity_of(pair.text(), pair.space(), pairs, pair.entity()).is_none(),
    }
}

// Why: docs/DECISIONS.md, "Near names".
/// Returns the first of these pairs whose name is near to this one, and can stand where a name with this role stands.
pub(crate) fn nearest<'r, 'a>(
    alloc: Global,
    name: &str,
    role: Role,
    pairs: &'r [Binding<'a>],
) -> Result<Option<&'r Binding<'a>>, AllocError>
    ensures { IfOk result (λ found. IfSome found (λ pair. Contains pairs.entry.now pair.now × IsNearPair role name.now pair.now)) }
{
    for pair in pairs {
        if is_near_pair(alloc, name, role, pair)? && is_clear(pair, pairs) {
            return Ok(Some(pair));
        }
    }
    Ok(None)
}

/// Returns whether a pair has this name in this namespace.
fn is_named(name: &str, space: Namespace, pair: &Binding<'_>) -> bool
    ensures { result ≡ true → IsEntityFor name.now space pair.now }
{
    if pair.space() != space {
        return false;
    }
    match after_qualifier(name, pair.qualifier()) {
        Some(text) => text == pair.text(),
        None => false,
    }
}

/// Returns the first of these pairs that has this name in this namespace.
pub(crate) fn entity_of<'r, 'a>(
    name: &str,
    space: Namespace,
    pairs: &'r [Binding<'a>],
) -> Option<&'r Binding<'a>>
    ensures { IfSome result (λ pair. Contains pairs.entry.now pair.now × IsEntityFor name.now space pair.now) }
{
    for pair in pairs {
        if is_named(name, space, pair) {
            return Some(pair);
        }
    }
    None
}

/// Returns the first of these pairs that has this name in this namespace, and another entity.
pub(crate) fn other_entity_of<'r, 'a>(
    name: &str,
    space: Namespace,
    pairs: &'r [Binding<'a>],
    entity: &EntityRef<'_>,
) -> Option<&'r Binding<'a>>
    ensures { IfSome result (λ pair. Contains pairs.entry.now pair.now × IsEntityFor name.now space pair.now × ¬ (pair.now.entity ≡ entity.now)) }
{
    for pair in pairs {
        if is_named(name, space, pair) && !pair.entity().is_same(entity) {
            return Some(pair);
        }
    }
    None
}

/// Returns a namespace in which one of these pairs has this name.
pub(crate) fn space_of(name: &str, pairs: &[Binding<'_>]) -> Option<Namespace>
    ensures { IfSome result (λ space. (pair : Pair) × Contains pairs.now pair × IsEntityFor name.now space pair) }
{
    match entity_of(name, Namespace::Types, pairs) {
        Some(_) => return Some(Namespace::Types),
        None => {}
    }
    match entity_of(name, Namespace::Constructors, pairs) {
        Some(_) => return Some(Namespace::Constructors),
        None => {}
    }
    match entity_of(name, Namespace::Values, pairs) {
        Some(_) => Some(Namespace::Values),
        None => None,
    }
}
