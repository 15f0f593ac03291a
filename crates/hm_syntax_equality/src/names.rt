//! Names and literals.

ghost use Rattle.std.specs.Prelude.{◌≡◌, ◌↔◌, IsTrue};

use crate::rows::Part;
use hm_lex::Place;
use hm_syntax::{Literal, LiteralKind, Name};
use hm_texts::Text;

/// Returns whether two places are the same.
pub(crate) fn is_same_place(place: &Place, other: &Place) -> bool
    ensures { IsTrue result ↔ (place.now ≡ other.now) }
{
    place.line == other.line && place.column == other.column
}

/// Returns whether two names have the same qualifier, or both have none.
fn is_same_qualifier(qualifier: &Option<Text>, other: &Option<Text>) -> bool
    ensures { IsTrue result ↔ (qualifier.now ≡ other.now) }
{
    match (qualifier, other) {
        (None, None) => true,
        (Some(text), Some(with)) => text.as_str() == with.as_str(),
        _ => false,
    }
}

/// Returns whether two names are the same, including places.
pub(crate) fn is_same_name(name: &Name, other: &Name) -> bool
    ensures { IsTrue result ↔ (name.now ≡ other.now) }
{
    is_same_qualifier(&name.qualifier, &other.qualifier)
        && name.text.as_str() == other.text.as_str()
        && is_same_place(&name.place, &other.place)
}

impl Part for Name {
    fn is_same(&self, other: &Name) -> bool {
        is_same_name(self, other)
    }
}

/// Returns whether two literals have the same kind and text.
pub(crate) fn is_same_literal(literal: &Literal, other: &Literal) -> bool
    ensures { IsTrue result ↔ (literal.now ≡ other.now) }
{
    match (&literal.kind, &other.kind) {
        (LiteralKind::Integer(text), LiteralKind::Integer(with)) => text.as_str() == with.as_str(),
        (LiteralKind::Character(text), LiteralKind::Character(with)) => {
            text.as_str() == with.as_str()
        }
        (LiteralKind::Text(text), LiteralKind::Text(with)) => text.as_str() == with.as_str(),
        _ => false,
    }
}
