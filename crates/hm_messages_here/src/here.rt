//! The types of names at their places.
ghost use Rattle.std.specs.Prelude.{◌≡◌, IfOk, IfSome, map, slice_range, string_bytes};
ghost use Rattle.std.specs.Arc.{arc_value};
ghost use Rattle.hm_messages_changes.specs.Holes.{IsPartOf};
ghost use Rattle.hm_messages_copies.specs.Changes.{part_of as point_part};
ghost use Rattle.hm_messages_here.specs.Patterns.{IsTied};
ghost use Rattle.hm_messages_here.specs.TypesHere.{HasTypeAt, HasTypeHere};
ghost use Rattle.hm_messages_types.specs.Aliases.{alias_of as named_type};
ghost use Rattle.hm_messages_types.specs.Shown.{IsFolded};

use crate::pairs::{TypePair, pair_of};
use crate::patterns::tie_of;
use crate::targets::target_of;
use crate::typed::typed_in;
use crate::without::Whole;
use crate::written::WrittenName;
use hm_messages_changes::{Local, SourceRange, Span, part_of};
use hm_messages_copies::{
    Copied, Declared, Inside, NamePart, Point, Target, TypeSpot, copies_of, declarations_around,
    spot_of, with_function, with_heads,
};
use hm_messages_outline::{Lexed, declarations_of, number_at, one};
use hm_messages_trials::read;
use hm_messages_types::{Alias, Question, folded, names_in};
use std::alloc::{AllocError, Global};

/// The type of a name at its place, and that of the definition it is in. Both have the same names for the same variables, and names of synonyms.
#[derive(Drop)]
pub struct TypeHere {
    /// The name of the definition, or `()` if that is a pattern binding.
    pub definition: String,
    /// The type of the definition, or `()`.
    pub own: String,
    /// The type of the name.
    pub here: String,
}

/// Returns the texts of the types in a definition, with names for some of them.
fn shown_pair(
    alloc: Global,
    definition: &str,
    pair: &TypePair,
    aliases: &[Alias],
) -> Result<TypeHere, AllocError>
    ensures definition { IfOk result (λ shown. string_bytes shown.definition ≡ definition.now) }
    ensures own { IfOk result (λ shown. IsFolded (map named_type aliases.now) (string_bytes pair.now.own) (string_bytes shown.own)) }
    ensures here { IfOk result (λ shown. IsFolded (map named_type aliases.now) (string_bytes pair.now.here) (string_bytes shown.here)) }
{
    let own = folded(alloc, aliases, pair.own.as_str())?;
    let here = folded(alloc, aliases, pair.here.as_str())?;
    let definition = String::from_str(alloc, definition)?;
    Ok(TypeHere {
        definition,
        own,
        here,
    })
}

/// Returns the type of the part of a point inside of definitions.
fn type_inside(
    alloc: Global,
    question: &Question<'_>,
    lexed: &Lexed<'_>,
    target: &Target<'_>,
    inside: &Inside<'_, '_, '_>,
) -> Result<Option<TypeHere>, AllocError>
    requires { IsTied target.now.source.now question.now.name.now inside.now.first.whole.from inside.now.first.name.now inside.now.first.value.now
        inside.now.first.local.name.now }
    ensures { IfOk result (λ found. IfSome found (λ t. HasTypeHere target.now.source.now question.now.name.now (map arc_value question.now.imports.now)
        (point_part inside.now.point) (string_bytes t.definition) (string_bytes t.own) (string_bytes t.here))) }
{
    let Some(changed) = with_function(alloc, target, inside)? else {
        return Ok(None);
    };
    let Some(typed) = typed_in(alloc, question, lexed, changed.as_slice())? else {
        return Ok(None);
    };
    let Some(pair) = pair_of(alloc, &typed.scheme)? else {
        return Ok(None);
    };
    let aliases = typed.aliases.as_slice();
    Ok(Some(shown_pair(alloc, inside.first.name, &pair, aliases)?))
}

/// Returns the type of the part of a point inside of definitions with these copies.
fn type_in_copies(
    alloc: Global,
    question: &Question<'_>,
    lexed: &Lexed<'_>,
    copies: &[Copied<'_>],
    point: Point,
) -> Result<Option<TypeHere>, AllocError>
    ensures { IfOk result (λ found. IfSome found (λ t. HasTypeHere question.now.source.now question.now.name.now (map arc_value question.now.imports.now)
        (point_part point) (string_bytes t.definition) (string_bytes t.own) (string_bytes t.here))) }
{
    let Some((first, others)) = copies.split_first() else {
        return Ok(None);
    };
    let names = names_in(alloc, lexed, question.name)?;
    let source = question.source;
    let Some(target) = target_of(source, question.name, lexed, names.as_slice()) else {
        return Ok(None);
    };
    let Some(tie) = tie_of(alloc, question, first)? else {
        return Ok(None);
    };
    let inside = Inside {
        first: Copied {
            whole: first.whole,
            name: first.name,
            value: tie.value.as_str(),
            local: Local {
                name: tie.local.as_str(),
                before: first.local.before,
                after: first.local.after,
            },
        },
        others,
        point,
    };
    Ok(type_inside(alloc, question, lexed, &target, &inside)?)
}

/// Returns the type of a name, whose token is in these declarations.
fn type_around(
    alloc: Global,
    question: &Question<'_>,
    lexed: &Lexed<'_>,
    around: &[Declared],
    spot: TypeSpot,
) -> Result<Option<TypeHere>, AllocError>
    ensures { IfOk result (λ found. IfSome found (λ t. HasTypeHere question.now.source.now question.now.name.now (map arc_value question.now.imports.now)
        (point_part spot.point) (string_bytes t.definition) (string_bytes t.own) (string_bytes t.here))) }
{
    let definitions = &around[..spot.depth.min(around.len())];
    let definitions = with_heads(alloc, lexed, definitions)?;
    let source = question.source;
    match copies_of(alloc, source, lexed, definitions.as_slice(), spot.byte)? {
        Some(copies) => {
            let copies = copies.as_slice();
            Ok(type_in_copies(alloc, question, lexed, copies, spot.point)?)
        }
        None => Ok(None),
    }
}

/// Returns the type of the name of a token.
fn type_of_token(
    alloc: Global,
    question: &Question<'_>,
    lexed: &Lexed<'_>,
    token: usize,
    name: NamePart,
) -> Result<Option<TypeHere>, AllocError>
    ensures { IfOk result (λ found. IfSome found (λ t. HasTypeHere question.now.source.now question.now.name.now (map arc_value question.now.imports.now)
        name.part (string_bytes t.definition) (string_bytes t.own) (string_bytes t.here))) }
{
    let Some(body) = declarations_of(lexed, question.name) else {
        return Ok(None);
    };
    let around = declarations_around(alloc, lexed, body, token)?;
    let Some(spot) = spot_of(lexed, around.as_slice(), token, name) else {
        return Ok(None);
    };
    Ok(type_around(alloc, question, lexed, around.as_slice(), spot)?)
}

/// Returns the token at a place as a part of the source, if its bytes are a name.
fn part_at(lexed: &Lexed<'_>, token: usize, name: &WrittenName<'_>) -> Option<SourceRange>
    ensures part { IfSome result (IsPartOf lexed.now.source.now) }
    ensures start { IfSome result (λ part. part.start ≡ name.now.place) }
    ensures written { IfSome result (λ part. slice_range lexed.now.source.now part.from part.to ≡ name.now.text.now) }
{
    let part = part_of(lexed.tokens, one(token), lexed.source)?;
    if part.start != name.place {
        return None;
    }
    if &lexed.source[part.from..part.to] != name.text.as_bytes() {
        return None;
    }
    Some(part)
}

/// Returns the type that a name has at its place in the module of a question, and that of the definition it is in. `whole` has the source of the question.
///
/// A name of an expression has the type of this use. A variable that a pattern, a `let` or a `where` binds has the type with which it is bound; a local definition of several
/// types has its most general one.
///
/// None if the name isn't at its place in a definition, if it is declared at top level, or if the module isn't good with a function of a value of that type.
///
/// # Errors
///
/// Memory ran out, or a type would have grown past the limits of the question.
pub fn type_here(
    alloc: Global,
    question: &Question<'_>,
    whole: &Whole,
    name: &WrittenName<'_>,
) -> Result<Option<TypeHere>, AllocError>
    ensures { IfOk result (λ found. IfSome found (λ t. HasTypeAt question.now.source.now question.now.name.now (map arc_value question.now.imports.now)
        name.now.place name.now.text.now (string_bytes t.definition) (string_bytes t.own) (string_bytes t.here))) }
{
    let Some(reading) = read(alloc, question.source)? else {
        return Ok(None);
    };
    let lexed = reading.lexed(question.source);
    let token = number_at(lexed.tokens, name.place);
    let Some(part) = part_at(&lexed, token, name) else {
        return Ok(None);
    };
    if whole.hides(part.from) {
        return Ok(None);
    }
    let named = NamePart {
        part: Span {
            from: part.from,
            to: part.to,
        },
        binds: name.binds,
    };
    Ok(type_of_token(alloc, question, &lexed, token, named)?)
}
