//! The texts of the two types that a function takes.
ghost use Rattle.std.specs.Prelude.{◌≡◌, ◌++◌, ◌∷◌, [], IfOk, IfSome, codes, string_bytes};
ghost use Rattle.hm_types.specs.Shape.{type_of};
ghost use Rattle.hm_types.specs.declared.monotypes.Ty.{Ty as Tree};
ghost use Rattle.hm_types_display.specs.Texts.{scheme_text_of};
ghost use Rattle.hm_messages_here.specs.TypesHere.{AreTextsOf};
ghost use Rattle.hm_messages_trials.specs.PartTypes.{from_pair, text_in};

use hm_messages_types::{between, text_of};
use hm_types::{Head, Scheme, Ty, Types};
use hm_types_display::scheme_text;
use std::alloc::{AllocError, Global};

/// The texts of the type of a definition and of that of a part of it.
#[derive(Drop)]
pub(crate) struct TypePair {
    pub own: String,
    pub here: String,
}

/// The types that a function takes.
#[derive(Clone, Copy)]
struct Taken<'a> {
    own: &'a Ty,
    here: &'a Ty,
}

/// Returns types, and after them a copy of one more.
fn with_copy(alloc: Global, types: Vec<Ty>, ty: &Ty) -> Result<Vec<Ty>, AllocError>
    ensures { IfOk result (λ all. (copy : Tree) × (all.items ≡ types.items ++ copy ∷ []) × (type_of copy ≡ type_of ty.now)) }
{
    let mut all = types;
    let copy = ty.copy(alloc)?;
    all.push(copy)?;
    Ok(all)
}

/// Returns the type of a function from a pair to `()`.
fn function_from_pair(alloc: Global, taken: &Taken<'_>) -> Result<Ty, AllocError>
    ensures { IfOk result (λ t. type_of t ≡ from_pair (type_of taken.now.own.now) (type_of taken.now.here.now)) }
{
    let parts = with_copy(alloc, Vec::new(alloc), taken.own)?;
    let parts = with_copy(alloc, parts, taken.here)?;
    let pair = Ty::App(Head::Tuple(2), Types::new(parts));
    let unit = Ty::App(Head::Unit, Types::new(Vec::new(alloc)));
    Ok(Ty::function(alloc, pair, unit)?)
}

/// Returns the two arguments of the first argument of a type.
fn inner_arguments(body: &Ty) -> Option<Taken<'_>> {
    let Ty::App(_, sides) = body else {
        return None;
    };
    let Some(Ty::App(_, parts)) = sides.as_slice().first() else {
        return None;
    };
    let [own, here] = parts.as_slice() else {
        return None;
    };
    Some(Taken { own, here })
}

/// Returns what a function with this type takes, if it is one of a pair to `()`.
fn taken_by(alloc: Global, body: &Ty) -> Result<Option<Taken<'_>>, AllocError>
    ensures { IfOk result (λ found. IfSome found (λ r. type_of body.now ≡ from_pair (type_of r.own.now) (type_of r.here.now))) }
{
    let Some(taken) = inner_arguments(body) else {
        return Ok(None);
    };
    let function = function_from_pair(alloc, &taken)?;
    if body.is_same(&function) {
        return Ok(Some(taken));
    }
    Ok(None)
}

// Why: docs/DECISIONS.md, "The text of two types".
/// Returns the texts of the two types that a function with this scheme takes, if the letters of the first are in order.
pub(crate) fn pair_of(alloc: Global, scheme: &Scheme) -> Result<Option<TypePair>, AllocError>
    ensures { IfOk result (λ found. IfSome found (λ pair. AreTextsOf scheme.now (string_bytes pair.own) (string_bytes pair.here))) }
{
    let Some(taken) = taken_by(alloc, scheme.body())? else {
        return Ok(None);
    };
    let Some(own) = text_of(alloc, taken.own)? else {
        return Ok(None);
    };
    let whole = scheme_text(alloc, scheme)?;
    let front = format!(in alloc; "({own}, ")?;
    match between(alloc, whole.as_bytes(), front.as_bytes(), b") -> ()")? {
        Some(here) => Ok(Some(TypePair { own, here })),
        None => Ok(None),
    }
}
