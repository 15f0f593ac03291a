//! The schemes of declared names.
ghost use Rattle.std.specs.Prelude.{◌≡◌, IfOk, IfSome, map, string_bytes};
ghost use Rattle.std.specs.Arc.{arc_value};
ghost use Rattle.hm_messages_here.specs.TypesHere.{HasSchemeHere};

use crate::targets::target_of;
use crate::typed::typed_in;
use hm_messages_copies::{Target, with_variable};
use hm_messages_outline::Lexed;
use hm_messages_trials::read;
use hm_messages_types::{Question, folded, names_in};
use hm_types_display::scheme_text;
use std::alloc::{AllocError, Global};

/// Returns the text of the scheme of a name, if a variable that is declared at the target can have it.
fn scheme_at(
    alloc: Global,
    question: &Question<'_>,
    lexed: &Lexed<'_>,
    target: &Target<'_>,
    name: &str,
) -> Result<Option<String>, AllocError>
    ensures { IfOk result (λ found. IfSome found (λ text. HasSchemeHere target.now.source.now question.now.name.now (map arc_value question.now.imports.now)
        name.now (string_bytes text))) }
{
    let Some(changed) = with_variable(alloc, target, name)? else {
        return Ok(None);
    };
    let Some(typed) = typed_in(alloc, question, lexed, changed.as_slice())? else {
        return Ok(None);
    };
    let whole = scheme_text(alloc, &typed.scheme)?;
    Ok(Some(folded(alloc, typed.aliases.as_slice(), whole.as_str())?))
}

/// Returns the text of the scheme of a name in the module of a question, with names of synonyms. The name may have a qualifier.
///
/// None if the source can't be read, or if the module isn't good with a variable that is the name.
///
/// # Errors
///
/// Memory ran out, or a type would have grown past the limits of the question.
pub fn scheme_here(
    alloc: Global,
    question: &Question<'_>,
    name: &str,
) -> Result<Option<String>, AllocError>
    ensures { IfOk result (λ found. IfSome found (λ text. HasSchemeHere question.now.source.now question.now.name.now (map arc_value question.now.imports.now)
        name.now (string_bytes text))) }
{
    let Some(reading) = read(alloc, question.source)? else {
        return Ok(None);
    };
    let lexed = reading.lexed(question.source);
    let names = names_in(alloc, &lexed, question.name)?;
    let Some(target) = target_of(question.source, question.name, &lexed, names.as_slice()) else {
        return Ok(None);
    };
    Ok(scheme_at(alloc, question, &lexed, &target, name)?)
}
