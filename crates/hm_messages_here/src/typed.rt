//! The scheme that the module of a changed source exports.
ghost use Rattle.std.specs.Prelude.{◌≡◌, All, IfOk, IfSome, map};
ghost use Rattle.std.specs.Arc.{arc_value};
ghost use Rattle.hm_messages_here.specs.TypesHere.{HasTypes};
ghost use Rattle.hm_messages_trials.specs.PartTypes.{IsExported};
ghost use Rattle.hm_messages_trials.specs.ShownTypes.{ExportsNames};
ghost use Rattle.hm_messages_types.specs.Aliases.{alias_of as named_type};
ghost use Rattle.hm_messages_types.specs.Shown.{IsName};

use hm_messages_outline::Lexed;
use hm_messages_trials::judged;
use hm_messages_types::{Alias, Question, aliases_in};
use hm_types::{Interface, Scheme};
use hm_verdicts::Verdict;
use std::alloc::{AllocError, Global};

/// The name of the variable that is declared in a changed source.
const DECLARED: &str = "part'types";

/// A scheme that a module exports, and its names for types.
#[derive(Drop)]
pub(crate) struct ExportedScheme {
    pub scheme: Scheme,
    pub aliases: Vec<Alias>,
}

/// Returns the scheme with which an interface exports a variable.
fn exported_scheme(
    alloc: Global,
    interface: &Interface,
    variable: &str,
) -> Result<Option<Scheme>, AllocError>
    ensures { IfOk result (λ found. IfSome found (IsExported interface.now variable.now)) }
{
    for entry in interface.values() {
        if entry.name.as_str() == variable {
            return Ok(Some(entry.scheme.copy(alloc)?));
        }
    }
    Ok(None)
}

/// Returns the scheme with which an interface exports the declared variable, and the names for types.
fn typed_by(
    alloc: Global,
    question: &Question<'_>,
    lexed: &Lexed<'_>,
    interface: &Interface,
    variable: &str,
) -> Result<Option<ExportedScheme>, AllocError>
    ensures scheme { IfOk result (λ found. IfSome found (λ typed. IsExported interface.now variable.now typed.scheme)) }
    ensures names { IfOk result (λ found. IfSome found (λ typed. All (λ a. IsName question.now.name.now interface.now (named_type a)) typed.aliases.items)) }
{
    let Some(scheme) = exported_scheme(alloc, interface, variable)? else {
        return Ok(None);
    };
    let aliases = aliases_in(alloc, question, lexed, interface)?;
    Ok(Some(ExportedScheme { scheme, aliases }))
}

/// Returns the scheme with which the module of a question exports the declared variable in a changed source, and its names for types, if it is good there.
pub(crate) fn typed_in(
    alloc: Global,
    question: &Question<'_>,
    lexed: &Lexed<'_>,
    changed: &[u8],
) -> Result<Option<ExportedScheme>, AllocError>
    ensures scheme { IfOk result (λ found. IfSome found (λ typed. HasTypes changed.now question.now.name.now (map arc_value question.now.imports.now)
        typed.scheme)) }
    ensures names { IfOk result (λ found. IfSome found (λ typed. ExportsNames changed.now question.now.name.now (map arc_value question.now.imports.now)
        (map named_type typed.aliases.items))) }
{
    let Some(outcome) = judged(alloc, question, changed)? else {
        return Ok(None);
    };
    match outcome.verdict() {
        Verdict::Good(interface) => Ok(typed_by(alloc, question, lexed, interface, DECLARED)?),
        Verdict::Faulty(_) => Ok(None),
    }
}
