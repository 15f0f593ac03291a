//! The messages of lexical faults after the first fault of a source.
ghost use Rattle.std.specs.Prelude.{◌≡◌, IfOk, List, length, map};
ghost use Rattle.hm_lex.specs.declared.token.LexFault.TheVariants.{Lexeme};
ghost use Rattle.hm_run_sources.specs.Refusals.{lex};
ghost use Rattle.hm_messages.specs.Foreign.{HasSource};
ghost use Rattle.hm_messages.specs.Messages.{AreEach};
ghost use Rattle.hm_messages.specs.Pages.{files_in, texts_in};
ghost use Rattle.hm_messages.specs.Refused.{AreRefusalMessages};
ghost use Rattle.hm_messages_lexemes.specs.Lexemes.{AreLaterLexemes};
ghost use Rattle.hm_build_output.specs.FurtherStated.{IsLaterStated};

use hm_lex::{LexFault, Place};
use hm_messages::{MessageFault, Messages, Pages, source_message};
use hm_messages_hints::{Advice, SyntaxHint};
use hm_messages_lexemes::later_lexemes;
use hm_run_sources::{SetFault, SetFaultKind};
use std::alloc::{AllocError, Global};

// Why: docs/DECISIONS.md, "Further lexical faults".
/// The most lexical faults after the first one of a source that have messages.
const MOST_LATER: usize = 20;

/// The most bytes that a run lexes anew for them.
const MOST_LEXED: usize = 1 << 20;

/// The advice for faults that aren't of syntax.
pub(crate) const NO_ADVICE: Advice<'static> = Advice {
    hint: SyntaxHint::Unexpected,
    text: "",
    elsewhere: None,
};

/// Returns the places of lexical faults after the one at a place. `lexed` is how many bytes the run has lexed anew for such faults.
fn later_places(
    alloc: Global,
    text: &[u8],
    place: Place,
    lexed: &mut usize,
) -> Result<Vec<Place>, AllocError>
    ensures { IfOk result (λ places. AreLaterLexemes text.entry.now place places.items) }
{
    let left = MOST_LEXED.saturating_sub(*lexed);
    let each = text.len().max(1);
    let places = later_lexemes(alloc, text, place, MOST_LATER.min(left / each))?;
    let bytes = each.saturating_mul(places.len().saturating_add(1));
    *lexed = lexed.saturating_add(bytes);
    Ok(places)
}

/// Returns the message of a lexical fault of a source, counted from 1.
fn lexeme_message(
    alloc: Global,
    pages: &Pages<'_>,
    number: usize,
    place: Place,
) -> Result<Vec<u8>, AllocError>
    requires { HasSource (texts_in pages.now.items.items) number }
    ensures { IfOk result (λ text. AreRefusalMessages pages.now.format (files_in pages.now.items.items) (texts_in pages.now.items.items)
        (lex number (Lexeme place)) 1 text.items) }
{
    let fault = SetFault {
        kind: SetFaultKind::Lex {
            source: number,
            fault: LexFault::Lexeme(place),
        },
    };
    match source_message(alloc, pages, &fault, NO_ADVICE) {
        Ok(message) => Ok(message),
        Err(MessageFault::Memory) => Err(AllocError),
        Err(MessageFault::Foreign) => unreachable!(),
    }
}

/// Returns the messages of lexical faults of a source, counted from 1.
fn lexeme_messages(
    alloc: Global,
    pages: &Pages<'_>,
    number: usize,
    places: &[Place],
) -> Result<Vec<u8>, AllocError>
    requires { HasSource (texts_in pages.now.items.items) number }
    ensures { IfOk result (λ text. AreEach (λ p t. AreRefusalMessages pages.now.format (files_in pages.now.items.items) (texts_in pages.now.items.items)
        (lex number (Lexeme p)) 1 t) places.now text.items) }
{
    let mut text = Vec::new(alloc);
    'places: for at in 0..places.len() {
        let message = lexeme_message(alloc, pages, number, places[at])?;
        text.extend_from_slice(message.as_slice())?;
    }
    Ok(text)
}

/// Returns the messages of lexical faults after the first fault of a source. There are none after a fault that isn't of a lexeme. `lexed` is how many
/// bytes the run has lexed anew for such faults.
pub(crate) fn later_messages(
    alloc: Global,
    pages: &Pages<'_>,
    fault: &SetFault,
    lexed: &mut usize,
) -> Result<Messages, AllocError>
    ensures { IfOk result (λ view. IsLaterStated pages.now.format (files_in pages.now.items.items) (texts_in pages.now.items.items) fault.now
        view.errors view.text.items) }
{
    let nothing = Messages {
        text: Vec::new(alloc),
        errors: 0,
    };
    let SetFaultKind::Lex { source, fault } = &fault.kind else {
        return Ok(nothing);
    };
    let LexFault::Lexeme(place) = *fault else {
        return Ok(nothing);
    };
    let number = *source;
    if number == 0 || number > pages.items.len() {
        return Ok(nothing);
    }
    let source = pages.items[number - 1].lines.source();
    let places = later_places(alloc, source, place, lexed)?;
    let text = lexeme_messages(alloc, pages, number, places.as_slice())?;
    Ok(Messages {
        text,
        errors: places.len(),
    })
}
