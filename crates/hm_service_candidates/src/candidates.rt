//! The changes that are tried for a fault.
ghost use Rattle.std.specs.Prelude.{◌≡◌, ◌<◌, ◌≤◌, ◌∷◌, ◌++◌, [], IfOk, IsTrue, OnOk, ℕ, false, get_or, length, map};
ghost use Rattle.hm_messages_json.specs.declared.message.Level.TheVariants.{Error, Note};
ghost use Rattle.hm_service_candidates.specs.Candidates.{AreCandidates, IsCandidate};
ghost use Rattle.hm_service_messages.specs.Choices.{AreChosen};
ghost use Rattle.hm_service_messages.specs.declared.diagnostic.Diagnostic.{Diagnostic as Message};

use hm_service_messages::{Diagnostic, Level};
use std::alloc::{AllocError, Global};

/// The most changes that are tried for a fault.
pub const MOST_TRIED: usize = 8;

/// Returns whether a message is an error.
pub(crate) fn is_error(message: &Diagnostic) -> bool
    ensures yes { IsTrue result → message.now.level ≡ Error }
    ensures no { result ≡ false → message.now.level ≡ Note }
{
    match message.level {
        Level::Error => true,
        Level::Note => false,
    }
}

/// Returns where the notes end that begin at an index.
pub(crate) fn end_of_notes(told: &[Diagnostic], from: usize) -> usize
    requires { from ≤ length told.now }
    ensures later { from ≤ result }
    ensures within { result ≤ length told.now }
    ensures notes { (i : ℕ) → (d : Message) → from ≤ i → i < result → (get_or told.now i d).level ≡ Note }
    ensures next { (d : Message) → result < length told.now → (get_or told.now result d).level ≡ Error }
{
    'messages: for index in from..told.len() {
        if is_error(&told[index]) {
            return index;
        }
    }
    told.len()
}

/// Returns whether a message says a change of a source.
fn is_candidate(message: &Diagnostic, source: usize) -> bool
    ensures yes { IsTrue result → IsCandidate source message.now }
    ensures no { result ≡ false → ¬ (IsCandidate source message.now) }
{
    if message.source != source {
        return false;
    }
    !message.edits.as_slice().is_empty()
}

/// Appends a message if `chosen` holds.
fn add<'a>(
    found: &mut Vec<&'a Diagnostic>,
    message: &'a Diagnostic,
    chosen: bool,
) -> Result<(), AllocError>
    ensures yes { OnOk result (IsTrue chosen → map (λ d. d.now) found.new.items ≡ map (λ d. d.now) found.old.items ++ message.entry.now ∷ []) }
    ensures none { OnOk result (chosen ≡ false → found.new.items ≡ found.old.items) }
{
    if chosen {
        found.push(message)?;
    }
    Ok(())
}

/// Returns the messages that say a change of a source, in order.
fn chosen_in<'a>(
    alloc: Global,
    messages: &'a [Diagnostic],
    source: usize,
) -> Result<Vec<&'a Diagnostic>, AllocError>
    ensures { IfOk result (λ found. AreChosen (IsCandidate source) messages.entry.now (map (λ d. d.now) found.items)) }
{
    let mut found = Vec::new(alloc);
    'messages: for message in messages {
        add(&mut found, message, is_candidate(message, source))?;
    }
    Ok(found)
}

/// Returns the candidates of the fault that the message with this number reports: its messages that say a change of the source, in order, at most
/// `MOST_TRIED`.
///
/// # Errors
///
/// If memory runs out.
pub fn candidates_of<'a>(
    alloc: Global,
    told: &'a [Diagnostic],
    source: usize,
    number: usize,
) -> Result<Vec<&'a Diagnostic>, AllocError>
    requires { number < length told.now }
    ensures { IfOk result (λ found. AreCandidates told.entry.now source number (map (λ d. d.now) found.items)) }
{
    let end = end_of_notes(told, number + 1);
    let mut found = chosen_in(alloc, &told[number..end], source)?;
    found.truncate(MOST_TRIED);
    Ok(found)
}
