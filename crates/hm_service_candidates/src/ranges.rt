//! The changes that are tried for a range of a source.
ghost use Rattle.std.specs.Prelude.{◌≡◌, ◌<◌, ◌++◌, All, IfOk, IsTrue, OnOk, false, length, map};
ghost use Rattle.std.specs.List.{Any};
ghost use Rattle.hm_service_candidates.specs.Ranges.{AreCandidatesIn, AreOwn, IsIn, tried, tried_of};

use crate::candidates::{MOST_TRIED, candidates_of, end_of_notes, is_error};
use hm_service_messages::{Diagnostic, Position, overlaps};
use std::alloc::{AllocError, Global};

/// A range of a source.
#[derive(Clone, Copy, Debug)]
pub struct SourceRange {
    /// The number of the source.
    pub source: usize,
    pub start: Position,
    pub end: Position,
}

/// A change of a source that a message says.
#[derive(Clone, Copy, Debug)]
pub struct Candidate<'a> {
    /// The error that is to go.
    pub fault: &'a Diagnostic,
    /// The message that says the change. It may be the error itself.
    pub change: &'a Diagnostic,
}

/// Returns whether a message is about the source with this number.
fn is_of(message: &Diagnostic, source: usize) -> bool
    ensures yes { IsTrue result → message.now.source ≡ source }
    ensures no { result ≡ false → ¬ (message.now.source ≡ source) }
{
    message.source == source
}

/// Returns whether a message has a place in common with a range.
fn is_in(message: &Diagnostic, range: &SourceRange) -> bool
    ensures yes { IsTrue result → IsIn range.now message.now }
    ensures no { result ≡ false → ¬ (IsIn range.now message.now) }
{
    if !is_of(message, range.source) {
        return false;
    }
    overlaps(message, range.start, range.end)
}

/// Returns whether one of these messages has a place in common with a range.
fn has_message_in(messages: &[Diagnostic], range: &SourceRange) -> bool
    ensures yes { IsTrue result → Any (IsIn range.now) messages.now }
    ensures no { result ≡ false → All (λ d. ¬ (IsIn range.now d)) messages.now }
{
    'messages: for index in 0..messages.len() {
        if is_in(&messages[index], range) {
            return true;
        }
    }
    false
}

/// Returns the candidates of a message, if it is an error of the source and one of its messages has a place in common with the range.
fn own_candidates<'a>(
    alloc: Global,
    told: &'a [Diagnostic],
    range: &SourceRange,
    number: usize,
) -> Result<Vec<&'a Diagnostic>, AllocError>
    requires { number < length told.now }
    ensures { IfOk result (λ own. AreOwn told.entry.now range.now number (map (λ d. d.now) own.items)) }
{
    if !is_error(&told[number]) {
        return Ok(Vec::new(alloc));
    }
    if !is_of(&told[number], range.source) {
        return Ok(Vec::new(alloc));
    }
    let end = end_of_notes(told, number + 1);
    if !has_message_in(&told[number..end], range) {
        return Ok(Vec::new(alloc));
    }
    candidates_of(alloc, told, range.source, number)
}

/// Appends the candidates of an error.
fn add_all<'a>(
    found: &mut Vec<Candidate<'a>>,
    fault: &'a Diagnostic,
    changes: &[&'a Diagnostic],
) -> Result<(), AllocError>
    ensures { OnOk result (map tried_of found.new.items ≡ map tried_of found.old.items ++ map (tried fault.entry.now) (map (λ d. d.now) changes.now)) }
{
    'changes: for change in changes {
        found.push(Candidate {
            fault,
            change: *change,
        })?;
    }
    Ok(())
}

/// Returns the changes that are tried for a range, in order: the candidates of the errors of its source that have a message with a place in common with
/// it, at most `MOST_TRIED`.
///
/// # Errors
///
/// If memory runs out.
pub fn candidates_in<'a>(
    alloc: Global,
    told: &'a [Diagnostic],
    range: &SourceRange,
) -> Result<Vec<Candidate<'a>>, AllocError>
    ensures { IfOk result (λ found. AreCandidatesIn told.entry.now range.now (map tried_of found.items)) }
{
    let mut found = Vec::new(alloc);
    'messages: for number in 0..told.len() {
        let own = own_candidates(alloc, told, range, number)?;
        add_all(&mut found, &told[number], own.as_slice())?;
    }
    found.truncate(MOST_TRIED);
    Ok(found)
}
