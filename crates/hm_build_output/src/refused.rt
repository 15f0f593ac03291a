//! The messages of a refused set: of the fault for which it is refused, and of the faults of each further source.
ghost use Rattle.std.specs.Prelude.{◌≡◌, ◌+◌, ◌++◌, ◌<◌, ◌≤◌, ℕ, List, IfNone, IfOk, IfSome, OnOk, drop, length, map};
ghost use Rattle.hm_messages.specs.Foreign.{IsForeign, IsNumbered};
ghost use Rattle.hm_messages.specs.FurtherFaults.{AreFurtherFaults, AreSourceFaults, IsFirstFault};
ghost use Rattle.hm_messages.specs.Messages.{AreEach};
ghost use Rattle.hm_messages.specs.Pages.{files_in, texts_in};
ghost use Rattle.hm_messages.specs.Refused.{AreRefusalMessages, IsAdvised};
ghost use Rattle.hm_build_output.specs.FurtherStated.{AreFaultsStated, AreLaterOf};
ghost use Rattle.hm_build_messages.specs.Explained.{StatesRefusal};
ghost use Rattle.hm_run_sources.specs.Origins.{AreHeadersFor};
ghost use Rattle.hm_run_sources.specs.Refusals.{Refusal};
ghost use Rattle.hm_run_sources.specs.Runs.{IsRefusalOf};

use crate::later::{NO_ADVICE, later_messages};
use hm_build_messages::MessageOptions;
use hm_messages::{
    MessageFault, Messages, Pages, count_text, pages_of, refusal_messages, source_message,
};
use hm_messages_hints::Advice;
use hm_messages_repairs::{Search, advice_at};
use hm_parse_grammar::ParseFault;
use hm_run_sources::{
    RefusedSet, SetError, SetFault, SetFaultKind, source_tokens, spelled_modules,
};
use std::alloc::{AllocError, Global};

// Why: docs/DECISIONS.md, "Further sources".
/// The most bytes of further sources in which changes are tried.
const MOST_TRIED: usize = 1 << 17;

/// How many bytes a run has read again for the messages of a refusal.
#[derive(Drop)]
struct Effort {
    /// Those of further sources in which changes have been tried.
    tried: usize,
    /// Those that have been lexed for faults after the first one of a source.
    lexed: usize,
}

/// Returns the advice for a fault of syntax. It says nothing about other faults.
fn advice_on<'a>(
    alloc: Global,
    sources: &'a [Vec<u8>],
    fault: &SetFault,
    search: Search,
) -> Result<Advice<'a>, AllocError>
    requires { IsNumbered (map (λ s. s.items) sources.now) fault.now }
    ensures { IfOk result (λ a. IsAdvised (map (λ s. s.items) sources.entry.now) fault.now a.hint a.text.now a.elsewhere) }
{
    let SetFaultKind::Parse { source, fault } = &fault.kind else {
        return Ok(NO_ADVICE);
    };
    let ParseFault::Syntax(place) = *fault else {
        return Ok(NO_ADVICE);
    };
    let number = *source - 1;
    Ok(advice_at(alloc, sources[number].as_slice(), place, search)?)
}

/// Returns the first fault of the source with this number, counted from 1, if it has any.
fn first_fault(alloc: Global, number: usize, text: &[u8]) -> Result<Option<SetFault>, AllocError>
    ensures { IfOk result (IsFirstFault number text.now) }
{
    let tokens = match source_tokens(alloc, number, text) {
        Ok(tokens) => tokens,
        Err(SetError::Refused(fault)) => return Ok(Some(fault)),
        Err(SetError::Memory) => return Err(AllocError),
    };
    match spelled_modules(alloc, number, text, tokens.as_slice()) {
        Ok(_modules) => Ok(None),
        Err(SetError::Refused(fault)) => Ok(Some(fault)),
        Err(SetError::Memory) => Err(AllocError),
    }
}

/// Returns which hint is looked for in a further source of so many bytes. Adds them to those in which changes are tried.
fn search_in(tried: &mut usize, bytes: usize) -> Search {
    match tried.checked_add(bytes) {
        Some(sum) if sum <= MOST_TRIED => {
            *tried = sum;
            Search::Changes
        }
        _ => Search::Facts,
    }
}

/// Adds messages to others.
fn add(all: &mut Messages, more: &Messages) -> Result<(), AllocError>
    ensures text { OnOk result (all.new.text.items ≡ all.old.text.items ++ more.now.text.items) }
    ensures errors { OnOk result (all.new.errors ≡ all.old.errors + more.now.errors) }
{
    let Some(errors) = all.errors.checked_add(more.errors) else {
        return Err(AllocError);
    };
    all.text.extend_from_slice(more.text.as_slice())?;
    all.errors = errors;
    Ok(())
}

/// Returns the messages of the faults of a source, counted from 0.
fn fault_messages(
    alloc: Global,
    pages: &Pages<'_>,
    sources: &[Vec<u8>],
    source: usize,
    effort: &mut Effort,
) -> Result<Messages, AllocError>
    requires within { source < length sources.now }
    requires texts { texts_in pages.now.items.items ≡ map (λ s. s.items) sources.now }
    ensures { IfOk result (λ view. AreFaultsStated pages.now.format (files_in pages.now.items.items) (texts_in pages.now.items.items) source
        view.errors view.text.items) }
{
    let bytes = sources[source].as_slice();
    let Some(fault) = first_fault(alloc, source + 1, bytes)? else {
        return Ok(Messages {
            text: Vec::new(alloc),
            errors: 0,
        });
    };
    let search = search_in(&mut effort.tried, bytes.len());
    let advice = advice_on(alloc, sources, &fault, search)?;
    let text = match source_message(alloc, pages, &fault, advice) {
        Ok(text) => text,
        Err(MessageFault::Memory) => return Err(AllocError),
        Err(MessageFault::Foreign) => unreachable!(),
    };
    let mut all = Messages { text, errors: 1 };
    let later = later_messages(alloc, pages, &fault, &mut effort.lexed)?;
    add(&mut all, &later)?;
    Ok(all)
}

/// Returns the messages of the faults of the sources from this one on, counted from 0.
fn further_messages(
    alloc: Global,
    pages: &Pages<'_>,
    sources: &[Vec<u8>],
    from: usize,
    effort: &mut Effort,
) -> Result<Messages, AllocError>
    requires within { from ≤ length sources.now }
    requires texts { texts_in pages.now.items.items ≡ map (λ s. s.items) sources.now }
    ensures { IfOk result (λ view. (faults : List Refusal) × AreSourceFaults (from + 1) (drop from (texts_in pages.now.items.items)) faults
        × AreEach (λ r t. AreRefusalMessages pages.now.format (files_in pages.now.items.items) (texts_in pages.now.items.items) r 1 t) faults view.text.items
        × (view.errors ≡ length faults)) }
{
    let mut all = Messages {
        text: Vec::new(alloc),
        errors: 0,
    };
    for source in from..sources.len() {
        let messages = fault_messages(alloc, pages, sources, source, effort)?;
        add(&mut all, &messages)?;
    }
    Ok(all)
}

/// Returns the number of the first source after that of a fault, counted from 0. If the plan has the fault, it is the number of sources. Returns
/// `None` if no source has the fault's number.
fn first_after(fault: &SetFault, sources: usize) -> Option<usize>
    ensures within { IfSome result (λ from. from ≤ sources) }
    ensures numbered { IfSome result (λ from. (texts : List (List ℕ)) → length texts ≡ sources → IsNumbered texts fault.now) }
    ensures further { IfSome result (λ from. (texts : List (List ℕ)) (own more : List Refusal) → length texts ≡ sources → AreLaterOf texts fault.now own
        → AreSourceFaults (from + 1) (drop from texts) more → AreFurtherFaults texts fault.now (own ++ more)) }
    ensures foreign { IfNone result ((texts : List (List ℕ)) → length texts ≡ sources → IsForeign texts fault.now) }
{
    match &fault.kind {
        SetFaultKind::Lex { source, .. } | SetFaultKind::Parse { source, .. } => {
            if *source == 0 || *source > sources {
                return None;
            }
            Some(*source)
        }
        SetFaultKind::Plan { .. } => Some(sources),
    }
}

/// Returns the messages of the fault for which a set is refused.
fn own_messages(
    alloc: Global,
    pages: &Pages<'_>,
    refused: &RefusedSet,
    advice: Advice<'_>,
) -> Result<Messages, AllocError>
    requires because { IsRefusalOf (texts_in pages.now.items.items) refused.now.fault }
    requires headers { AreHeadersFor (texts_in pages.now.items.items) refused.now.fault refused.now.located.items }
    requires advised { IsAdvised (texts_in pages.now.items.items) refused.now.fault advice.hint advice.text.now advice.elsewhere }
    ensures { IfOk result (λ view. AreRefusalMessages pages.now.format (files_in pages.now.items.items) (texts_in pages.now.items.items)
        refused.now.fault view.errors view.text.items) }
{
    let located = refused.located.as_slice();
    match refusal_messages(alloc, pages, located, &refused.fault, advice) {
        Ok(messages) => Ok(messages),
        Err(MessageFault::Memory) => Err(AllocError),
        Err(MessageFault::Foreign) => unreachable!(),
    }
}

/// Returns the messages of a refused set.
pub(crate) fn refused_set_messages<'a>(
    alloc: Global,
    sources: &'a [Vec<u8>],
    refused: &RefusedSet,
    explain: &'a MessageOptions,
) -> Result<Vec<u8>, AllocError>
    requires because { IsRefusalOf (map (λ s. s.items) sources.now) refused.now.fault }
    requires headers { AreHeadersFor (map (λ s. s.items) sources.now) refused.now.fault refused.now.located.items }
    ensures { IfOk result (λ m. StatesRefusal explain.now.format (map (λ s. s.items) explain.now.names.items) (map (λ s. s.items) sources.now) refused.now.fault m.items) }
{
    let Some(from) = first_after(&refused.fault, sources.len()) else {
        unreachable!()
    };
    let pages = pages_of(alloc, explain.format, sources, &explain.names, &[])?;
    let advice = advice_on(alloc, sources, &refused.fault, Search::Changes)?;
    let mut all = own_messages(alloc, &pages, refused, advice)?;
    let mut effort = Effort { tried: 0, lexed: 0 };
    let later = later_messages(alloc, &pages, &refused.fault, &mut effort.lexed)?;
    add(&mut all, &later)?;
    let further = further_messages(alloc, &pages, sources, from, &mut effort)?;
    add(&mut all, &further)?;
    let counts = count_text(alloc, explain.format, all.errors, 0)?;
    let Messages { mut text, .. } = all;
    text.extend_from_slice(counts.as_bytes())?;
    Ok(text)
}
