//! Changes of held sources.
ghost use Rattle.std.specs.Prelude.{◌≡◌, ◌∷◌, ℕ, List, IfOk, OnErr, OnOk};
ghost use Rattle.hm_service_sources.specs.Standing.{IsReadAs, StandsFor};

use crate::held::{HeldSource, is_readable};
use hm_run_sources::Nesting;
use std::alloc::{AllocError, Global};
use std::snapshot::Snapshot;
use std::thread::{Builder, Promise, Threads};
use thiserror::Error;

/// Why a source can't be given a text.
#[derive(Debug, Drop, Error)]
pub enum ChangeFault {
    #[error("no memory")]
    Memory,
    /// No thread could start.
    #[error("no thread")]
    NoThread,
}

impl From<AllocError> for ChangeFault {
    fn from(_error: AllocError) -> ChangeFault {
        ChangeFault::Memory
    }
}

/// A text, and whether it can be read.
#[derive(Drop)]
struct ReadText {
    text: Vec<u8>,
    is_read: bool,
}

/// What a thread promises: it returns this text, and whether it can be read.
#[derive(Drop)]
struct ReadTextOf(Snapshot<Vec<u8>>);

impl Promise<Result<ReadText, AllocError>> for ReadTextOf {
    ghost use Rattle.std.specs.Prelude.{◌≡◌, IfOk};
    ghost use Rattle.hm_service_sources.specs.Standing.{IsReadAs};

    ghost kept_by = { λ p r. IfOk r (λ t. (t.text.items ≡ p.0.value.items) × IsReadAs t.text.items t.is_read) };
}

/// Reads a text.
fn read_text(alloc: Global, text: Vec<u8>) -> Result<ReadText, AllocError>
    ensures { IfOk result (λ t. (t.text.items ≡ text.items) × IsReadAs t.text.items t.is_read) }
{
    let is_read = is_readable(alloc, text.as_slice())?;
    Ok(ReadText { text, is_read })
}

/// Reads a text on a new thread, whose stack is large enough for it.
fn read_on_thread<T: Threads>(rt: &T, alloc: Global, text: Vec<u8>) -> Result<ReadText, ChangeFault>
    ensures { IfOk result (λ t. (t.text.items ≡ text.items) × IsReadAs t.text.items t.is_read) }
{
    let promise = ReadTextOf(Snapshot::of(&text));
    let texts = [text];
    let stack = Nesting::of(&texts).stack_size();
    let [text] = texts;
    let thread = Builder::new().stack_size(stack);
    match thread.spawn_with(rt, promise, move || { read_text(alloc, text) }) {
        Ok(reader) => match reader.join(rt) {
            Ok(read) => Ok(read),
            Err(AllocError) => Err(ChangeFault::Memory),
        },
        Err(_) => Err(ChangeFault::NoThread),
    }
}

// Why: docs/DECISIONS.md, "The text that stands for a source".
/// Gives a source a new text.
///
/// # Errors
///
/// `Memory` if memory ran out, and `NoThread` if no thread could start. The source is as before then.
pub fn change<T: Threads>(
    rt: &T,
    alloc: Global,
    source: &mut HeldSource,
    text: Vec<u8>,
) -> Result<(), ChangeFault>
    ensures text { OnOk result (source.new.text.items ≡ text.items) }
    // Whether the text can be read.
    ensures read { OnOk result (IsReadAs text.items source.new.is_read) }
    // The text stands for the source if it can be read. Otherwise the one before it does.
    ensures standing { OnOk result ((earlier : List (List ℕ)) → StandsFor earlier source.old.standing.items
        → StandsFor (text.items ∷ earlier) source.new.standing.items) }
    ensures unchanged { OnErr result (source.new ≡ source.old) }
{
    let read = read_on_thread(rt, alloc, text)?;
    let ReadText { text, is_read } = read;
    if is_read {
        let standing = Vec::from_slice(alloc, text.as_slice())?;
        source.standing = standing;
    }
    source.text = text;
    source.is_read = is_read;
    Ok(())
}
