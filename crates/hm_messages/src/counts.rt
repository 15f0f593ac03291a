//! The lines of counts after messages.
ghost use Rattle.std.specs.Prelude.{◌≡◌, IfOk, string_bytes};
ghost use Rattle.hm_messages.specs.Headings.{count_text as count_bytes, further_counts as further_counts_bytes, further_text as further_bytes, prose_counts as prose_bytes, some_counts as some_bytes, some_further as some_further_bytes};

use crate::heading::{MessageFormat, begin, end};
use hm_messages_json::{Level, counts_line};
use std::alloc::{AllocError, Global};

/// Returns the line of counts for a reader.
fn some_counts(alloc: Global, errors: usize, skipped: usize) -> Result<String, AllocError>
    ensures { IfOk result (λ text. string_bytes text ≡ some_bytes errors skipped) }
{
    format!(in alloc; "errors: {errors}, skipped modules: {skipped}\n")
}

// Why: docs/DECISIONS.md, "Counts".
/// Returns the line of counts for a reader, or no text if both numbers are 0.
fn prose_counts(alloc: Global, errors: usize, skipped: usize) -> Result<String, AllocError>
    ensures { IfOk result (λ text. string_bytes text ≡ prose_bytes errors skipped) }
{
    if errors != 0 {
        return some_counts(alloc, errors, skipped);
    }
    if skipped != 0 {
        return some_counts(alloc, errors, skipped);
    }
    Ok(String::new(alloc))
}

// Why: docs/DECISIONS.md, "Counts where all is good".
/// Returns the line with the numbers of reported errors and of skipped modules.
pub fn count_text(
    alloc: Global,
    format: MessageFormat,
    errors: usize,
    skipped: usize,
) -> Result<String, AllocError>
    ensures { IfOk result (λ text. string_bytes text ≡ count_bytes format errors skipped) }
{
    match format {
        MessageFormat::Plain | MessageFormat::Coloured => prose_counts(alloc, errors, skipped),
        MessageFormat::Json => counts_line(alloc, errors, skipped),
    }
}

/// Returns what the line about so many skipped modules without notes says of them.
fn further_counts(alloc: Global, count: usize) -> Result<String, AllocError>
    ensures { IfOk result (λ text. string_bytes text ≡ further_counts_bytes count) }
{
    format!(in alloc; ": further skipped modules: {count}; they have no notes\n")
}

/// Returns the line about so many skipped modules that have no notes.
fn some_further(alloc: Global, format: MessageFormat, count: usize) -> Result<String, AllocError>
    ensures { IfOk result (λ text. string_bytes text ≡ some_further_bytes format count) }
{
    let mut text = String::from_str(alloc, begin(format, Level::Note))?;
    text.push_str(end(format))?;
    text.push_str(further_counts(alloc, count)?.as_str())?;
    Ok(text)
}

// Why: docs/DECISIONS.md, "Many skipped modules".
/// Returns the line about the skipped modules that have no notes, or no text if there are none.
pub fn further_text(
    alloc: Global,
    format: MessageFormat,
    count: usize,
) -> Result<String, AllocError>
    ensures { IfOk result (λ text. string_bytes text ≡ further_bytes format count) }
{
    if count != 0 {
        return some_further(alloc, format, count);
    }
    Ok(String::new(alloc))
}
