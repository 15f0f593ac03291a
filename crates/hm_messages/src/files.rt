//! Sources with the names of their files, and with their modules.
ghost use Rattle.std.specs.Prelude.{◌≡◌, IfOk, map, take_while};
ghost use Rattle.hm_messages.specs.ModuleStarts.{MayBeStartsOf, is_from, start_of};
ghost use Rattle.hm_messages.specs.Pages.{AreFilesOf, file_at, files_in, starts_in, texts_in};

use crate::heading::MessageFormat;
use crate::pages::{Page, Pages};
use crate::starts::{ModuleStart, SourceModules};
use hm_messages_excerpts::SourceLines;
use std::alloc::{AllocError, Global};

/// Returns the modules of a source. `rest` begins with them, and goes on with those of later sources.
fn own_modules<'a>(
    alloc: Global,
    rest: &[ModuleStart<'a>],
    source: usize,
) -> Result<Vec<ModuleStart<'a>>, AllocError>
    ensures { IfOk result (λ modules. modules.items ≡ take_while (is_from source) rest.now) }
{
    let mut modules = Vec::new(alloc);
    'run: for start in rest {
        if start.source != source {
            return Ok(modules);
        }
        modules.push(*start)?;
    }
    Ok(modules)
}

/// Returns the name of a source. A source without one is standard input.
fn file_at<'a>(names: &'a [Vec<u8>], number: usize) -> &'a [u8]
    ensures { result.now ≡ file_at (map (λ s. s.items) names.now) number }
{
    match names.get(number) {
        Some(name) => name.as_slice(),
        None => b"<stdin>",
    }
}

/// Returns the sources with these names, as messages show them. `starts` has the modules of all sources in order, or is empty if they aren't
/// known.
pub fn pages_of<'a>(
    alloc: Global,
    format: MessageFormat,
    sources: &'a [Vec<u8>],
    names: &'a [Vec<u8>],
    starts: &[ModuleStart<'a>],
) -> Result<Pages<'a>, AllocError>
    requires { MayBeStartsOf (map (λ s. s.items) sources.now) starts.now }
    ensures format { IfOk result (λ pages. pages.format ≡ format) }
    ensures texts { IfOk result (λ pages. texts_in pages.items.items ≡ map (λ s. s.items) sources.entry.now) }
    ensures files { IfOk result (λ pages. AreFilesOf (map (λ s. s.items) names.entry.now) (map (λ s. s.items) sources.entry.now) (files_in pages.items.items)) }
    ensures starts { IfOk result (λ pages. starts_in pages.items.items ≡ map start_of starts.now) }
{
    let mut items = Vec::new(alloc);
    let mut from = 0usize;
    for number in 0..sources.len() {
        let text = sources[number].as_slice();
        let lines = SourceLines::of(alloc, text)?;
        let file = file_at(names, number);
        let own = own_modules(alloc, &starts[from..], number)?;
        from += own.len();
        let modules = SourceModules::new(text, own);
        items.push(Page {
            file,
            lines,
            modules,
        })?;
    }
    Ok(Pages { format, items })
}
