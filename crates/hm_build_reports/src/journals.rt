//! The text of a journal.
ghost use Rattle.std.specs.Prelude.{◌≡◌, ◌++◌, IfOk, OnOk, codes, map, slice_index_or, string_bytes};
ghost use Rattle.std.specs.Arc.{arc_value};
ghost use Rattle.std.specs.Fmt.{decimal};
ghost use Rattle.hm_verdicts.specs.Sets.{no_module};
ghost use Rattle.hm_store.specs.Builds.{set_of};
ghost use Rattle.hm_build_reports.specs.Journals.{entry_line, journal_text as journal_bytes};

use hm_store::{Entry, Store};
use hm_syntax::Module;
use std::alloc::{AllocError, Global};
use std::sync::Arc;

/// Returns the name of a module, or an empty name for a number that no module has.
fn name_of(modules: &[Arc<Module>], number: usize) -> &str
    ensures { result.now ≡ (slice_index_or (map arc_value modules.now) number no_module).header.name.text }
{
    match modules.get(number) {
        Some(module) => module.header.name.as_str(),
        None => "",
    }
}

/// Appends the text of a step on a module.
fn add_step(text: &mut String, word: &str, worker: usize, name: &str) -> Result<(), AllocError>
    ensures { OnOk result (string_bytes text.new ≡ string_bytes text.old ++ (word.now ++ (codes " " ++ (decimal worker ++ (codes " " ++ name.now))))) }
{
    write!(text, "{word} {worker} {name}")
}

/// Appends the line of an entry that comes after this many publications.
fn add_entry(
    text: &mut String,
    store: &Store,
    publications: usize,
    entry: Entry,
) -> Result<(), AllocError>
    ensures { OnOk result (string_bytes text.new ≡ string_bytes text.old ++ entry_line (set_of store.now) publications entry) }
{
    match entry {
        Entry::Claim { worker, module } => {
            add_step(text, "claim", worker, name_of(store.modules(), module))?;
            write!(text, "\n")
        }
        Entry::Publish { worker, module } => {
            add_step(text, "publish", worker, name_of(store.modules(), module))?;
            write!(text, " {publications}\n")
        }
        Entry::Fail { worker, module } => {
            add_step(text, "fail", worker, name_of(store.modules(), module))?;
            write!(text, "\n")
        }
        Entry::Stop { worker } => write!(text, "stop {worker}\n"),
    }
}

/// Returns the text of the journal of a build: a line for each entry, in order.
pub fn journal_text(alloc: Global, store: &Store) -> Result<String, AllocError>
    ensures { IfOk result (λ text. string_bytes text ≡ journal_bytes store.now) }
{
    let journal = store.journal();
    let mut text = String::new(alloc);
    let mut publications: usize = 0;
    for entry in journal {
        add_entry(&mut text, store, publications, *entry)?;
        if entry.is_publication() {
            publications += 1;
        }
    }
    Ok(text)
}
