//! The text of a report.
ghost use Rattle.std.specs.Prelude.{◌≡◌, ◌≢◌, ◌<◌, ◌⊎◌, ◌++◌, All, IfOk, OnOk, codes, length, map, string_bytes};
ghost use Rattle.std.specs.Arc.{arc_value};
ghost use Rattle.std.specs.List.{flat_map};
ghost use Rattle.hm_verdicts.specs.Sets.{IsLawfulSet};
ghost use Rattle.hm_verdicts.specs.Reports.{AreBlamed, IsBlockText, IsReport, blame_line, count_line, fault_line, is_failed, is_published, is_skipped, tally};
ghost use Rattle.hm_store.specs.Builds.{set_of};
ghost use Rattle.hm_store.specs.Settlements.{settlement as settlement_in};
ghost use Rattle.hm_build_reports.specs.Settling.{module_set, status_of as settlement, statuses_of};
ghost use Rattle.hm_run_sources.specs.declared.status.Status.{Status};
ghost use Rattle.hm_build_reports.specs.ReportBlocks.{AreBlocksOf, all_blamed, blamed, report_block_of};

use crate::statuses::{Settled, settled_in};
use hm_graph::Plan;
use hm_names::Fault;
use hm_run_sources::Status;
use hm_store::Store;
use hm_syntax::Module;
use hm_types_display::interface_text;
use hm_verdicts::kind_word;
use std::alloc::{AllocError, Global};
use std::sync::Arc;

/// The block of a module in a report.
#[derive(Drop)]
struct ReportBlock<'a> {
    name: &'a str,
    text: String,
}

/// Appends the line of a fault.
fn add_fault(text: &mut String, fault: &Fault) -> Result<(), AllocError>
    ensures { OnOk result (string_bytes text.new ≡ string_bytes text.old ++ fault_line fault.now) }
{
    let line = fault.place.line;
    let column = fault.place.column;
    let word = kind_word(fault.kind);
    let name = fault.name.as_str();
    write!(text, "  {line}:{column} {word} {name}\n")
}

/// Returns the text of a faulty module.
fn faulty_text(alloc: Global, name: &str, faults: &[Fault]) -> Result<String, AllocError>
    ensures { IfOk result (λ text. string_bytes text ≡ codes "faulty " ++ name.now ++ codes "\n" ++ flat_map fault_line faults.now) }
{
    let mut text = format!(in alloc; "faulty {name}\n")?;
    for fault in faults {
        add_fault(&mut text, fault)?;
    }
    Ok(text)
}

/// Appends the name of a module if it isn't published.
fn add_blamed<'a>(
    names: &mut Vec<&'a str>,
    name: &'a str,
    settled: &Settled<'_>,
) -> Result<(), AllocError>
    ensures { OnOk result (map (λ s. s.now) names.new.items ≡ map (λ s. s.now) names.old.items ++ blamed (settlement settled.now) name.entry.now) }
{
    match settled {
        Settled::Published(_) => Ok(()),
        Settled::Failed(_) => Ok(names.push(name)?),
        Settled::Skipped => Ok(names.push(name)?),
    }
}

// Why: docs/DECISIONS.md, "Blame".
/// Returns the names of the modules of a row that aren't published.
fn unpublished<'a>(
    alloc: Global,
    modules: &'a [Arc<Module>],
    settled: &[Settled<'_>],
    row: &[usize],
) -> Result<Vec<&'a str>, AllocError>
    requires modules { All (λ j. j < length modules.now) row.now }
    requires settled { All (λ j. j < length settled.now) row.now }
    ensures { IfOk result (λ names. map (λ s. s.now) names.items ≡ all_blamed (map arc_value modules.entry.now) (statuses_of settled.now) row.now) }
{
    let mut names = Vec::new(alloc);
    for number in row {
        let name = modules[*number].header.name.as_str();
        add_blamed(&mut names, name, &settled[*number])?;
    }
    Ok(names)
}

/// Returns the names of a module's imports that aren't published, ordered.
fn ordered_blame<'a>(
    alloc: Global,
    modules: &'a [Arc<Module>],
    plan: &Plan,
    settled: &[Settled<'_>],
    number: usize,
) -> Result<Vec<&'a str>, AllocError>
    requires lawful { IsLawfulSet (module_set modules.now plan.now) }
    requires len { length settled.now ≡ length modules.now }
    requires number { number < length modules.now }
    ensures { IfOk result (λ names. AreBlamed (module_set modules.entry.now plan.now) (statuses_of settled.now) number (map (λ s. s.now) names.items)) }
{
    let mut names = unpublished(alloc, modules, settled, plan.imports(number))?;
    names.sort()?;
    Ok(names)
}

/// Returns the text of a skipped module, with the names of the imports because of which it is skipped.
fn skipped_text(alloc: Global, name: &str, names: &[&str]) -> Result<String, AllocError>
    ensures { IfOk result (λ text. string_bytes text ≡ codes "skipped " ++ name.now ++ codes "\n" ++ flat_map blame_line (map (λ s. s.now) names.now)) }
{
    let mut text = format!(in alloc; "skipped {name}\n")?;
    for import in names {
        write!(text, "  by {import}\n")?;
    }
    Ok(text)
}

/// Returns the text of one module.
fn block_text(
    alloc: Global,
    modules: &[Arc<Module>],
    plan: &Plan,
    settled: &[Settled<'_>],
    number: usize,
) -> Result<String, AllocError>
    requires lawful { IsLawfulSet (module_set modules.now plan.now) }
    requires len { length settled.now ≡ length modules.now }
    requires number { number < length modules.now }
    ensures { IfOk result (λ text. IsBlockText (module_set modules.now plan.now) (statuses_of settled.now) number (string_bytes text)
        (statuses_of settled.now number)) }
{
    let name = modules[number].header.name.as_str();
    match &settled[number] {
        Settled::Published(interface) => interface_text(alloc, interface),
        Settled::Failed(faults) => faulty_text(alloc, name, faults.as_slice()),
        Settled::Skipped => {
            let names = ordered_blame(alloc, modules, plan, settled, number)?;
            skipped_text(alloc, name, names.as_slice())
        }
    }
}

/// Returns the blocks of the modules, in the modules' order.
fn blocks<'a>(
    alloc: Global,
    modules: &'a [Arc<Module>],
    plan: &Plan,
    settled: &[Settled<'_>],
) -> Result<Vec<ReportBlock<'a>>, AllocError>
    requires lawful { IsLawfulSet (module_set modules.now plan.now) }
    requires len { length settled.now ≡ length modules.now }
    ensures { IfOk result (λ blocks. AreBlocksOf (module_set modules.entry.now plan.now) (statuses_of settled.now) (map report_block_of blocks.items)) }
{
    let mut blocks = Vec::new(alloc);
    for number in 0..modules.len() {
        let text = block_text(alloc, modules, plan, settled, number)?;
        let name = modules[number].header.name.as_str();
        blocks.push(ReportBlock { name, text })?;
    }
    Ok(blocks)
}

/// The numbers of good, faulty and skipped modules.
#[derive(Clone, Copy)]
struct Counts {
    good: usize,
    faulty: usize,
    skipped: usize,
}

/// Counts the modules of a settled set.
fn counts_of(settled: &[Settled<'_>]) -> Counts
    ensures good { result.good ≡ tally is_published (statuses_of settled.now) (length settled.now) }
    ensures faulty { result.faulty ≡ tally is_failed (statuses_of settled.now) (length settled.now) }
    ensures skipped { result.skipped ≡ tally is_skipped (statuses_of settled.now) (length settled.now) }
{
    let mut good = 0usize;
    let mut faulty = 0usize;
    let mut skipped = 0usize;
    for status in settled {
        match status {
            Settled::Published(_) => good += 1,
            Settled::Failed(_) => faulty += 1,
            Settled::Skipped => skipped += 1,
        }
    }
    Counts {
        good,
        faulty,
        skipped,
    }
}

/// Returns the number of skipped modules of a settled set.
pub fn skipped_in(settled: &[Settled<'_>]) -> usize
    ensures { result ≡ tally is_skipped (statuses_of settled.now) (length settled.now) }
{
    counts_of(settled).skipped
}

/// Returns `Good` if all modules of a settled set are good, else `Faulty`.
pub fn status_of(settled: &[Settled<'_>]) -> Status
    ensures good { result ≡ Status.Good → tally is_published (statuses_of settled.now) (length settled.now) ≡ length settled.now }
    ensures faulty { result ≡ Status.Faulty → tally is_published (statuses_of settled.now) (length settled.now) ≢ length settled.now }
    ensures either { (result ≡ Status.Good) ⊎ (result ≡ Status.Faulty) }
{
    if counts_of(settled).good == settled.len() {
        Status::Good
    } else {
        Status::Faulty
    }
}

/// Appends the last line, with the counts.
fn add_counts(text: &mut String, settled: &[Settled<'_>]) -> Result<(), AllocError>
    ensures { OnOk result (string_bytes text.new ≡ string_bytes text.old ++ count_line (statuses_of settled.now) (length settled.now)) }
{
    let count = settled.len();
    let Counts {
        good,
        faulty,
        skipped,
    } = counts_of(settled);
    write!(
        text,
        "{count} modules: {good} good, {faulty} faulty, {skipped} skipped\n"
    )
}

/// Returns the report of a settled set: a block for each module, ordered by name, and the counts.
fn settled_report(
    alloc: Global,
    modules: &[Arc<Module>],
    plan: &Plan,
    settled: &[Settled<'_>],
) -> Result<String, AllocError>
    requires lawful { IsLawfulSet (module_set modules.now plan.now) }
    requires len { length settled.now ≡ length modules.now }
    ensures { IfOk result (λ text. IsReport (module_set modules.now plan.now) (statuses_of settled.now) (string_bytes text)) }
{
    let mut blocks = blocks(alloc, modules, plan, settled)?;
    blocks.sort_by_key(|block| block.name)?;
    let mut text = String::new(alloc);
    for block in &blocks {
        text.push_str(block.text.as_str())?;
    }
    add_counts(&mut text, settled)?;
    Ok(text)
}

/// Returns the report of a build: a block for each module, ordered by name, and the counts.
pub fn report(alloc: Global, store: &Store) -> Result<String, AllocError>
    ensures { IfOk result (λ text. IsReport (set_of store.now) (settlement_in store.now) (string_bytes text)) }
{
    // The journal is legal, so the modules are a lawful set.
    store.legal();
    let modules = store.modules();
    let plan = store.plan();
    let settled = settled_in(alloc, store)?;
    Ok(settled_report(alloc, modules, plan, settled.as_slice())?)
}
