//! The lines of a build.
ghost use Rattle.std.specs.Prelude.{◌≡◌, ◌<◌, ℕ, List, IfOk, length, map, slice_index_or, string_bytes};
ghost use Rattle.std.specs.Arc.{arc_value};
ghost use Rattle.hm_verdicts.specs.Sets.{IsLawfulSet, no_module};
ghost use Rattle.hm_run_sources.specs.ModuleCounts.{AreOrigins};
ghost use Rattle.hm_store.specs.Builds.{set_of};
ghost use Rattle.hm_store.specs.Settlements.{settlement as settlement_in};
ghost use Rattle.hm_build_reports.specs.Settling.{module_set, status_of, statuses_of};
ghost use Rattle.hm_build_listing.specs.Listings.{AreLinesOf, IsListing, IsObjectText, file_at, file_of, line_block};

use crate::blame::ordered_blame;
use crate::counts::end_line;
use hm_build_objects::{Stated, module_line};
use hm_build_reports::{Settled, settled_in};
use hm_graph::Plan;
use hm_run_sources::origins_of;
use hm_store::Store;
use hm_syntax::Module;
use std::alloc::{AllocError, Global};
use std::sync::Arc;

/// A settled set, with the source of each module and the names of the sources' files.
#[derive(Clone, Copy)]
struct SetView<'a> {
    modules: &'a [Arc<Module>],
    plan: &'a Plan,
    settled: &'a [Settled<'a>],
    origins: &'a [usize],
    names: &'a [String],
}

/// The line of a module.
#[derive(Drop)]
struct Line<'a> {
    name: &'a str,
    text: String,
}

/// Returns the name of the file of a source.
#[tactic(auto, using(crate::proofs::Lines::named_at, crate::proofs::Lines::unnamed_at))]
fn file_at(names: &[String], source: usize) -> &str
    ensures { result.now ≡ file_at (map string_bytes names.now) source }
{
    if source < names.len() {
        names[source].as_str()
    } else {
        "<stdin>"
    }
}

/// Returns the name of the file of a module.
fn file_of<'a>(set: SetView<'a>, number: usize) -> &'a str
    ensures { result.now ≡ file_of (map string_bytes set.entry.names.now) set.entry.origins.now number }
{
    if number < set.origins.len() {
        file_at(set.names, set.origins[number])
    } else {
        file_at(set.names, 0)
    }
}

/// Returns a module.
#[tactic(auto, using(crate::proofs::Lines::module_is))]
fn module_at<'a>(modules: &'a [Arc<Module>], number: usize) -> &'a Module
    requires { number < length modules.now }
    ensures { result.now ≡ slice_index_or (map arc_value modules.entry.now) number no_module }
{
    &modules[number]
}

/// Returns the status of a module.
fn settled_at<'a>(settled: &[Settled<'a>], number: usize) -> Settled<'a>
    requires { number < length settled.now }
    ensures { status_of result ≡ statuses_of settled.now number }
{
    settled[number]
}

/// Returns the line of a module.
fn line_at(alloc: Global, set: SetView<'_>, number: usize) -> Result<String, AllocError>
    requires lawful { IsLawfulSet (module_set set.modules.now set.plan.now) }
    requires len { length set.settled.now ≡ length set.modules.now }
    requires number { number < length set.modules.now }
    ensures { IfOk result (λ text. IsObjectText (file_of (map string_bytes set.entry.names.now) set.entry.origins.now number)
        (module_set set.entry.modules.now set.entry.plan.now) (statuses_of set.entry.settled.now) number (string_bytes text) (statuses_of set.entry.settled.now number)) }
{
    let file = file_of(set, number);
    let module = module_at(set.modules, number);
    match settled_at(set.settled, number) {
        Settled::Published(interface) => {
            Ok(module_line(alloc, file, module, Stated::Good(interface))?)
        }
        Settled::Failed(faults) => {
            Ok(module_line(alloc, file, module, Stated::Faulty(faults.as_slice()))?)
        }
        Settled::Skipped => {
            let names = ordered_blame(alloc, set.modules, set.plan, set.settled, number)?;
            Ok(module_line(alloc, file, module, Stated::Skipped(names.as_slice()))?)
        }
    }
}

/// Returns the lines of the modules, in the modules' order.
fn lines<'a>(alloc: Global, set: SetView<'a>) -> Result<Vec<Line<'a>>, AllocError>
    requires lawful { IsLawfulSet (module_set set.modules.now set.plan.now) }
    requires len { length set.settled.now ≡ length set.modules.now }
    ensures { IfOk result (λ lines. AreLinesOf (file_of (map string_bytes set.entry.names.now) set.entry.origins.now)
        (module_set set.entry.modules.now set.entry.plan.now) (statuses_of set.entry.settled.now) (map line_block lines.items)) }
{
    let modules = set.modules;
    let mut lines = Vec::new(alloc);
    for number in 0..modules.len() {
        let text = line_at(alloc, set, number)?;
        let name = modules[number].header.name.as_str();
        lines.push(Line { name, text })?;
    }
    Ok(lines)
}

/// Returns the listing of a settled set: a line for each module, ordered by name, and the counts.
fn settled_listing(alloc: Global, set: SetView<'_>) -> Result<String, AllocError>
    requires lawful { IsLawfulSet (module_set set.modules.now set.plan.now) }
    requires len { length set.settled.now ≡ length set.modules.now }
    ensures { IfOk result (λ text. IsListing (file_of (map string_bytes set.entry.names.now) set.entry.origins.now)
        (module_set set.entry.modules.now set.entry.plan.now) (statuses_of set.entry.settled.now) (string_bytes text)) }
{
    let mut lines = lines(alloc, set)?;
    lines.sort_by_key(|line| line.name)?;
    let mut text = String::new(alloc);
    for line in &lines {
        text.push_str(line.text.as_str())?;
    }
    text.push_str(end_line(alloc, set.settled)?.as_str())?;
    Ok(text)
}

/// Returns the report of a build as JSON objects: a line for each module, in the report's order, and the counts.
///
/// `counts` has the number of modules of each source, `names` the names of the sources' files. A source without a name is standard input.
pub fn listing(
    alloc: Global,
    store: &Store,
    counts: &[usize],
    names: &[String],
) -> Result<String, AllocError>
    ensures { IfOk result (λ text. (origins : List ℕ) × AreOrigins counts.now origins
        × IsListing (file_of (map string_bytes names.now) origins) (set_of store.now) (settlement_in store.now) (string_bytes text)) }
{
    // The journal is legal, so the modules are a lawful set.
    store.legal();
    let modules = store.modules();
    let plan = store.plan();
    let settled = settled_in(alloc, store)?;
    let origins = origins_of(alloc, counts)?;
    let set = SetView {
        modules,
        plan,
        settled: settled.as_slice(),
        origins: origins.as_slice(),
        names,
    };
    Ok(settled_listing(alloc, set)?)
}
