//! The imports because of which a module is skipped.
ghost use Rattle.std.specs.Prelude.{◌≡◌, ◌<◌, ◌++◌, All, IfOk, OnOk, length, map};
ghost use Rattle.std.specs.Arc.{arc_value};
ghost use Rattle.hm_verdicts.specs.Reports.{AreBlamed};
ghost use Rattle.hm_verdicts.specs.Sets.{IsLawfulSet};
ghost use Rattle.hm_build_reports.specs.ReportBlocks.{all_blamed, blamed};
ghost use Rattle.hm_build_reports.specs.Settling.{module_set, status_of as settlement, statuses_of};

use hm_build_reports::Settled;
use hm_graph::Plan;
use hm_syntax::Module;
use std::alloc::{AllocError, Global};
use std::sync::Arc;

/// Appends the name of a module if it isn't published.
fn add_blamed<'a>(
    names: &mut Vec<&'a str>,
    name: &'a str,
    settled: &Settled<'_>,
) -> Result<(), AllocError>
    ensures { OnOk result (map (λ s. s.now) names.new.items ≡ map (λ s. s.now) names.old.items ++ blamed (settlement settled.now) name.entry.now) }
{
    match settled {
        Settled::Published(_) => Ok(()),
        Settled::Failed(_) => Ok(names.push(name)?),
        Settled::Skipped => Ok(names.push(name)?),
    }
}

/// Returns the names of the modules of a row that aren't published.
fn unpublished<'a>(
    alloc: Global,
    modules: &'a [Arc<Module>],
    settled: &[Settled<'_>],
    row: &[usize],
) -> Result<Vec<&'a str>, AllocError>
    requires modules { All (λ j. j < length modules.now) row.now }
    requires settled { All (λ j. j < length settled.now) row.now }
    ensures { IfOk result (λ names. map (λ s. s.now) names.items ≡ all_blamed (map arc_value modules.entry.now) (statuses_of settled.now) row.now) }
{
    let mut names = Vec::new(alloc);
    for number in row {
        let name = modules[*number].header.name.as_str();
        add_blamed(&mut names, name, &settled[*number])?;
    }
    Ok(names)
}

/// Returns the names of a module's imports that aren't published, ordered.
pub(crate) fn ordered_blame<'a>(
    alloc: Global,
    modules: &'a [Arc<Module>],
    plan: &Plan,
    settled: &[Settled<'_>],
    number: usize,
) -> Result<Vec<&'a str>, AllocError>
    requires lawful { IsLawfulSet (module_set modules.now plan.now) }
    requires len { length settled.now ≡ length modules.now }
    requires number { number < length modules.now }
    ensures { IfOk result (λ names. AreBlamed (module_set modules.entry.now plan.now) (statuses_of settled.now) number (map (λ s. s.now) names.items)) }
{
    let mut names = unpublished(alloc, modules, settled, plan.imports(number))?;
    names.sort()?;
    Ok(names)
}
